//! A new record beside an old one.
ghost use Rattle.std.specs.Prelude.{◌≡◌, false, true, take, drop, IfOk, IfSome, option_copied};
ghost use Rattle.pie_graph.specs.Numbers.{numbers};
ghost use Rattle.pie_old.specs.inner.Rows.{paths_in};
ghost use Rattle.pie_results.specs.inner.Failures.{is_done};

use pie_base::{OutOfMemory, Path};
use pie_graph::TaskNo;
use pie_record::{Outcome, TaskRecord};
use std::alloc::Global;

/// Whether a task ended with another output than before. Where it wasn't there before, nobody has an output of it.
pub(crate) fn has_other_output(old: Option<&TaskRecord>, new: &TaskRecord) -> bool
    ensures failed { IfSome (option_copied old.entry) (λ _. is_done new.now.outcome ≡ false → result ≡ true) }
    ensures same { IfSome (option_copied old.entry) (λ was. result ≡ false → was.outcome ≡ new.now.outcome) }
{
    match old {
        Some(old) => !is_same_output(&old.outcome, &new.outcome),
        None => false,
    }
}

fn is_same_output(old: &Outcome, new: &Outcome) -> bool
    ensures failed { is_done new.now ≡ false → result ≡ false }
    ensures same { result ≡ true → old.now ≡ new.now }
{
    match (old, new) {
        (Outcome::Done(old), Outcome::Done(new)) => old.same(new),
        _ => false,
    }
}

/// Whether a task wrote something else than before.
pub(crate) fn has_other_writes(old: Option<&TaskRecord>, new: &TaskRecord) -> bool
    ensures { IfSome (option_copied old.entry) (λ was. result ≡ false → was.writes ≡ new.now.writes) }
{
    match old {
        Some(old) => !is_same_writes(old.writes.as_slice(), new.writes.as_slice()),
        None => false,
    }
}

fn is_same_writes(old: &[(Path, [u8; 32])], new: &[(Path, [u8; 32])]) -> bool
    ensures { result ≡ true → old.now ≡ new.now }
{
    if old.len() != new.len() {
        return false;
    }
    for i in 0..old.len() {
        if !is_same_write(&old[i], &new[i]) {
            return false;
        }
    }
    true
}

fn is_same_write(old: &(Path, [u8; 32]), new: &(Path, [u8; 32])) -> bool
    ensures { result ≡ true → old.now ≡ new.now }
{
    old.0 == new.0 && old.1 == new.1
}

/// Whether the row of a task has the same numbers before and from a place on.
#[tactic(auto, using(crate::proofs::Twofold::none_twice))]
pub(crate) fn is_twice(row: &[TaskNo], from: usize) -> bool
    ensures { result ≡ true → take from (numbers row.now) ≡ drop from (numbers row.now) }
{
    if from > row.len() {
        return row.is_empty();
    }
    let (before, after) = (&row[..from], &row[from..]);
    is_same_numbers(before, after)
}

fn is_same_numbers(one: &[TaskNo], other: &[TaskNo]) -> bool
    ensures { result ≡ true → numbers one.now ≡ numbers other.now }
{
    if one.len() != other.len() {
        return false;
    }
    for i in 0..one.len() {
        if one[i].0 != other[i].0 {
            return false;
        }
    }
    true
}

/// The paths of some writes.
pub(crate) fn paths_of(alloc: Global, writes: &[(Path, [u8; 32])]) -> Result<Vec<Path>, OutOfMemory>
    ensures { IfOk result (λ paths. paths.items ≡ paths_in writes.now) }
{
    let mut paths = Vec::new(alloc);
    for write in writes {
        paths.push(write.0.copy()?)?;
    }
    Ok(paths)
}
