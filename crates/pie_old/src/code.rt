//! Which tasks are of functions that stayed the same.
ghost use Rattle.std.specs.Prelude.{◌≡◌, ℕ, List, map, IfOk};
ghost use Rattle.std.specs.BTreeMap.{get_by_text};
ghost use Rattle.pie_old.specs.inner.Code.{is_same_code, same_digest};

use crate::digests::digests_of;
use pie_base::{OutOfMemory, Text};
use pie_value::Task;
use std::alloc::Global;
use std::collections::BTreeMap;

/// Which tasks are of functions that have one digest in both lists. Where a name comes twice in a list, the first counts.
pub fn same_code(
    alloc: Global,
    tasks: &[Task],
    old: &[(Text, [u8; 32])],
    now: &[(Text, [u8; 32])],
) -> Result<Vec<bool>, OutOfMemory>
    ensures { IfOk result (λ flags. flags.items ≡ map (λ t. is_same_code old.now now.now t.func) tasks.now) }
{
    let old = digests_of(alloc, old)?;
    let now = digests_of(alloc, now)?;
    let flags = flags_of(alloc, tasks, &old, &now)?;
    Ok(flags)
}

fn flags_of(
    alloc: Global,
    tasks: &[Task],
    old: &BTreeMap<String, [u8; 32]>,
    now: &BTreeMap<String, [u8; 32]>,
) -> Result<Vec<bool>, OutOfMemory>
    ensures { IfOk result (λ flags. flags.items ≡ map (λ t. same_digest (get_by_text old.now t.func) (get_by_text now.now t.func)) tasks.now) }
{
    let mut flags = Vec::with_capacity(alloc, tasks.len())?;
    for task in tasks {
        let same = is_same(task.func.as_str(), old, now);
        flags.push(same)?;
    }
    Ok(flags)
}

// Whether a name has one digest in both.
fn is_same(name: &str, old: &BTreeMap<String, [u8; 32]>, now: &BTreeMap<String, [u8; 32]>) -> bool
    ensures { result ≡ same_digest (get_by_text old.now name.now) (get_by_text now.now name.now) }
{
    match (old.get(name), now.get(name)) {
        (Some(one), Some(other)) => one == other,
        _ => false,
    }
}
