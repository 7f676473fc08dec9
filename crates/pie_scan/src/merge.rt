//! The paths that two scans tell apart, by one pass over both.
ghost use Rattle.std.specs.Prelude.{◌≡◌, ◌++◌, ◌&&◌, ◌==◌, List, ℕ, IfOk, OnOk};
ghost use Rattle.pie_base.specs.Path.{same_text};
ghost use Rattle.pie_files.specs.Directory.{Directory};
ghost use Rattle.pie_scan.specs.Entries.{AreInOrder, paths_in, same_entry};
ghost use Rattle.pie_scan.specs.Changes.{AreChanged};
ghost use Rattle.pie_scan.specs.Scanned.{AreScanned};
ghost use Rattle.pie_scan.specs.Covering.{IsSeparate, DiffersBelow, Covers};
ghost use Rattle.pie_scan.specs.inner.Merge.{comes_first as specs_comes_first, ahead, others, met, past, merged};

use crate::Entry;
use pie_base::{OutOfMemory, Path};
use std::alloc::Global;

/// The paths that stand in one list alone or with different entries, in path order.
#[tactic(auto, using(crate::proofs::Merging::merged_is, crate::proofs::Separating::changed_covers))]
pub fn changed(alloc: Global, old: &[Entry], now: &[Entry]) -> Result<Vec<Path>, OutOfMemory>
    requires old_in_order { AreInOrder old.now }
    requires now_in_order { AreInOrder now.now }
    ensures changed { IfOk result (λ found. AreChanged old.now now.now found.items) }
    ensures covers { IfOk result (λ found. (before d : Directory) (tops : List (List ℕ)) → AreScanned before tops old.now → AreScanned d tops now.now → IsSeparate before d → DiffersBelow tops before d → Covers before d found.items) }
{
    let found = merge(alloc, old, now)?;
    Ok(found)
}

// One pass over both.
fn merge(alloc: Global, old: &[Entry], now: &[Entry]) -> Result<Vec<Path>, OutOfMemory>
    ensures { IfOk result (λ found. found.items ≡ merged old.now now.now) }
{
    let mut found = Vec::new(alloc);
    let mut rest = now;
    for entry in old {
        let from = pass(&mut found, entry, rest)?;
        rest = meet(&mut found, entry, from)?;
    }
    put_all(&mut found, rest)?;
    Ok(found)
}

// Notes the entries that stand before this one; answers the others.
fn pass<'a>(
    found: &mut Vec<Path>,
    entry: &Entry,
    now: &'a [Entry],
) -> Result<&'a [Entry], OutOfMemory>
    ensures passed { OnOk result (found.new.items ≡ found.old.items ++ ahead entry.now now.now) }
    ensures rest { IfOk result (λ rest. rest.now ≡ others entry.now now.now) }
{
    let mut rest = now;
    while let [first, after @ ..] = rest {
        if !comes_first(first, entry) {
            return Ok(rest);
        }
        found.push(first.path.copy()?)?;
        rest = after;
    }
    Ok(rest)
}

// Whether an entry stands before another.
fn comes_first(a: &Entry, b: &Entry) -> bool
    ensures { result ≡ specs_comes_first a.now b.now }
{
    a.path < b.path
}

// Notes this entry where the first of these isn't alike; answers those after its path.
fn meet<'a>(
    found: &mut Vec<Path>,
    entry: &Entry,
    now: &'a [Entry],
) -> Result<&'a [Entry], OutOfMemory>
    ensures noted { OnOk result (found.new.items ≡ found.old.items ++ met entry.now now.now) }
    ensures rest { IfOk result (λ rest. rest.now ≡ past entry.now now.now) }
{
    match now {
        [first, after @ ..] if entry.path == first.path => {
            if !same(entry, first) {
                found.push(entry.path.copy()?)?;
            }
            Ok(after)
        }
        _ => {
            found.push(entry.path.copy()?)?;
            Ok(now)
        }
    }
}

// Whether two entries of one path are alike.
fn same(old: &Entry, now: &Entry) -> bool
    ensures { result ≡ same_entry old.now now.now }
{
    old.mark == now.mark && old.hash == now.hash
}

fn put_all(found: &mut Vec<Path>, entries: &[Entry]) -> Result<(), OutOfMemory>
    ensures { OnOk result (found.new.items ≡ found.old.items ++ paths_in entries.now) }
{
    for entry in entries {
        found.push(entry.path.copy()?)?;
    }
    Ok(())
}
