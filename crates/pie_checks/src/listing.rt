//! Listings: paths with the numbers of tasks beside them, in path order.
ghost use Rattle.std.specs.Prelude.{◌≡◌, ◌++◌, ◌∷◌, [], if◌then◌else◌, map, IfOk, OnOk};
ghost use Rattle.std.specs.Ordering.{is_lt};
ghost use Rattle.pie_base.specs.Path.{same_text};
ghost use Rattle.pie_graph.specs.Numbers.{numbers};
ghost use Rattle.pie_record.specs.inner.Records.{record_of};
ghost use Rattle.pie_value.specs.Order.{byte_order};
ghost use Rattle.pie_checks.specs.Records.{WritesAt};
ghost use Rattle.pie_checks.specs.Listings.{IsListing, IsInOrder, all_writes, writes_in, numbers_beside};
ghost use Rattle.pie_checks.specs.Searches.{IsPlaceOf};

use pie_base::{OutOfMemory, Path};
use pie_graph::TaskNo;
use pie_record::Records;
use std::alloc::Global;
use std::cmp::Ordering;

/// What these tasks wrote: each path beside the number of its task, by path and then by number.
pub(crate) fn writes_of(
    alloc: Global,
    records: &Records,
    live: &[TaskNo],
) -> Result<Vec<(Path, u32)>, OutOfMemory>
    ensures { IfOk result (λ found. IsListing (WritesAt records.now (numbers live.now)) found.items) }
{
    let mut found = unsorted_writes(alloc, records, live)?;
    found.sort()?;
    Ok(found)
}

fn unsorted_writes(
    alloc: Global,
    records: &Records,
    live: &[TaskNo],
) -> Result<Vec<(Path, u32)>, OutOfMemory>
    ensures { IfOk result (λ found. found.items ≡ all_writes records.now (numbers live.now)) }
{
    let mut found = Vec::new(alloc);
    for no in live {
        add_writes(&mut found, records, *no)?;
    }
    Ok(found)
}

// Appends the writes of one task.
fn add_writes(
    found: &mut Vec<(Path, u32)>,
    records: &Records,
    no: TaskNo,
) -> Result<(), OutOfMemory>
    ensures { OnOk result (found.new.items ≡ found.old.items ++ writes_in (record_of records.now no.0) no.0) }
{
    match records.get(no) {
        Some(rec) => push_writes(found, rec.writes.as_slice(), no.0),
        None => Ok(()),
    }
}

fn push_writes(
    found: &mut Vec<(Path, u32)>,
    writes: &[(Path, [u8; 32])],
    no: u32,
) -> Result<(), OutOfMemory>
    ensures { OnOk result (found.new.items ≡ found.old.items ++ map (λ w. (w.0, no)) writes.now) }
{
    for (path, _) in writes {
        let copy = path.copy()?;
        found.push((copy, no))?;
    }
    Ok(())
}

/// The numbers beside a path.
pub(crate) fn numbers_at(
    alloc: Global,
    listing: &[(Path, u32)],
    path: &Path,
) -> Result<Vec<u32>, OutOfMemory>
    ensures { IfOk result (λ found. found.items ≡ numbers_beside listing.now path.now) }
{
    let mut found = Vec::new(alloc);
    for entry in listing {
        note(&mut found, entry, path)?;
    }
    Ok(found)
}

// Appends the number of an entry of this path.
fn note(found: &mut Vec<u32>, entry: &(Path, u32), path: &Path) -> Result<(), OutOfMemory>
    ensures { OnOk result (found.new.items ≡ (if same_text entry.now.0 path.now then found.old.items ++ entry.now.1 ∷ [] else found.old.items)) }
{
    if entry.0 == *path {
        found.push(entry.1)?;
    }
    Ok(())
}

/// How many entries have paths that come before these bytes.
pub(crate) fn place(listing: &[(Path, u32)], key: &[u8]) -> usize
    requires { IsInOrder listing.now }
    ensures { IsPlaceOf key.now listing.now result }
{
    listing.partition_point(|entry| comes_before(&entry.0, key))
}

fn comes_before(path: &Path, key: &[u8]) -> bool
    ensures { result ≡ is_lt (byte_order path.now key.now) }
{
    match path.as_str().as_bytes().cmp(key) {
        Ordering::Less => true,
        _ => false,
    }
}
