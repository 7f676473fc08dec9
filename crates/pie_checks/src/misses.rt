//! Paths under `out/` that tasks saw absent.
ghost use Rattle.std.specs.Prelude.{◌≡◌, ◌++◌, IfOk, OnOk, if◌then◌else◌, Some, None, option_map};
ghost use Rattle.pie_base.specs.Path.{is_out};
ghost use Rattle.pie_graph.specs.Numbers.{numbers};
ghost use Rattle.pie_record.specs.inner.Records.{record_of};
ghost use Rattle.pie_checks.specs.Records.{MissesAt, missing_in, looks_at_file as specs_looks_at_file};
ghost use Rattle.pie_checks.specs.Listings.{IsListing, all_misses, misses_in, missing_among, entry_of};

use pie_base::{OutOfMemory, Path};
use pie_graph::TaskNo;
use pie_record::{Dep, DepKind, DepOn, Records};
use pie_value::Stamp;
use std::alloc::Global;

/// What these tasks saw absent under `out/`: each path beside the number of the task, by path and then by number.
pub(crate) fn misses_of(
    alloc: Global,
    records: &Records,
    live: &[TaskNo],
) -> Result<Vec<(Path, u32)>, OutOfMemory>
    ensures { IfOk result (λ found. IsListing (MissesAt records.now (numbers live.now)) found.items) }
{
    let mut found = unsorted_misses(alloc, records, live)?;
    found.sort()?;
    Ok(found)
}

fn unsorted_misses(
    alloc: Global,
    records: &Records,
    live: &[TaskNo],
) -> Result<Vec<(Path, u32)>, OutOfMemory>
    ensures { IfOk result (λ found. found.items ≡ all_misses records.now (numbers live.now)) }
{
    let mut found = Vec::new(alloc);
    for no in live {
        add_misses(&mut found, records, *no)?;
    }
    Ok(found)
}

// Appends what one task saw absent.
fn add_misses(
    found: &mut Vec<(Path, u32)>,
    records: &Records,
    no: TaskNo,
) -> Result<(), OutOfMemory>
    ensures { OnOk result (found.new.items ≡ found.old.items ++ misses_in (record_of records.now no.0) no.0) }
{
    match records.get(no) {
        Some(rec) => push_misses(found, rec.deps.as_slice(), no.0),
        None => Ok(()),
    }
}

fn push_misses(found: &mut Vec<(Path, u32)>, deps: &[Dep], no: u32) -> Result<(), OutOfMemory>
    ensures { OnOk result (found.new.items ≡ found.old.items ++ missing_among deps.now no) }
{
    for dep in deps {
        push_miss(found, dep, no)?;
    }
    Ok(())
}

fn push_miss(found: &mut Vec<(Path, u32)>, dep: &Dep, no: u32) -> Result<(), OutOfMemory>
    ensures { OnOk result (found.new.items ≡ found.old.items ++ entry_of (missing_in dep.now) no) }
{
    match missing(dep) {
        Some(path) => {
            let copy = path.copy()?;
            found.push((copy, no))?;
            Ok(())
        }
        None => Ok(()),
    }
}

// The path under `out/` that an observation found absent.
fn missing(dep: &Dep) -> Option<&Path>
    ensures { option_map (λ path. path.now) result ≡ missing_in dep.now }
{
    if !looks_at_file(dep.kind) {
        return None;
    }
    match (&dep.what, &dep.stamp) {
        (DepOn::File(path), Stamp::Absent) => under_out(path),
        _ => None,
    }
}

fn under_out(path: &Path) -> Option<&Path>
    ensures { option_map (λ found. found.now) result ≡ (if is_out path.now then Some path.now else None) }
{
    if path.under_out() { Some(path) } else { None }
}

// Whether an observation of this kind is of one file.
fn looks_at_file(kind: DepKind) -> bool
    ensures { result ≡ specs_looks_at_file kind }
{
    match kind {
        DepKind::Exists => true,
        DepKind::ReadHash => true,
        DepKind::ReadMark => true,
        DepKind::Digest => true,
        _ => false,
    }
}
