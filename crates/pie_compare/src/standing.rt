//! Whether the record of a task stands.
ghost use Rattle.std.specs.Prelude.{◌≡◌, ◌↔◌, length, All, is_some, IfOk, IsTrue};
ghost use Rattle.pie_tables.specs.Tabled.{IsTables, IsKept};
ghost use Rattle.pie_compare.specs.inner.Standing.{output_of, WriteStands, Stands, RecordStands};

use crate::present::Present;
use pie_base::{OutOfMemory, Path};
use pie_graph::{TaskNo, TaskRows};
use pie_named::Named;
use pie_record::{DepKind, Outcome, TaskRecord};
use pie_tables::Tables;
use pie_value::Stamp;
use std::alloc::Global;

/// Whether the record of a task stands: what it observed has the stamps that were recorded, and what it wrote is there.
/// Nothing is asked of the files: what was asked by `is_touched` is known.
pub fn stands<R: TaskRows>(
    alloc: Global,
    tables: &Tables,
    rows: &R,
    named: &Named,
    no: TaskNo,
) -> Result<bool, OutOfMemory>
    requires tables { IsTables tables.now }
    requires rows { length tables.now.names ≡ length (R.rows rows.now) }
    ensures { IfOk result (λ stands. IsTrue stands ↔ RecordStands tables.now (R.rows rows.now) named.now no.0) }
{
    match tables.records.get(no) {
        Some(rec) => {
            let stands = record_stands(alloc, tables, rows, named, no, rec)?;
            Ok(stands)
        }
        None => Ok(false),
    }
}

fn record_stands<R: TaskRows>(
    alloc: Global,
    tables: &Tables,
    rows: &R,
    named: &Named,
    no: TaskNo,
    rec: &TaskRecord,
) -> Result<bool, OutOfMemory>
    requires tables { IsTables tables.now }
    requires rows { length tables.now.names ≡ length (R.rows rows.now) }
    requires kept { IsKept rec.now }
    ensures { IfOk result (λ stands. IsTrue stands ↔ Stands tables.now (R.rows rows.now) named.now rec.now) }
{
    if !is_done(&rec.outcome) {
        return Ok(false);
    }
    let present = Present {
        alloc,
        tables,
        rows,
        named,
        no,
        own: rec.writes.as_slice(),
    };
    if !present.deps_stand(rec.deps.as_slice())? {
        return Ok(false);
    }
    Ok(writes_stand(named, rec.writes.as_slice()))
}

// Whether a task gave an output.
fn is_done(outcome: &Outcome) -> bool
    ensures { result ≡ is_some (output_of outcome.now) }
{
    match outcome {
        Outcome::Done(_) => true,
        Outcome::Failed(_) | Outcome::Cycled(_) => false,
    }
}

// Whether nothing else is known to be at any of these paths than what was written.
fn writes_stand(named: &Named, writes: &[(Path, [u8; 32])]) -> bool
    ensures { IsTrue result ↔ All (WriteStands named.now) writes.now }
{
    for (path, hash) in writes {
        if !write_stands(named, path, *hash) {
            return false;
        }
    }
    true
}

// Whether nothing else is known to be at a path than what was written.
fn write_stands(named: &Named, path: &Path, hash: [u8; 32]) -> bool
    ensures { IsTrue result ↔ WriteStands named.now (path.now, hash) }
{
    !named.is_known_to_differ(DepKind::ReadHash, path, &Stamp::Hash(hash))
}
