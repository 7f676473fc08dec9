//! Reading a record. Rule: docs/FORMATS.md, "Records". Bytes are read once from the left, so the first fault
//! met is the one at the least place.
ghost use Rattle.std.specs.Prelude.{ℕ, take, IfOk};
ghost use Rattle.pie_record.specs.declared.task_record.TaskRecord.{TaskRecord};
ghost use Rattle.pie_record.specs.Canonical.{IsCanonicalRecord};
ghost use Rattle.pie_record.specs.inner.Agreement.{RowAgreesOnPrefix, Refuses};
ghost use Rattle.pie_record.specs.Reading.{record_at};

use crate::reader::Reader;
use crate::{Expected, RecordFault, TaskNames, TaskRecord};
use pie_graph::TaskNo;
use std::alloc::Global;

/// The record whose canonical bytes stand in front, and how many these are. Bytes after them are no fault.
/// A number of observations or writes takes memory for 16 of them at most before they are read, so a forged one can't ask for much.
pub fn decode_record(alloc: Global, bytes: &[u8]) -> Result<(TaskRecord, usize), RecordFault>
    ensures answer { RowAgreesOnPrefix (λ r. r) result bytes.now (record_at bytes.now) }
    ensures canonical { IfOk result (λ found. IsCanonicalRecord found.0 (take found.1 bytes.now)) }
    ensures refused { Refuses result → (r : TaskRecord) (n : ℕ) → ¬ (IsCanonicalRecord r (take n bytes.now)) }
{
    let none = TaskNames::new(alloc);
    decode_among(alloc, bytes, &mut Expected::new(&none, TaskNo(0)))
}

// The same, with tasks that are known.
pub(crate) fn decode_among(
    alloc: Global,
    bytes: &[u8],
    known: &mut Expected<'_>,
) -> Result<(TaskRecord, usize), RecordFault>
    ensures answer { RowAgreesOnPrefix (λ r. r) result bytes.now (record_at bytes.now) }
    ensures canonical { IfOk result (λ found. IsCanonicalRecord found.0 (take found.1 bytes.now)) }
    ensures refused { Refuses result → (r : TaskRecord) (n : ℕ) → ¬ (IsCanonicalRecord r (take n bytes.now)) }
{
    front(alloc, bytes, known)
}

fn front(
    alloc: Global,
    bytes: &[u8],
    known: &mut Expected<'_>,
) -> Result<(TaskRecord, usize), RecordFault>
    ensures { RowAgreesOnPrefix (λ r. r) result bytes.now (record_at bytes.now) }
{
    let mut reader = Reader::new(bytes);
    let rec = reader.parts(alloc, known)?;
    let len = bytes.len().saturating_sub(reader.left());
    Ok((rec, len))
}
