//! Whether records may be stored together. Rule: docs/FORMATS.md, "The store".
ghost use Rattle.std.specs.Prelude.{◌≡◌, true, false, All, IfOk, Contains};
ghost use Rattle.pie_value.specs.declared.task.Task.{Task};
ghost use Rattle.pie_value.specs.Canonical.{IsEncodableTask};
ghost use Rattle.pie_record.specs.declared.task_record.TaskRecord.{TaskRecord};
ghost use Rattle.pie_record.specs.Canonical.{IsStorable};
ghost use Rattle.pie_store.specs.Canonical.{names_of as specs_names_of, tasks_in, AreInOrder};
ghost use Rattle.pie_storable.specs.inner.Together.{MayStandTogether};

use crate::known::names_of;
use crate::walk::{have_records, heights_of};
use pie_base::{OutOfMemory, Text};
use pie_record::TaskRecord;
use pie_value::Task;
use std::alloc::Global;

/// Whether these records may stand in a store with these functions and roots: each task has one record, which stands
/// after those of the tasks that it requires, in the order of heights and canonical bytes; its function stands in the
/// table; and each root has a record.
pub fn may_be_stored(
    alloc: Global,
    funcs: &[(Text, [u8; 32])],
    roots: &[Task],
    rows: &[TaskRecord],
) -> Result<bool, OutOfMemory>
    requires rows { All IsStorable rows.now }
    requires roots { All IsEncodableTask roots.now }
    ensures order { IfOk result (λ may. may ≡ true → AreInOrder rows.now) }
    ensures known { IfOk result (λ may. may ≡ true → All (λ (r : TaskRecord). Contains (specs_names_of funcs.now) r.task.func) rows.now) }
    ensures closed { IfOk result (λ may. may ≡ true → All (λ (t : Task). Contains (tasks_in rows.now) t) roots.now) }
    ensures refused { IfOk result (λ may. may ≡ false → ¬ (MayStandTogether funcs.now roots.now rows.now)) }
{
    let known = names_of(alloc, funcs)?;
    match heights_of(alloc, &known, rows)? {
        Some(heights) => have_records(&heights, roots),
        None => Ok(false),
    }
}
