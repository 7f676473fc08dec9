//! Records by the numbers of their rows.
ghost use Rattle.std.specs.Prelude.{◌≡◌, ◌≤◌, ℕ, length, slice_get, IfOk};
ghost use Rattle.pie_record.specs.inner.Records.{record_of};

use pie_base::{MAX_TASKS, OutOfMemory};
use pie_graph::TaskNo;
use pie_record::{Records, TaskRecord};
use std::alloc::Global;

/// The records by their places. They are moved.
pub(crate) fn records_of(alloc: Global, rows: Vec<TaskRecord>) -> Result<Records, OutOfMemory>
    requires { length rows.items ≤ MAX_TASKS }
    ensures { IfOk result (λ records. (n : ℕ) → record_of records n ≡ slice_get rows.items n) }
{
    let mut records = Records::new(alloc);
    let mut no = 0;
    for rec in rows {
        records.put(TaskNo(no), rec)?;
        no += 1;
    }
    Ok(records)
}
