//! The tasks of the last build.

use crate::text::put;
use pie_base::OutOfMemory;
use pie_record::TaskRecord;
use pie_value::{Task, show_task};
use std::alloc::Global;

/// The tasks of these records whose printed form begins with a prefix, a line each, in the order of the records: what requires nothing stands first.
/// Rule: docs/INSPECT.md.
pub fn tasks(alloc: Global, rows: &[TaskRecord], prefix: &str) -> Result<String, OutOfMemory> {
    let mut out = String::new(alloc);
    for rec in rows {
        put_task(alloc, &mut out, &rec.task, prefix)?;
    }
    Ok(out)
}

fn put_task(alloc: Global, out: &mut String, task: &Task, prefix: &str) -> Result<(), OutOfMemory> {
    let shown = show_task(alloc, task)?;
    if shown.as_bytes().starts_with(prefix.as_bytes()) {
        put(out, shown.as_str())?;
        put(out, "\n")?;
    }
    Ok(())
}
