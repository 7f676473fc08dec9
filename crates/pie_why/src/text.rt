//! Parts of what is told. Each function appends to what is there.

use pie_base::OutOfMemory;
use pie_store::{Cause, StoreFault};
use pie_value::{Task, show_task};
use std::alloc::Global;

pub(crate) fn put(out: &mut String, text: &str) -> Result<(), OutOfMemory> {
    out.push_str(text)?;
    Ok(())
}

/// A task as it is printed.
pub(crate) fn put_task(alloc: Global, out: &mut String, task: &Task) -> Result<(), OutOfMemory> {
    let shown = show_task(alloc, task)?;
    put(out, shown.as_str())
}

/// A cause to start afresh, as a report tells it. Rule: docs/BUILDING.md, "Starting afresh".
pub(crate) fn put_cause(alloc: Global, out: &mut String, cause: &Cause) -> Result<(), OutOfMemory> {
    match cause {
        Cause::Interrupted => put(out, "Interrupted"),
        Cause::NoStore => put(out, "NoStore"),
        Cause::Damaged(fault) => {
            put(out, "Damaged ")?;
            put_fault(alloc, out, *fault)
        }
        Cause::BadPending => put(out, "BadPending"),
        Cause::UnionCycle(tasks) => {
            put(out, "UnionCycle ")?;
            put_cycle(alloc, out, tasks.as_slice())
        }
        Cause::UnionMany(_, _, task) => {
            put(out, "UnionMany ")?;
            put_task(alloc, out, task)
        }
    }
}

fn put_cycle(alloc: Global, out: &mut String, tasks: &[Task]) -> Result<(), OutOfMemory> {
    let mut arrow = "";
    for task in tasks {
        put(out, arrow)?;
        put_task(alloc, out, task)?;
        arrow = " -> ";
    }
    Ok(())
}

fn put_fault(alloc: Global, out: &mut String, fault: StoreFault) -> Result<(), OutOfMemory> {
    match fault {
        StoreFault::Short => put(out, "Short"),
        StoreFault::Magic => put(out, "Magic"),
        StoreFault::Version => put(out, "Version"),
        StoreFault::Digest => put(out, "Digest"),
        StoreFault::Row(at) => put_place(alloc, out, "Row at ", at),
        StoreFault::Order(at) => put_place(alloc, out, "Order at ", at),
        StoreFault::Rest => put(out, "Rest"),
        StoreFault::OutOfMemory => put(out, "OutOfMemory"),
    }
}

fn put_place(alloc: Global, out: &mut String, name: &str, at: usize) -> Result<(), OutOfMemory> {
    let digits = format!(in alloc; "{at}")?;
    put(out, name)?;
    put(out, digits.as_str())
}
