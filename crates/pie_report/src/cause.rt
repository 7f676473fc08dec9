//! The cause to start afresh as text. Each function appends to what is there.
ghost use Rattle.std.specs.Prelude.{◌≡◌, ◌++◌, codes, OnOk, string_bytes};
ghost use Rattle.std.specs.Fmt.{decimal};
ghost use Rattle.pie_report.specs.Causes.{fault_text, cause_text};
ghost use Rattle.pie_report.specs.Verdicts.{cycle};

use crate::verdict::{put, put_cycle, put_task};
use pie_base::OutOfMemory;
use pie_store::{Cause, StoreFault};
use pie_value::Task;
use std::alloc::Global;

/// Why the build started afresh.
pub(crate) fn put_cause(alloc: Global, out: &mut String, cause: &Cause) -> Result<(), OutOfMemory>
    ensures { OnOk result (string_bytes out.new ≡ string_bytes out.old ++ cause_text cause.now) }
{
    match cause {
        Cause::Interrupted => put(out, "Interrupted"),
        Cause::NoStore => put(out, "NoStore"),
        Cause::Damaged(fault) => {
            put(out, "Damaged ")?;
            put_fault(alloc, out, *fault)
        }
        Cause::BadPending => put(out, "BadPending"),
        Cause::UnionCycle(tasks) => put_union_cycle(alloc, out, tasks.as_slice()),
        Cause::UnionMany(_, _, task) => {
            put(out, "UnionMany ")?;
            put_task(alloc, out, task)
        }
    }
}

fn put_union_cycle(alloc: Global, out: &mut String, tasks: &[Task]) -> Result<(), OutOfMemory>
    ensures { OnOk result (string_bytes out.new ≡ string_bytes out.old ++ (codes "UnionCycle " ++ cycle tasks.now)) }
{
    put(out, "UnionCycle ")?;
    put_cycle(alloc, out, tasks)
}

fn put_fault(alloc: Global, out: &mut String, fault: StoreFault) -> Result<(), OutOfMemory>
    ensures { OnOk result (string_bytes out.new ≡ string_bytes out.old ++ fault_text fault) }
{
    match fault {
        StoreFault::Short => put(out, "Short"),
        StoreFault::Magic => put(out, "Magic"),
        StoreFault::Version => put(out, "Version"),
        StoreFault::Digest => put(out, "Digest"),
        StoreFault::Row(at) => {
            put(out, "Row at ")?;
            put_number(alloc, out, at)
        }
        StoreFault::Order(at) => {
            put(out, "Order at ")?;
            put_number(alloc, out, at)
        }
        StoreFault::Rest => put(out, "Rest"),
        StoreFault::OutOfMemory => put(out, "OutOfMemory"),
    }
}

/// The number in decimal digits.
pub(crate) fn put_number(alloc: Global, out: &mut String, number: usize) -> Result<(), OutOfMemory>
    ensures { OnOk result (string_bytes out.new ≡ string_bytes out.old ++ decimal number) }
{
    let digits = format!(in alloc; "{number}")?;
    put(out, digits.as_str())
}
