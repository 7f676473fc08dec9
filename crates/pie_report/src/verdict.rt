//! The verdict as text. Each function appends to what is there.
ghost use Rattle.std.specs.Prelude.{◌≡◌, ◌++◌, codes, OnOk, string_bytes};
ghost use Rattle.pie_value.specs.Shown.{quoted, shown_task};
ghost use Rattle.pie_report.specs.Verdicts.{kind_text, cycle, cycle_on, two_tasks, refusal_text, verdict_text};

use pie_base::{FaultKind, OutOfMemory, Path, Text};
use pie_value::{Refusal, Task, Value, Verdict, show, show_task};
use std::alloc::Global;

/// Whether the build is accepted, and else why not.
pub(crate) fn put_verdict(
    alloc: Global,
    out: &mut String,
    verdict: &Verdict,
) -> Result<(), OutOfMemory>
    ensures { OnOk result (string_bytes out.new ≡ string_bytes out.old ++ verdict_text verdict.now) }
{
    match verdict {
        Verdict::Accepted => put(out, "accepted"),
        Verdict::Refused(refusal) => {
            put(out, "refused ")?;
            put_refusal(alloc, out, refusal)
        }
    }
}

fn put_refusal(alloc: Global, out: &mut String, refusal: &Refusal) -> Result<(), OutOfMemory>
    ensures { OnOk result (string_bytes out.new ≡ string_bytes out.old ++ refusal_text refusal.now) }
{
    match refusal {
        Refusal::Fault(fault) => {
            put(out, "fault ")?;
            put_task(alloc, out, &fault.task)?;
            put(out, ": ")?;
            put_kind(alloc, out, &fault.kind)
        }
        Refusal::Cycle(tasks) => {
            put(out, "cycle ")?;
            put_cycle(alloc, out, tasks.as_slice())
        }
        Refusal::Many => put(out, "many"),
        Refusal::Overlap(path, first, second) => {
            put(out, "overlap ")?;
            put_path_and_tasks(alloc, out, path, first, second)
        }
        Refusal::Nested(path, below) => {
            put(out, "nested ")?;
            put(out, path.as_str())?;
            put(out, ", ")?;
            put(out, below.as_str())
        }
        Refusal::Hidden(path, reader, writer) => {
            put(out, "hidden ")?;
            put_path_and_tasks(alloc, out, path, reader, writer)
        }
    }
}

fn put_path_and_tasks(
    alloc: Global,
    out: &mut String,
    path: &Path,
    first: &Task,
    second: &Task,
) -> Result<(), OutOfMemory>
    ensures { OnOk result (string_bytes out.new ≡ string_bytes out.old ++ (path.now ++ (codes ": " ++ two_tasks first.now second.now))) }
{
    put(out, path.as_str())?;
    put(out, ": ")?;
    put_two_tasks(alloc, out, first, second)
}

fn put_two_tasks(
    alloc: Global,
    out: &mut String,
    first: &Task,
    second: &Task,
) -> Result<(), OutOfMemory>
    ensures { OnOk result (string_bytes out.new ≡ string_bytes out.old ++ two_tasks first.now second.now) }
{
    put_task(alloc, out, first)?;
    put(out, ", ")?;
    put_task(alloc, out, second)
}

/// The tasks with an arrow between them.
pub(crate) fn put_cycle(alloc: Global, out: &mut String, tasks: &[Task]) -> Result<(), OutOfMemory>
    ensures { OnOk result (string_bytes out.new ≡ string_bytes out.old ++ cycle tasks.now) }
{
    match tasks.split_first() {
        None => Ok(()),
        Some((first, rest)) => {
            put_task(alloc, out, first)?;
            put_cycle_on(alloc, out, rest)
        }
    }
}

fn put_cycle_on(alloc: Global, out: &mut String, tasks: &[Task]) -> Result<(), OutOfMemory>
    ensures { OnOk result (string_bytes out.new ≡ string_bytes out.old ++ cycle_on tasks.now) }
{
    for task in tasks {
        put(out, " -> ")?;
        put_task(alloc, out, task)?;
    }
    Ok(())
}

fn put_kind(alloc: Global, out: &mut String, kind: &FaultKind) -> Result<(), OutOfMemory>
    ensures { OnOk result (string_bytes out.new ≡ string_bytes out.old ++ kind_text kind.now) }
{
    match kind {
        FaultKind::NotText => put(out, "NotText"),
        FaultKind::BadPath => put(out, "BadPath"),
        FaultKind::BadWrite => put(out, "BadWrite"),
        FaultKind::WroteTwice => put(out, "WroteTwice"),
        FaultKind::ReadThenWrite => put(out, "ReadThenWrite"),
        FaultKind::Clash => put(out, "Clash"),
        FaultKind::Budget => put(out, "Budget"),
        FaultKind::Big => put(out, "Big"),
        FaultKind::Overflow => put(out, "Overflow"),
        FaultKind::Zero => put(out, "Zero"),
        FaultKind::Null => put(out, "Null"),
        FaultKind::Said(text) => {
            put(out, "Said ")?;
            put_quoted(alloc, out, text)
        }
        FaultKind::Range => put(out, "Range"),
        FaultKind::BadList => put(out, "BadList"),
        FaultKind::Unknown => put(out, "Unknown"),
    }
}

fn put_quoted(alloc: Global, out: &mut String, text: &Text) -> Result<(), OutOfMemory>
    ensures { OnOk result (string_bytes out.new ≡ string_bytes out.old ++ quoted text.now) }
{
    let value = Value::Text(text.copy()?);
    let shown = show(alloc, &value)?;
    put(out, shown.as_str())
}

/// The task as it is shown.
pub(crate) fn put_task(alloc: Global, out: &mut String, task: &Task) -> Result<(), OutOfMemory>
    ensures { OnOk result (string_bytes out.new ≡ string_bytes out.old ++ shown_task task.now) }
{
    let shown = show_task(alloc, task)?;
    put(out, shown.as_str())
}

/// This text.
pub(crate) fn put(out: &mut String, text: &str) -> Result<(), OutOfMemory>
    ensures { OnOk result (string_bytes out.new ≡ string_bytes out.old ++ text.now) }
{
    out.push_str(text)?;
    Ok(())
}
