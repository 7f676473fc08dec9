//! The text of a report.
ghost use Rattle.std.specs.Prelude.{◌≡◌, ◌++◌, [], codes, All, IfOk, OnOk, string_bytes};
ghost use Rattle.pie_value.specs.Canonical.{IsEncodableTask};
ghost use Rattle.pie_report.specs.Texts.{lines, run_lines, accepted_lines, lines_after_runs, text_with_runs, IsText};

use crate::Report;
use crate::cause::put_number;
use crate::lines::{put_fresh, put_outputs, put_paths, put_runs};
use crate::task_order::in_task_order;
use crate::verdict::{put, put_verdict};
use pie_base::OutOfMemory;
use pie_value::{Task, Verdict};
use std::alloc::Global;

/// The report as lines: the verdict; `fresh` and the cause; `ran` and a task, in task order; `wrote` and `removed`
/// with a path; where accepted `live` with a number, and `output` for each root.
/// Rule: docs/BUILDING.md, "What is printed".
pub fn print(alloc: Global, report: &Report) -> Result<String, OutOfMemory>
    requires { All IsEncodableTask report.now.ran.items }
    ensures { IfOk result (λ text. IsText report.now (string_bytes text)) }
{
    let runs = in_task_order(alloc, report.ran.as_slice())?;
    text_of(alloc, report, runs.as_slice())
}

// The text of a report whose runs stand in this order.
fn text_of(alloc: Global, report: &Report, runs: &[Task]) -> Result<String, OutOfMemory>
    ensures { IfOk result (λ text. string_bytes text ≡ text_with_runs report.now runs.now) }
{
    let mut out = String::new(alloc);
    put_verdict(alloc, &mut out, &report.verdict)?;
    put(&mut out, "\n")?;
    put_fresh(alloc, &mut out, &report.fresh)?;
    put_after_fresh(alloc, &mut out, report, runs)?;
    Ok(out)
}

fn put_after_fresh(
    alloc: Global,
    out: &mut String,
    report: &Report,
    runs: &[Task],
) -> Result<(), OutOfMemory>
    ensures { OnOk result (string_bytes out.new ≡ string_bytes out.old ++ (run_lines runs.now ++ lines_after_runs report.now)) }
{
    put_runs(alloc, out, runs)?;
    put_after_runs(alloc, out, report)
}

fn put_after_runs(alloc: Global, out: &mut String, report: &Report) -> Result<(), OutOfMemory>
    ensures { OnOk result (string_bytes out.new ≡ string_bytes out.old ++ lines_after_runs report.now) }
{
    put_paths(out, "wrote ", report.wrote.as_slice())?;
    put_paths(out, "removed ", report.removed.as_slice())?;
    put_accepted(alloc, out, report)
}

fn put_accepted(alloc: Global, out: &mut String, report: &Report) -> Result<(), OutOfMemory>
    ensures { OnOk result (string_bytes out.new ≡ string_bytes out.old
        ++ accepted_lines report.now.verdict report.now.live report.now.outputs.items) }
{
    match &report.verdict {
        Verdict::Accepted => {
            put(out, "live ")?;
            put_number(alloc, out, report.live as usize)?;
            put(out, "\n")?;
            put_outputs(alloc, out, report.outputs.as_slice())
        }
        Verdict::Refused(_) => Ok(()),
    }
}
