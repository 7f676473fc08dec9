//! The lines of a report. Each function appends to what is there.
ghost use Rattle.std.specs.Prelude.{◌≡◌, ◌++◌, [], ◌∷◌, codes, OnOk, string_bytes};
ghost use Rattle.pie_report.specs.Texts.{lines, run_lines, fresh_line, output_text, output_lines};

use crate::cause::put_cause;
use crate::verdict::{put, put_task};
use pie_base::{OutOfMemory, Path};
use pie_store::Cause;
use pie_value::{Task, Value, show};
use std::alloc::Global;

/// The line of a build that started afresh.
pub(crate) fn put_fresh(
    alloc: Global,
    out: &mut String,
    fresh: &Option<Cause>,
) -> Result<(), OutOfMemory>
    ensures { OnOk result (string_bytes out.new ≡ string_bytes out.old ++ fresh_line fresh.now) }
{
    match fresh {
        None => Ok(()),
        Some(cause) => {
            put(out, "fresh ")?;
            put_cause(alloc, out, cause)?;
            put(out, "\n")
        }
    }
}

/// A line for each task that was run.
pub(crate) fn put_runs(alloc: Global, out: &mut String, tasks: &[Task]) -> Result<(), OutOfMemory>
    ensures { OnOk result (string_bytes out.new ≡ string_bytes out.old ++ run_lines tasks.now) }
{
    for task in tasks {
        put_run(alloc, out, task)?;
    }
    Ok(())
}

fn put_run(alloc: Global, out: &mut String, task: &Task) -> Result<(), OutOfMemory>
    ensures { OnOk result (string_bytes out.new ≡ string_bytes out.old ++ run_lines (task.now ∷ [])) }
{
    put(out, "ran ")?;
    put_task(alloc, out, task)?;
    put(out, "\n")
}

/// A line for each path, which begins with this word and a space.
pub(crate) fn put_paths(out: &mut String, word: &str, paths: &[Path]) -> Result<(), OutOfMemory>
    ensures { OnOk result (string_bytes out.new ≡ string_bytes out.old ++ lines word.now paths.now) }
{
    for path in paths {
        put_line(out, word, path.as_str())?;
    }
    Ok(())
}

fn put_line(out: &mut String, word: &str, text: &str) -> Result<(), OutOfMemory>
    ensures { OnOk result (string_bytes out.new ≡ string_bytes out.old ++ lines word.now (text.now ∷ [])) }
{
    put(out, word)?;
    put(out, text)?;
    put(out, "\n")
}

/// A line for each root.
pub(crate) fn put_outputs(
    alloc: Global,
    out: &mut String,
    outputs: &[(Task, Value)],
) -> Result<(), OutOfMemory>
    ensures { OnOk result (string_bytes out.new ≡ string_bytes out.old ++ output_lines outputs.now) }
{
    for output in outputs {
        put_output(alloc, out, output)?;
    }
    Ok(())
}

fn put_output(alloc: Global, out: &mut String, output: &(Task, Value)) -> Result<(), OutOfMemory>
    ensures { OnOk result (string_bytes out.new ≡ string_bytes out.old ++ output_lines (output.now ∷ [])) }
{
    put(out, "output ")?;
    put_output_text(alloc, out, output)?;
    put(out, "\n")
}

fn put_output_text(
    alloc: Global,
    out: &mut String,
    output: &(Task, Value),
) -> Result<(), OutOfMemory>
    ensures { OnOk result (string_bytes out.new ≡ string_bytes out.old ++ output_text output.now) }
{
    let (task, value) = output;
    let shown = show(alloc, value)?;
    put_task(alloc, out, task)?;
    put(out, " = ")?;
    put(out, shown.as_str())
}
