//! What a build would do, as lines.

use crate::reason::{Due, Reason, Why, Whys};
use crate::text::{put, put_cause, put_task};
use crate::words::{put_file, put_function, put_listed, put_wrote};
use pie_base::OutOfMemory;
use pie_value::Task;
use std::alloc::Global;

/// What a build would do, as lines: `fresh` and the cause, and that every task runs; or `runs` and each task that it takes up first, with its reasons below it, `may run` and
/// each that may follow, and `kept` with how many others there are. Rule: docs/INSPECT.md, "What a build would run".
pub fn lines(alloc: Global, why: &Why) -> Result<String, OutOfMemory> {
    let mut out = String::new(alloc);
    match why {
        Why::Afresh(cause) => {
            put(&mut out, "fresh ")?;
            put_cause(alloc, &mut out, cause)?;
            put(&mut out, "\nevery task runs\n")?;
        }
        Why::From(whys) => put_whys(alloc, &mut out, whys)?,
    }
    Ok(out)
}

fn put_whys(alloc: Global, out: &mut String, whys: &Whys) -> Result<(), OutOfMemory> {
    for due in whys.due.as_slice() {
        put_due(alloc, out, due)?;
    }
    put_may(alloc, out, whys.may.as_slice())?;
    put_kept(alloc, out, whys.kept)
}

fn put_due(alloc: Global, out: &mut String, due: &Due) -> Result<(), OutOfMemory> {
    put(out, "runs ")?;
    put_task(alloc, out, &due.task)?;
    put(out, "\n")?;
    let func = due.task.func.as_str();
    for reason in due.reasons.as_slice() {
        put_reason(alloc, out, func, reason)?;
    }
    Ok(())
}

fn put_may(alloc: Global, out: &mut String, may: &[Task]) -> Result<(), OutOfMemory> {
    for task in may {
        put(out, "may run ")?;
        put_task(alloc, out, task)?;
        put(out, "\n")?;
    }
    Ok(())
}

fn put_kept(alloc: Global, out: &mut String, kept: u32) -> Result<(), OutOfMemory> {
    let text = format!(in alloc; "kept {kept}\n")?;
    put(out, text.as_str())
}

fn put_reason(
    alloc: Global,
    out: &mut String,
    func: &str,
    reason: &Reason,
) -> Result<(), OutOfMemory> {
    match reason {
        Reason::Function(now) => put_function(out, func, Some(*now)),
        Reason::Observed(kind, path) => put_file(out, *kind, path, ", which changed\n"),
        Reason::Listed(dir, name, more) => put_listed(alloc, out, dir, name.as_ref(), *more),
        Reason::Wrote(path) => put_wrote(out, path, true),
    }
}
