//! The roots of a project, line after line.
ghost use Rattle.std.specs.Prelude.{◌≡◌, ◌≤◌, length};
ghost use Rattle.pie_types.specs.Whole.{number_from};
ghost use Rattle.pie_roots.specs.Lines.{texts};
ghost use Rattle.pie_roots.specs.RootLists.{Reads, ReadsOnly, ReadsText, Takes, Adds};

use crate::lines::Lines;
use crate::roots_fault::RootsFault;
use crate::{Root, read_root};
use pie_base::MAX_PIPELINE_BYTES;
use pie_types::Typed;
use pie_value::Task;
use std::alloc::Global;

/// The roots that the bytes of `pie.roots` name, in their order and with their repeats: one a line,
/// blank lines left out, each a task of the pipeline.
/// Rule: docs/LANGUAGE.md, "Roots".
pub fn read_roots(alloc: Global, typed: &Typed, bytes: &[u8]) -> Result<Vec<Task>, RootsFault>
    ensures roots { Reads (number_from 0 typed.now) (λ tasks. tasks.items) result bytes.now }
    ensures only { ReadsOnly (number_from 0 typed.now) (λ tasks. tasks.items) result bytes.now }
{
    roots_of(alloc, typed, bytes)
}

// The roots that bytes name.
fn roots_of(alloc: Global, typed: &Typed, bytes: &[u8]) -> Result<Vec<Task>, RootsFault>
    ensures { Reads (number_from 0 typed.now) (λ tasks. tasks.items) result bytes.now }
{
    if bytes.len() > MAX_PIPELINE_BYTES {
        return Err(RootsFault::TooLong);
    }
    match str::from_utf8(bytes) {
        Ok(text) => roots_in(alloc, typed, text),
        Err(_) => Err(RootsFault::NotText),
    }
}

// The roots that a text names.
fn roots_in(alloc: Global, typed: &Typed, text: &str) -> Result<Vec<Task>, RootsFault>
    requires { length text.now ≤ 1048576 }
    ensures { ReadsText (number_from 0 typed.now) (λ tasks. tasks.items) result (texts text.now) }
{
    let mut lines = Lines::new(text);
    let mut roots = Vec::new(alloc);
    let mut line = 1;
    while let Some(text) = lines.next_line() {
        take(alloc, typed, &mut roots, text, line)?;
        line += 1;
    }
    Ok(roots)
}

// Takes the root of a line, if it names one.
fn take(
    alloc: Global,
    typed: &Typed,
    roots: &mut Vec<Task>,
    text: &str,
    line: u32,
) -> Result<(), RootsFault>
    ensures { Takes (number_from 0 typed.now) result roots.old.items roots.new.items text.now line }
{
    match read_root(alloc, text)? {
        Root::Nothing => Ok(()),
        Root::Task(task) => add(typed, roots, task, line),
        Root::Bad => Err(RootsFault::BadRoot(line)),
    }
}

// Appends a task of the pipeline.
fn add(typed: &Typed, roots: &mut Vec<Task>, task: Task, line: u32) -> Result<(), RootsFault>
    ensures { Adds (number_from 0 typed.now) result roots.old.items roots.new.items task line }
{
    if typed.find(&task).is_none() {
        return Err(RootsFault::BadRoot(line));
    }
    roots.push(task)?;
    Ok(())
}
