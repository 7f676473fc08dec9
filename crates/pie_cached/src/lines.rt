//! The text of a build with the record cache.
ghost use Rattle.std.specs.Prelude.{◌≡◌, ◌++◌, ◌∷◌, [], codes, map, All, IfOk, OnOk, string_bytes};
ghost use Rattle.pie_report.specs.Order.{InTaskOrder};
ghost use Rattle.pie_report.specs.inner.Keys.{key_of, plain_key, InKeyOrder};
ghost use Rattle.pie_value.specs.Canonical.{IsEncodableTask};
ghost use Rattle.pie_cached.specs.Lines.{IsCachedText, IsReusedText, reused_lines};

use pie_base::OutOfMemory;
use pie_report::{Report, print};
use pie_value::{Task, encode_task, show_task};
use std::alloc::Global;

/// What is printed of a build with the record cache: its report, and then a line for each of these tasks, in task order: `reused` and the task.
/// Rule: docs/BUILDING.md, "What is printed".
pub fn print_cached(alloc: Global, report: &Report, reused: &[Task]) -> Result<String, OutOfMemory>
    requires ran { All IsEncodableTask report.now.ran.items }
    requires reused { All IsEncodableTask reused.now }
    ensures { IfOk result (λ text. IsCachedText report.now reused.now (string_bytes text)) }
{
    let mut text = print(alloc, report)?;
    let lines = print_reused(alloc, reused)?;
    text.push_str(lines.as_str())?;
    Ok(text)
}

// A line for each of these tasks, in task order.
fn print_reused(alloc: Global, tasks: &[Task]) -> Result<String, OutOfMemory>
    requires { All IsEncodableTask tasks.now }
    ensures { IfOk result (λ text. IsReusedText tasks.now (string_bytes text)) }
{
    let mut keyed = with_keys(alloc, tasks)?;
    sort_by_key(&mut keyed)?;
    let sorted = without_keys(alloc, keyed.as_slice())?;
    let mut text = String::new(alloc);
    put_lines(alloc, &mut text, sorted.as_slice())?;
    Ok(text)
}

// Each task with its canonical bytes, by which tasks are ordered.
fn with_keys(alloc: Global, tasks: &[Task]) -> Result<Vec<(Vec<u8>, Task)>, OutOfMemory>
    requires { All IsEncodableTask tasks.now }
    ensures { IfOk result (λ keyed. map plain_key keyed.items ≡ map key_of tasks.now) }
{
    let mut keyed = Vec::new(alloc);
    for task in tasks {
        let bytes = encode_task(alloc, task)?;
        keyed.push((bytes, task.copy()?))?;
    }
    Ok(keyed)
}

fn sort_by_key(keyed: &mut Vec<(Vec<u8>, Task)>) -> Result<(), OutOfMemory>
    ensures { OnOk result (InKeyOrder keyed.old.items keyed.new.items) }
{
    keyed.sort_by(|a, b| a.0.cmp(&b.0))?;
    Ok(())
}

fn without_keys(alloc: Global, keyed: &[(Vec<u8>, Task)]) -> Result<Vec<Task>, OutOfMemory>
    ensures { IfOk result (λ tasks. tasks.items ≡ map (λ k. k.1) keyed.now) }
{
    let mut tasks = Vec::new(alloc);
    for (_, task) in keyed {
        tasks.push(task.copy()?)?;
    }
    Ok(tasks)
}

// Adds a line for each of these tasks.
fn put_lines(alloc: Global, text: &mut String, tasks: &[Task]) -> Result<(), OutOfMemory>
    ensures { OnOk result (string_bytes text.new ≡ string_bytes text.old ++ reused_lines tasks.now) }
{
    for task in tasks {
        put_line(alloc, text, task)?;
    }
    Ok(())
}

fn put_line(alloc: Global, text: &mut String, task: &Task) -> Result<(), OutOfMemory>
    ensures { OnOk result (string_bytes text.new ≡ string_bytes text.old ++ reused_lines (task.now ∷ [])) }
{
    let shown = show_task(alloc, task)?;
    text.push_str("reused ")?;
    text.push_str(shown.as_str())?;
    text.push_str("\n")?;
    Ok(())
}
