//! Cycles of tasks, the least task first.
ghost use Rattle.std.specs.Prelude.{◌≡◌, ◌<◌, ◌≤◌, ◌++◌, length, All, IfOk, OnOk};
ghost use Rattle.pie_value.specs.Canonical.{IsEncodableTask};
ghost use Rattle.pie_bottomup.specs.inner.Causes.{IsTurned};

use pie_base::OutOfMemory;
use pie_value::{Task, encode_task};
use std::alloc::Global;

/// A cycle of tasks that begins with the least of them, by canonical bytes.
pub(crate) fn turned(alloc: Global, tasks: Vec<Task>) -> Result<Vec<Task>, OutOfMemory>
    requires { All IsEncodableTask tasks.items }
    ensures { IfOk result (λ turned. IsTurned tasks.items turned.items) }
{
    let at = least(alloc, tasks.as_slice())?;
    let mut turned = Vec::new(alloc);
    push_all(&mut turned, &tasks.as_slice()[at..])?;
    push_all(&mut turned, &tasks.as_slice()[..at])?;
    Ok(turned)
}

fn push_all(turned: &mut Vec<Task>, tasks: &[Task]) -> Result<(), OutOfMemory>
    ensures { OnOk result (turned.new.items ≡ turned.old.items ++ tasks.now) }
{
    for task in tasks {
        turned.push(task.copy()?)?;
    }
    Ok(())
}

// Where the least of some tasks stands, 0 where there is none.
fn least(alloc: Global, tasks: &[Task]) -> Result<usize, OutOfMemory>
    requires { All IsEncodableTask tasks.now }
    ensures { IfOk result (λ at. at ≤ length tasks.now) }
{
    if tasks.is_empty() {
        return Ok(0);
    }
    let mut at = 0;
    for i in 1..tasks.len() {
        at = lesser(alloc, tasks, at, i)?;
    }
    Ok(at)
}

fn lesser(alloc: Global, tasks: &[Task], at: usize, other: usize) -> Result<usize, OutOfMemory>
    requires tasks { All IsEncodableTask tasks.now }
    requires at { at < length tasks.now }
    requires other { other < length tasks.now }
    ensures { IfOk result (λ least. least < length tasks.now) }
{
    let one = encode_task(alloc, &tasks[at])?;
    let two = encode_task(alloc, &tasks[other])?;
    if two.as_slice() < one.as_slice() {
        return Ok(other);
    }
    Ok(at)
}
