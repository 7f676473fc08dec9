//! Tasks in task order.
ghost use Rattle.std.specs.Prelude.{◌≡◌, All, IfOk, OnOk, map};
ghost use Rattle.pie_value.specs.Canonical.{IsEncodableTask};
ghost use Rattle.pie_report.specs.Order.{InTaskOrder};
ghost use Rattle.pie_report.specs.inner.Keys.{key_of, plain_key, InKeyOrder};

use pie_base::OutOfMemory;
use pie_value::{Task, encode_task};
use std::alloc::Global;

/// The tasks in task order, each as often as it stands there.
pub(crate) fn in_task_order(alloc: Global, tasks: &[Task]) -> Result<Vec<Task>, OutOfMemory>
    requires { All IsEncodableTask tasks.now }
    ensures { IfOk result (λ sorted. InTaskOrder tasks.now sorted.items) }
{
    let mut keyed = with_keys(alloc, tasks)?;
    sort_by_key(&mut keyed)?;
    without_keys(alloc, keyed.as_slice())
}

// Each task with its canonical bytes.
fn with_keys(alloc: Global, tasks: &[Task]) -> Result<Vec<(Vec<u8>, Task)>, OutOfMemory>
    requires { All IsEncodableTask tasks.now }
    ensures { IfOk result (λ keyed. map plain_key keyed.items ≡ map key_of tasks.now) }
{
    let mut keyed = Vec::with_capacity(alloc, tasks.len())?;
    for task in tasks {
        let bytes = encode_task(alloc, task)?;
        keyed.push((bytes, task.copy()?))?;
    }
    Ok(keyed)
}

fn sort_by_key(keyed: &mut Vec<(Vec<u8>, Task)>) -> Result<(), OutOfMemory>
    ensures { OnOk result (InKeyOrder keyed.old.items keyed.new.items) }
{
    keyed.sort_by(|a, b| a.0.cmp(&b.0))?;
    Ok(())
}

fn without_keys(alloc: Global, keyed: &[(Vec<u8>, Task)]) -> Result<Vec<Task>, OutOfMemory>
    ensures { IfOk result (λ tasks. tasks.items ≡ map (λ k. k.1) keyed.now) }
{
    let mut tasks = Vec::with_capacity(alloc, keyed.len())?;
    for (_, task) in keyed {
        tasks.push(task.copy()?)?;
    }
    Ok(tasks)
}
