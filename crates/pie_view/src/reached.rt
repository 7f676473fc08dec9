//! Whether a task is reached from the tasks that were required.
ghost use Rattle.std.specs.Prelude.{◌<◌, length, IfOk, IsTrue, ◌↔◌};
ghost use Rattle.std.specs.List.{Contains};
ghost use Rattle.pie_graph.specs.Numbers.{numbers, AllBelow};
ghost use Rattle.pie_reach.specs.inner.Reaches.{ReachedFrom};

use pie_base::OutOfMemory;
use pie_graph::{TaskNo, TaskRows};
use pie_reach::{Down, Walk};
use std::alloc::Global;

/// Whether one of these tasks reaches another. There is no walk where it is one of them, and else it stops where the other is met.
pub(crate) fn reached<R: TaskRows>(
    alloc: Global,
    rows: &R,
    required: &[TaskNo],
    to: TaskNo,
) -> Result<bool, OutOfMemory>
    requires required { AllBelow (length (R.rows rows.now)) (numbers required.now) }
    requires to { to.0 < length (R.rows rows.now) }
    ensures { IfOk result (λ there. IsTrue there ↔ ReachedFrom (R.rows rows.now) (numbers required.now) to.0) }
{
    if is_direct(required, to) {
        return Ok(true);
    }
    let mut walk = Walk::start(alloc, &Down(rows), required)?;
    while !walk.met(to) {
        if !walk.step(alloc, &Down(rows))? {
            return Ok(walk.met(to));
        }
    }
    Ok(true)
}

// Whether it is one of these tasks; those that were required last come first.
fn is_direct(required: &[TaskNo], to: TaskNo) -> bool
    ensures { IsTrue result → Contains (numbers required.now) to.0 }
{
    let mut left = required.len();
    while left > 0 {
        left -= 1;
        if required[left] == to {
            return true;
        }
    }
    false
}
