//! The tasks that the roots reach.
ghost use Rattle.std.specs.Prelude.{length, IfOk};
ghost use Rattle.pie_graph.specs.Numbers.{numbers, AllBelow, Exactly};
ghost use Rattle.pie_reach.specs.inner.Reaches.{ReachedFrom};

use crate::{Down, closure};
use pie_base::OutOfMemory;
use pie_graph::{TaskNo, TaskRows, marked};
use std::alloc::Global;

/// All tasks that some root reaches, the roots among them, ascending.
pub fn live<R: TaskRows>(
    alloc: Global,
    rows: &R,
    roots: &[TaskNo],
) -> Result<Vec<TaskNo>, OutOfMemory>
    requires { AllBelow (length (R.rows rows.now)) (numbers roots.now) }
    ensures { IfOk result (λ found. Exactly (ReachedFrom (R.rows rows.now) (numbers roots.now)) (numbers found.items)) }
{
    let _count = rows.count();
    let marks = closure(alloc, &Down(rows), roots)?;
    let found = marked(alloc, &marks)?;
    Ok(found)
}
