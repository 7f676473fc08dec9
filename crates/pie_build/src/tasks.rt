//! Lists of tasks.
ghost use Rattle.std.specs.Prelude.{◌≡◌, IfOk};

use pie_base::OutOfMemory;
use pie_value::Task;
use std::alloc::Global;

/// Equal tasks, in a list of their own.
pub fn copies(alloc: Global, tasks: &[Task]) -> Result<Vec<Task>, OutOfMemory>
    ensures { IfOk result (λ copied. copied.items ≡ tasks.now) }
{
    let mut copied = Vec::new(alloc);
    for task in tasks {
        copied.push(task.copy()?)?;
    }
    Ok(copied)
}
