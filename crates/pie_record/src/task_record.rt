//! What is kept of a task.
ghost use Rattle.std.specs.Prelude.{◌≡◌, IfOk};

use crate::{Deps, Writes};
use pie_base::OutOfMemory;
use pie_value::{Fault, Task, Tasks, Value};
use std::alloc::Global;

/// How a task ended.
#[derive(Drop)]
pub enum Outcome {
    /// With an output.
    Done(Value),
    /// With a fault of its own or of a task that it required.
    Failed(Fault),
    /// It required itself; these are the tasks of the cycle.
    Cycled(Tasks),
}

impl Outcome {
    /// An equal outcome, which shares the contents.
    pub fn copy(&self, alloc: Global) -> Result<Outcome, OutOfMemory>
        ensures { IfOk result (λ copy. copy ≡ self.now) }
    {
        match self {
            Outcome::Done(value) => Ok(Outcome::Done(value.copy()?)),
            Outcome::Failed(fault) => Ok(Outcome::Failed(fault.copy()?)),
            Outcome::Cycled(tasks) => Ok(Outcome::Cycled(copied_tasks(alloc, tasks)?)),
        }
    }
}

fn copied_tasks(alloc: Global, tasks: &Tasks) -> Result<Tasks, OutOfMemory>
    ensures { IfOk result (λ copy. copy ≡ tasks.now) }
{
    let copied = copies(alloc, tasks.as_slice())?;
    Ok(Tasks::new(copied))
}

fn copies(alloc: Global, tasks: &[Task]) -> Result<Vec<Task>, OutOfMemory>
    ensures { IfOk result (λ copied. copied.items ≡ tasks.now) }
{
    let mut copied = Vec::with_capacity(alloc, tasks.len())?;
    for task in tasks {
        copied.push(task.copy()?)?;
    }
    Ok(copied)
}

/// What is kept of a task. Rule: docs/FORMATS.md, "Records".
#[derive(Drop)]
pub struct TaskRecord {
    pub task: Task,
    /// The observations in order.
    pub deps: Deps,
    /// The writes in order, each with the SHA-256 of what was written.
    pub writes: Writes,
    pub outcome: Outcome,
}

impl TaskRecord {
    /// An equal record, which shares the contents.
    pub fn copy(&self, alloc: Global) -> Result<TaskRecord, OutOfMemory>
        ensures { IfOk result (λ copy. copy ≡ self.now) }
    {
        let task = self.task.copy()?;
        let deps = self.deps.copy(alloc)?;
        let writes = self.writes.copy(alloc)?;
        let outcome = self.outcome.copy(alloc)?;
        Ok(TaskRecord {
            task,
            deps,
            writes,
            outcome,
        })
    }
}
