//! What is said of a whole build.
ghost use Rattle.std.specs.Prelude.{◌≡◌, IfOk};

use crate::Task;
use pie_base::{FaultKind, OutOfMemory, Path};
use std::marker::Model;

/// A task that failed, and how.
#[derive(Drop)]
pub struct Fault {
    pub task: Task,
    pub kind: FaultKind,
}

impl Fault {
    /// An equal fault, which shares the contents.
    pub fn copy(&self) -> Result<Fault, OutOfMemory>
        ensures { IfOk result (λ copy. copy ≡ self.now) }
    {
        let task = self.task.copy()?;
        let kind = self.kind.copy()?;
        Ok(Fault { task, kind })
    }
}

/// Some tasks in order. Contracts see the list of them.
#[derive(Drop)]
pub struct Tasks {
    tasks: Vec<Task>,
}

impl Model for Tasks {
    ghost use Rattle.std.specs.Prelude.{List};
    ghost use Rattle.pie_value.specs.declared.task.Task.{Task};
    ghost use Rattle.pie_value.specs.inner.TaskCodes.{coded_tasks};

    ghost Value = { List Task };

    ghost coded = { coded_tasks };

    ghost view = { λ t. t.tasks.items };
}

impl Tasks {
    pub fn new(tasks: Vec<Task>) -> Tasks
        ensures { result ≡ tasks.items }
    {
        Tasks { tasks }
    }

    pub fn as_slice(&self) -> &[Task]
        ensures { result.now ≡ self.now }
    {
        self.tasks.as_slice()
    }

    pub fn into_vec(self) -> Vec<Task>
        ensures { result.items ≡ self }
    {
        let Tasks { tasks } = self;
        tasks
    }
}

/// Why a build is refused, in the order in which it is tested. Rule: docs/BUILDING.md, "Verdict".
#[derive(Drop)]
pub enum Refusal {
    /// The first fault of the first root that failed.
    Fault(Fault),
    /// Tasks that require one another in a cycle.
    Cycle(Tasks),
    /// More tasks than a build may enter.
    Many,
    /// A path that two live tasks wrote.
    Overlap(Path, Task, Task),
    /// Written paths of which the second lies below the first.
    Nested(Path, Path),
    /// A path, a live task that saw it, and the live task that wrote it without being required by the first.
    Hidden(Path, Task, Task),
}

/// Whether a build is accepted.
#[derive(Drop)]
pub enum Verdict {
    Accepted,
    Refused(Refusal),
}
