//! The tasks that were started.
ghost use Rattle.std.specs.Prelude.{◌≡◌, ◌∷◌, [], ◌++◌, length, OnOk, OnErr};

use pie_base::OutOfMemory;
use pie_value::Task;
use std::alloc::Global;
use std::marker::Model;

/// The tasks that were started, in order. Contracts see the list of them. Starting a machine alone adds to it.
#[derive(Drop)]
pub struct Runs {
    tasks: Vec<Task>,
}

impl Model for Runs {
    ghost use Rattle.std.specs.Prelude.{List};
    ghost use Rattle.pie_value.specs.declared.task.Task.{Task};
    ghost use Rattle.pie_value.specs.inner.TaskCodes.{coded_tasks};

    ghost Value = { List Task };

    ghost coded = { coded_tasks };

    ghost view = { λ r. r.tasks.items };
}

impl Runs {
    /// No tasks.
    pub fn new(alloc: Global) -> Runs
        ensures { result ≡ [] }
    {
        Runs {
            tasks: Vec::new(alloc),
        }
    }

    /// The tasks in the order in which they were started.
    pub fn tasks(&self) -> &[Task]
        ensures { result.now ≡ self.now }
    {
        self.tasks.as_slice()
    }

    /// How many tasks were started.
    pub fn count(&self) -> usize
        ensures { result ≡ length self.now }
    {
        self.tasks.len()
    }

    /// A task was started.
    pub(crate) fn add(&mut self, task: Task) -> Result<(), OutOfMemory>
        ensures added { OnOk result (self.new ≡ self.old ++ task ∷ []) }
        ensures unchanged { OnErr result (self.new ≡ self.old) }
    {
        self.tasks.push(task)?;
        Ok(())
    }
}
