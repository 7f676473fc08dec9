//! Tasks: a function of the pipeline with its arguments.
ghost use Rattle.std.specs.Prelude.{◌≡◌, IfOk};

use crate::Items;
use pie_base::{OutOfMemory, Text};

/// A call of a function that the build remembers. Rule: docs/LANGUAGE.md, "Tasks".
#[derive(Drop)]
pub struct Task {
    /// The function's name.
    pub func: Text,
    /// The arguments in order.
    pub args: Items,
}

impl Task {
    /// An equal task, which shares the contents.
    pub fn copy(&self) -> Result<Task, OutOfMemory>
        ensures { IfOk result (λ copy. copy ≡ self.now) }
    {
        let func = self.func.copy()?;
        let args = self.args.copy()?;
        Ok(Task { func, args })
    }
}
