//! Tasks that are entered.
ghost use Rattle.std.specs.Prelude.{◌≡◌, IfOk};
ghost use Rattle.pie_fresh.specs.inner.Ledgers.{EntersAndStarts, IsLedger, IsNew};
ghost use Rattle.pie_fresh.specs.inner.Turns.{Begins};
ghost use Rattle.pie_fresh.specs.inner.Means.{NewAs};

use crate::builder::{Builder, Entered};
use crate::turn::fault;
use pie_base::{FaultKind, MAX_TASKS, OutOfMemory};
use pie_running::{RunningTask, code_of};
use pie_value::{Refusal, Task, encode_task};
use pie_vm::Runs;

impl<'a> Builder<'a> {
    /// Enters a task that wasn't entered before.
    #[tactic(auto, using(crate::proofs::Walks::enters))]
    pub(crate) fn enter(&mut self, task: &Task, runs: &mut Runs) -> Result<Entered<'a>, OutOfMemory>
        requires ledger { IsLedger self.old.ledger }
        requires task { IsNew self.old.ledger.names task.now }
        ensures begins { IfOk result (λ e. Begins self.old self.new task.now e) }
        ensures typed { self.new.typed ≡ self.old.typed }
        ensures means { IfOk result (λ e. NewAs self.old self.new task.now e) }
        ensures started { EntersAndStarts self.old.ledger.names self.new.ledger.names runs.old runs.new result }
    {
        if self.ledger.heights.len() >= MAX_TASKS as usize {
            let _bytes = encode_task(self.alloc, task)?;
            return Ok(Entered::Refused(Refusal::Many));
        }
        match code_of(self.typed, self.code, task) {
            Some(code) => {
                let no = self.ledger.add(task.copy()?)?;
                let frame = RunningTask::start(self.alloc, code, task, no, runs)?;
                Ok(Entered::Runs(frame))
            }
            None => Ok(Entered::Refused(fault(task.copy()?, FaultKind::Unknown))),
        }
    }
}
