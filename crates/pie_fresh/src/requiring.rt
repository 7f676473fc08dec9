//! Tasks that a running task requires.
ghost use Rattle.std.specs.Prelude.{◌≡◌, ◌+◌, ◌<◌, [], ◌∷◌, ◌++◌, length, true, Some, slice_get, IfOk, OnOk};
ghost use Rattle.pie_value.specs.declared.event.Event.TheVariants as events;
ghost use Rattle.pie_value.specs.Limits.{is_small_task};
ghost use Rattle.pie_value.specs.Canonical.{IsEncodableTask};
ghost use Rattle.pie_fresh.specs.inner.Means.{GoesAs};
ghost use Rattle.pie_fresh.specs.inner.Ledgers.{EntersAndStarts, IsNew};
ghost use Rattle.pie_fresh.specs.inner.Frames.{AwaitsAnswer};
ghost use Rattle.pie_fresh.specs.inner.Turns.{StepsTo, below_left};
ghost use Rattle.pie_fresh.specs.inner.Cycles.{tasks_from};

use crate::builder::{Builder, Entered};
use crate::turn::{Turn, failed};
use pie_base::{FaultKind, OutOfMemory};
use pie_graph::TaskNo;
use pie_running::{Caller, Waiting};
use pie_value::{How, Refusal, Task, Tasks};
use pie_vm::Runs;

impl<'a> Builder<'a> {
    /// A task is required: it is answered from what it gave, or runs first.
    pub(crate) fn require(
        &mut self,
        waiting: Waiting<'a>,
        required: Task,
        how: How,
        runs: &mut Runs,
    ) -> Result<Turn<'a>, OutOfMemory>
        requires { AwaitsAnswer self.old waiting }
        ensures steps { IfOk result (λ t. StepsTo (below_left self.old + waiting.entry.notes.left + 1) self.new t) }
        ensures started { EntersAndStarts self.old.ledger.names self.new.ledger.names runs.old runs.new result }
        ensures typed { self.new.typed ≡ self.old.typed }
        ensures means { IfOk result (λ t. GoesAs self.old self.new waiting.entry (events.Require required how) t) }
    {
        if !required.is_small() {
            return Ok(failed(waiting.into_task(), FaultKind::Big));
        }
        match self.ledger.names.number(&required)? {
            Some(no) => self.answer(waiting, no, required, how),
            None => self.descend(waiting, required, how, runs),
        }
    }

    // A task that was entered is required. Where it isn't done, it stands on the stack.
    fn answer(
        &self,
        waiting: Waiting<'a>,
        no: TaskNo,
        required: Task,
        how: How,
    ) -> Result<Turn<'a>, OutOfMemory>
        requires awaits { AwaitsAnswer self.now waiting }
        requires required { IsEncodableTask required }
        requires number { no.0 < length self.now.ledger.names }
        requires named { slice_get self.now.ledger.names no.0 ≡ Some required }
        requires small { is_small_task required ≡ true }
        ensures steps { IfOk result (λ t. StepsTo (below_left self.now + waiting.entry.notes.left + 1) self.now t) }
        ensures means { IfOk result (λ t. GoesAs self.now self.now waiting.entry (events.Require required how) t) }
    {
        match self.ledger.done(no)? {
            Some(done) => {
                let frame = waiting.give(self.alloc, required, how, done)?;
                Ok(Turn::Goes(frame))
            }
            None => {
                let tasks = self.cycle(no, waiting.into_task())?;
                Ok(Turn::Stops(Refusal::Cycle(tasks)))
            }
        }
    }

    // A task that wasn't entered is required: it runs first.
    fn descend(
        &mut self,
        waiting: Waiting<'a>,
        required: Task,
        how: How,
        runs: &mut Runs,
    ) -> Result<Turn<'a>, OutOfMemory>
        requires awaits { AwaitsAnswer self.old waiting }
        requires required { IsNew self.old.ledger.names required }
        requires small { is_small_task required ≡ true }
        ensures steps { IfOk result (λ t. StepsTo (below_left self.old + waiting.entry.notes.left + 1) self.new t) }
        ensures started { EntersAndStarts self.old.ledger.names self.new.ledger.names runs.old runs.new result }
        ensures typed { self.new.typed ≡ self.old.typed }
        ensures means { IfOk result (λ t. GoesAs self.old self.new waiting.entry (events.Require required how) t) }
    {
        match self.enter(&required, runs)? {
            Entered::Runs(frame) => {
                self.stack.push(Caller {
                    waiting,
                    required,
                    how,
                })?;
                Ok(Turn::Goes(frame))
            }
            Entered::Refused(refusal) => Ok(Turn::Stops(refusal)),
        }
    }

    // The tasks on the stack from the one with this number on, and the one above them.
    fn cycle(&self, no: TaskNo, top: Task) -> Result<Tasks, OutOfMemory>
        ensures { IfOk result (λ tasks. tasks ≡ tasks_from no.0 self.now.stack.items ++ top ∷ []) }
    {
        let mut tasks = Vec::new(self.alloc);
        for caller in &self.stack {
            note(&mut tasks, caller, no)?;
        }
        tasks.push(top)?;
        Ok(Tasks::new(tasks))
    }
}

// A task that waits is in the cycle where it has this number or a greater one.
fn note(tasks: &mut Vec<Task>, caller: &Caller, no: TaskNo) -> Result<(), OutOfMemory>
    ensures { OnOk result (tasks.new.items ≡ tasks.old.items ++ tasks_from no.0 (caller.now ∷ [])) }
{
    let notes = &caller.waiting.notes;
    if notes.no().0 >= no.0 {
        tasks.push(notes.task().copy()?)?;
    }
    Ok(())
}
