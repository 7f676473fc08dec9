//! Tasks that the task that runs requires.
ghost use Rattle.std.specs.Prelude.{◌≡◌, ◌<◌, ◌+◌, ◌*◌, true, [], ◌∷◌, ◌++◌, map, length, Some, All, slice_get, IfOk, OnOk};
ghost use Rattle.pie_graph.specs.Numbers.{numbers, AllBelow};
ghost use Rattle.pie_value.specs.Canonical.{IsEncodableTask};
ghost use Rattle.pie_value.specs.Limits.{is_small_task};
ghost use Rattle.pie_task_laws.specs.Beginning.{calling};
ghost use Rattle.pie_bottomup.specs.inner.Causes.{AreTurned};
ghost use Rattle.pie_bottomup.specs.inner.Going.{ParksWhole, RequiresWhole};
ghost use Rattle.pie_bottomup.specs.inner.States.{Awaits, IsNewTask, GoesTo, Keeps, Nearer, rest};

use crate::cycle::turned;
use crate::state::{Core, Turn};
use pie_base::{FaultKind, OutOfMemory};
use pie_graph::TaskNo;
use pie_running::{Caller, Waiting};
use pie_store::Cause;
use pie_value::{How, Task, Tasks};

impl<'a> Core<'a> {
    /// A task is required: the one that requires it waits until it is settled.
    pub(crate) fn require(
        &mut self,
        no: TaskNo,
        from: usize,
        waiting: Waiting<'a>,
        required: Task,
        how: How,
    ) -> Result<Turn, OutOfMemory>
        requires { Awaits self.old no from waiting }
        ensures turns { IfOk result (GoesTo self.new) }
        ensures nearer { IfOk result (Nearer (rest self.old + 2 * waiting.entry.notes.left + 1) self.new) }
        ensures kept { OnOk result (Keeps self.old self.new) }
        ensures whole { IfOk result (RequiresWhole self.old no from (calling waiting.entry required how) self.new) }
    {
        if !required.is_small() {
            return self.fail(no, from, waiting.into_notes(), FaultKind::Big);
        }
        match self.tables.names.number(&required)? {
            Some(callee) => self.park(no, from, caller_of(waiting, required, how), callee),
            None => self.require_new(no, from, caller_of(waiting, required, how)),
        }
    }

    // A task without a record is required.
    fn require_new(
        &mut self,
        no: TaskNo,
        from: usize,
        caller: Caller<'a>,
    ) -> Result<Turn, OutOfMemory>
        requires awaits { Awaits self.old no from caller.waiting }
        requires absent { IsNewTask self.old.tables.names caller.required }
        ensures turns { IfOk result (GoesTo self.new) }
        ensures nearer { IfOk result (Nearer (rest self.old + 2 * caller.entry.waiting.notes.left + 1) self.new) }
        ensures kept { OnOk result (Keeps self.old self.new) }
        ensures whole { is_small_task caller.entry.required ≡ true → IfOk result (RequiresWhole self.old no from caller.entry self.new) }
    {
        let required = caller.required.copy()?;
        if self.is_full() {
            return Ok(Turn::StartAfresh(self.too_many(required)));
        }
        let callee = self.add(required)?;
        self.park(no, from, caller, callee)
    }

    // The task waits for another, unless that one waits for it.
    fn park(
        &mut self,
        no: TaskNo,
        from: usize,
        caller: Caller<'a>,
        callee: TaskNo,
    ) -> Result<Turn, OutOfMemory>
        requires awaits { Awaits self.old no from caller.waiting }
        requires required { IsEncodableTask caller.required }
        requires number { callee.0 < length self.old.frames.walk.rows }
        requires named { slice_get self.old.tables.names callee.0 ≡ Some caller.required }
        ensures turns { IfOk result (GoesTo self.new) }
        ensures nearer { IfOk result (Nearer (rest self.old + 2 * caller.entry.waiting.notes.left + 1) self.new) }
        ensures kept { OnOk result (Keeps self.old self.new) }
        ensures whole { IfOk result (ParksWhole self.old no.0 from caller.entry callee.0 self.new) }
    {
        match self.frames.park(no, caller, from, callee)? {
            Some(cycle) => {
                let tasks = self.tasks_of(cycle.as_slice())?;
                Ok(Turn::StartAfresh(Cause::UnionCycle(tasks)))
            }
            None => Ok(Turn::Went),
        }
    }

    // The tasks of a cycle, the least first.
    #[tactic(auto, using(crate::proofs::Cycles::number_below))]
    fn tasks_of(&self, cycle: &[TaskNo]) -> Result<Tasks, OutOfMemory>
        requires { AllBelow (length self.now.tables.names) (numbers cycle.now) }
        ensures { IfOk result (AreTurned self.now.tables.names (numbers cycle.now)) }
    {
        let mut tasks = Vec::new(self.alloc);
        for no in cycle {
            self.push_task(&mut tasks, *no)?;
        }
        let tasks = turned(self.alloc, tasks)?;
        Ok(Tasks::new(tasks))
    }

    // The task with a number is added to some.
    #[tactic(auto, using(crate::proofs::Parts::named_encodable, crate::proofs::Cycles::encodable_more))]
    fn push_task(&self, tasks: &mut Vec<Task>, no: TaskNo) -> Result<(), OutOfMemory>
        requires number { no.0 < length self.now.tables.names }
        requires tasks { All IsEncodableTask tasks.old.items }
        ensures encodable { OnOk result (All IsEncodableTask tasks.new.items) }
        ensures named { OnOk result (map Some tasks.new.items ≡ map Some tasks.old.items ++ slice_get self.now.tables.names no.0 ∷ []) }
    {
        let _names = self.tables.names.as_slice();
        let task = self.tables.names.task(no).copy()?;
        tasks.push(task)?;
        Ok(())
    }
}

fn caller_of<'a>(waiting: Waiting<'a>, required: Task, how: How) -> Caller<'a>
    ensures waiting { result.waiting ≡ waiting.entry }
    ensures required { result.required ≡ required }
    ensures is { result ≡ calling waiting.entry required how }
{
    Caller {
        waiting,
        required,
        how,
    }
}
