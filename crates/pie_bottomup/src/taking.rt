//! Tasks that are taken: they are kept, run, or are no tasks any more.
ghost use Rattle.std.specs.Prelude.{◌≡◌, ◌<◌, ◌≤◌, ◌+◌, true, false, length, None, slice_get, IfOk, IfSome, OnOk};
ghost use Rattle.pie_tables.specs.Tabled.{HasFailed};
ghost use Rattle.pie_compare.specs.inner.Standing.{RecordStands};
ghost use Rattle.pie_graph.specs.Numbers.{IsMarked};
ghost use Rattle.pie_running.specs.inner.Coded.{IsCodeFor};
ghost use Rattle.pie_bottomup.specs.inner.Going.{StartsWhole, TakesWhole, WalksWhole};
ghost use Rattle.pie_bottomup.specs.inner.Exact.{lost_record};
ghost use Rattle.pie_bottomup.specs.inner.Ran.{HasStarted, TakesFor, WalksFor};
ghost use Rattle.pie_bottomup.specs.inner.Running.{IsKnown};
ghost use Rattle.pie_bottomup.specs.inner.States.{StartsOne, HasKnownCode, IsFree, IsJustTaken, IsSite, IsTaken};
ghost use Rattle.pie_bottomup.specs.inner.States.{GoesTo, Keeps, Nearer, Spends, SpendsOne, rest, room};

use crate::answering::unknown;
use crate::flags::flag_of;
use crate::state::{Core, InHand, Turn};
use pie_base::OutOfMemory;
use pie_code::Checked;
use pie_compare::stands;
use pie_frames::Next;
use pie_graph::{TaskNo, TaskRows};
use pie_record::{Deps, TaskRecord, Writes};
use pie_running::{RunningTask, code_of};
use pie_value::Task;
use pie_vm::Runs;
use std::alloc::Global;

impl<'a> Core<'a> {
    /// The walk goes on, up to the next task that is taken or answered, or to the next root.
    pub(crate) fn walk_on(&mut self, runs: &mut Runs) -> Result<Turn, OutOfMemory>
        requires { IsFree self.old }
        ensures turns { IfOk result (GoesTo self.new) }
        ensures nearer { IfOk result (Nearer (rest self.old) self.new) }
        ensures spends { OnOk result (Spends self.old self.new runs.old runs.new) }
        ensures starts { StartsOne runs.old runs.new }
        ensures few { length runs.new ≤ length runs.old + room self.old }
        ensures whole { IfOk result (WalksWhole self.old self.new) }
        ensures reasons { OnOk result (WalksFor self.old self.new runs.old runs.new) }
    {
        match self.frames.next()? {
            Next::Takes(no) => self.take(no, runs),
            Next::Answers(no, parked) => self.answer(no, parked),
            Next::Idle => self.next_root(),
        }
    }

    // A task was taken.
    fn take(&mut self, no: TaskNo, runs: &mut Runs) -> Result<Turn, OutOfMemory>
        requires { IsJustTaken self.old no }
        ensures turns { IfOk result (GoesTo self.new) }
        ensures nearer { IfOk result (Nearer (rest self.old + 2000004) self.new) }
        ensures spends { OnOk result (SpendsOne self.old self.new runs.old runs.new) }
        ensures starts { StartsOne runs.old runs.new }
        ensures whole { IfOk result (TakesWhole self.old no.0 self.new) }
        ensures reasons { OnOk result (TakesFor self.old no.0 self.new runs.old runs.new) }
    {
        match code_of(self.plan.typed, self.plan.code, self.tables.names.task(no)) {
            Some(code) => self.take_known(no, code, runs),
            None => self.lose(no),
        }
    }

    // A task of the pipeline was taken: its record stands, or it runs.
    fn take_known(
        &mut self,
        no: TaskNo,
        code: &'a Checked,
        runs: &mut Runs,
    ) -> Result<Turn, OutOfMemory>
        requires taken { IsJustTaken self.old no }
        requires known { HasKnownCode self.old no.0 code.now }
        ensures turns { IfOk result (GoesTo self.new) }
        ensures nearer { IfOk result (Nearer (rest self.old + 2000004) self.new) }
        ensures spends { OnOk result (SpendsOne self.old self.new runs.old runs.new) }
        ensures starts { StartsOne runs.old runs.new }
        ensures whole { IfOk result (StartsWhole self.old no.0 code.now self.new) }
        ensures reasons { OnOk result (TakesFor self.old no.0 self.new runs.old runs.new) }
    {
        if self.stands(no)? {
            return Ok(self.keep(no));
        }
        self.start(no, code, runs)
    }

    // The record of a task that was taken stands.
    fn keep(&mut self, no: TaskNo) -> Turn
        requires taken { IsJustTaken self.old no }
        requires known { IfSome (slice_get self.old.tables.names no.0) (IsKnown self.old.plan) }
        requires stands { RecordStands self.old.tables self.old.frames.walk.rows self.old.named no.0 }
        requires same { IsMarked self.old.plan.same.items no.0 }
        ensures turns { GoesTo self.new result }
        ensures nearer { Nearer (rest self.old + 1) self.new result }
        ensures kept { Keeps self.old self.new }
        ensures whole { TakesWhole self.old no.0 self.new result }
    {
        let _names = self.tables.names.as_slice();
        self.frames.keep(no);
        Turn::Went
    }

    // Whether the record of a task stands.
    fn stands(&self, no: TaskNo) -> Result<bool, OutOfMemory>
        requires site { IsSite self.now }
        requires number { no.0 < length self.now.tables.names }
        ensures stands { IfOk result (λ stands. stands ≡ true → RecordStands self.now.tables self.now.frames.walk.rows self.now.named no.0) }
        ensures same { IfOk result (λ stands. stands ≡ true → IsMarked self.now.plan.same.items no.0) }
        ensures falls { IfOk result (λ stands. stands ≡ false → IsMarked self.now.plan.same.items no.0
            → ¬ (RecordStands self.now.tables self.now.frames.walk.rows self.now.named no.0)) }
    {
        if !flag_of(self.plan.same.as_slice(), no) {
            return Ok(false);
        }
        let rows = self.frames.walk().rows();
        let stands = stands(self.alloc, &self.tables, rows, &self.named, no)?;
        Ok(stands)
    }

    // A task that was taken starts to run.
    #[tactic(auto, using(crate::proofs::Parts::named_encodable))]
    fn start(&mut self, no: TaskNo, code: &'a Checked, runs: &mut Runs) -> Result<Turn, OutOfMemory>
        requires taken { IsTaken self.old no }
        requires known { HasKnownCode self.old no.0 code.now }
        ensures turns { IfOk result (GoesTo self.new) }
        ensures nearer { IfOk result (Nearer (rest self.old + 2000004) self.new) }
        ensures spends { OnOk result (SpendsOne self.old self.new runs.old runs.new) }
        ensures starts { StartsOne runs.old runs.new }
        ensures whole { IfOk result (StartsWhole self.old no.0 code.now self.new) }
        ensures started { OnOk result (HasStarted self.old no.0 self.new runs.old runs.new) }
    {
        let _names = self.tables.names.as_slice();
        let from = self.frames.walk().rows().callees(no).len();
        let task = RunningTask::start(self.alloc, code, self.tables.names.task(no), no, runs)?;
        self.tables.runs(no);
        self.hand = Some(InHand { no, from, task });
        Ok(Turn::Went)
    }

    // A task that was taken isn't one of the pipeline: it fails without having run.
    fn lose(&mut self, no: TaskNo) -> Result<Turn, OutOfMemory>
        requires taken { IsTaken self.old no }
        requires none { IfSome (slice_get self.old.tables.names no.0) (λ t. IsCodeFor self.old.plan.typed.now self.old.plan.code.now t None) }
        ensures turns { IfOk result (GoesTo self.new) }
        ensures nearer { IfOk result (Nearer (rest self.old + 1) self.new) }
        ensures kept { OnOk result (Keeps self.old self.new) }
        ensures whole { IfOk result (TakesWhole self.old no.0 self.new) }
    {
        let _names = self.tables.names.as_slice();
        let rec = lost(self.alloc, self.tables.names.task(no))?;
        let from = self.frames.walk().rows().callees(no).len();
        self.end_with(no, from, rec)
    }
}

// The record of a task that isn't one of the pipeline.
fn lost(alloc: Global, task: &Task) -> Result<TaskRecord, OutOfMemory>
    ensures task { IfOk result (λ rec. rec.task ≡ task.now) }
    ensures outcome { IfOk result (λ rec. HasFailed rec.outcome) }
    ensures is { IfOk result (λ rec. rec ≡ lost_record task.now) }
{
    let outcome = unknown(task)?;
    let task = task.copy()?;
    Ok(TaskRecord {
        task,
        deps: Deps::new(Vec::new(alloc)),
        writes: Writes::new(Vec::new(alloc)),
        outcome,
    })
}
