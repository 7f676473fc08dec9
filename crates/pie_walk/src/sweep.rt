//! What a task that has changed does to those that require it.
ghost use Rattle.std.specs.Prelude.{◌≡◌, ◌<◌, ◌↔◌, IsTrue, ◌||◌, false, [], length, slice_index_or, OnOk};
ghost use Rattle.pie_graph.specs.Numbers.{numbers, AllBelow, IsMarked};
ghost use Rattle.pie_walk.specs.Marks.{mark_of, IsSettled};
ghost use Rattle.pie_walk.specs.Standing.{Stands};
ghost use Rattle.pie_walk.specs.Counts.{Counts};
ghost use Rattle.pie_walk.specs.Callers.{SchedulesCallers, Sweeps};
ghost use Rattle.pie_walk.specs.inner.Sweeping.{is_idle, schedule_one, schedule_all, is_due, sweeping, sweep_one, sweep_all, swept_to, SweepsAbove};

use crate::flags::flag_of;
use crate::{Mark, Walk};
use pie_base::OutOfMemory;
use pie_graph::{TaskNo, TaskRows};

impl Walk {
    /// Each task that requires this one, and was neither taken nor settled, is scheduled.
    pub fn schedule_callers(&mut self, no: TaskNo) -> Result<(), OutOfMemory>
        requires stands { Stands self.old }
        requires number { no.0 < length self.old.rows }
        ensures scheduled { OnOk result (SchedulesCallers self.old self.new no.0) }
        ensures counts { OnOk result (Counts self.old self.new [] []) }
        ensures stands { OnOk result (Stands self.new) }
    {
        let callers = self.rows.callers(no)?;
        self.schedule_all(callers.as_slice());
        Ok(())
    }

    // These tasks are scheduled, those that were neither taken nor settled.
    fn schedule_all(&mut self, nos: &[TaskNo])
        requires { AllBelow (length self.old.scheduled) (numbers nos.now) }
        ensures { self.new ≡ schedule_all (numbers nos.now) self.old }
    {
        for no in nos {
            self.schedule_one(*no);
        }
    }

    fn schedule_one(&mut self, no: TaskNo)
        requires { no.0 < length self.old.scheduled }
        ensures { self.new ≡ schedule_one no.0 self.old }
    {
        if is_idle(self.mark(no)) {
            self.scheduled[no.0 as usize] = true;
        }
    }

    /// What a settled task requires or writes has changed: the sweep goes up through all tasks that require it, directly or through others,
    /// and were neither taken nor settled, and schedules those that looked under `out`. A task that was swept is not swept again.
    pub fn sweep(&mut self, no: TaskNo) -> Result<(), OutOfMemory>
        requires stands { Stands self.old }
        requires settled { IsSettled self.old.marks no.0 }
        requires number { no.0 < length self.old.rows }
        ensures sweeps { OnOk result (Sweeps self.old self.new no.0) }
        ensures counts { OnOk result (Counts self.old self.new [] []) }
        ensures stands { OnOk result (Stands self.new) }
    {
        if self.is_swept(no) {
            return Ok(());
        }
        self.sweep_up(no)?;
        Ok(())
    }

    // The sweep from a task that wasn't swept.
    fn sweep_up(&mut self, no: TaskNo) -> Result<(), OutOfMemory>
        requires stands { Stands self.old }
        requires settled { IsSettled self.old.marks no.0 }
        requires number { no.0 < length self.old.rows }
        ensures sweeps { OnOk result (Sweeps self.old self.new no.0) }
        ensures counts { OnOk result (Counts self.old self.new [] []) }
        ensures stands { OnOk result (Stands self.new) }
    {
        let mut work = Vec::new(self.alloc);
        work.push(no)?;
        self.swept[no.0 as usize] = true;
        while let Some(at) = work.pop() {
            self.sweep_above(at, &mut work)?;
        }
        Ok(())
    }

    // The sweep goes up from a task.
    fn sweep_above(&mut self, at: TaskNo, work: &mut Vec<TaskNo>) -> Result<(), OutOfMemory>
        requires number { at.0 < length self.old.rows }
        requires swept { length self.old.swept ≡ length self.old.rows }
        requires scheduled { length self.old.scheduled ≡ length self.old.rows }
        ensures { OnOk result (SweepsAbove at.0 self.old (numbers work.old.items) self.new (numbers work.new.items)) }
    {
        let callers = self.rows.callers(at)?;
        self.sweep_all(callers.as_slice(), work)?;
        Ok(())
    }

    // The sweep comes to these tasks.
    fn sweep_all(&mut self, nos: &[TaskNo], work: &mut Vec<TaskNo>) -> Result<(), OutOfMemory>
        requires swept { AllBelow (length self.old.swept) (numbers nos.now) }
        requires scheduled { AllBelow (length self.old.scheduled) (numbers nos.now) }
        ensures { OnOk result (swept_to self.new (numbers work.new.items) ≡ sweep_all (numbers nos.now) (swept_to self.old (numbers work.old.items))) }
    {
        for no in nos {
            self.sweep_one(*no, work)?;
        }
        Ok(())
    }

    fn sweep_one(&mut self, no: TaskNo, work: &mut Vec<TaskNo>) -> Result<(), OutOfMemory>
        requires swept { no.0 < length self.old.swept }
        requires scheduled { no.0 < length self.old.scheduled }
        ensures { OnOk result (swept_to self.new (numbers work.new.items) ≡ sweep_one no.0 (swept_to self.old (numbers work.old.items))) }
    {
        if self.is_due(no) {
            self.mark_swept(no);
            work.push(no)?;
        }
        Ok(())
    }

    fn is_swept(&self, no: TaskNo) -> bool
        ensures { IsTrue result ↔ IsMarked self.now.swept no.0 }
    {
        flag_of(self.swept.as_slice(), no)
    }

    fn is_due(&self, no: TaskNo) -> bool
        ensures { result ≡ is_due self.now no.0 }
    {
        is_idle(self.mark(no)) && !flag_of(self.swept.as_slice(), no)
    }

    fn mark_swept(&mut self, no: TaskNo)
        requires swept { no.0 < length self.old.swept }
        requires scheduled { no.0 < length self.old.scheduled }
        ensures { self.new ≡ sweeping self.old no.0 }
    {
        let flag = either(
            flag_of(self.scheduled.as_slice(), no),
            flag_of(self.looks_out.as_slice(), no),
        );
        self.swept[no.0 as usize] = true;
        self.scheduled[no.0 as usize] = flag;
    }
}

fn is_idle(mark: Mark) -> bool
    ensures { result ≡ is_idle mark }
{
    match mark {
        Mark::New => true,
        Mark::Visited => true,
        Mark::Runs => false,
        Mark::Settled => false,
    }
}

fn either(a: bool, b: bool) -> bool
    ensures { result ≡ (a || b) }
{
    a || b
}
