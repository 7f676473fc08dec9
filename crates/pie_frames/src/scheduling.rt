//! Tasks that are scheduled.
ghost use Rattle.std.specs.Prelude.{◌≡◌, ◌<◌, ◌≤◌, length, OnOk};
ghost use Rattle.pie_walk.specs.Counts.{begins};
ghost use Rattle.pie_walk.specs.Callers.{SchedulesCallers, Sweeps};
ghost use Rattle.pie_walk.specs.Marks.{IsIdle, IsSettled};
ghost use Rattle.pie_walk.specs.Standing.{Stands};
ghost use Rattle.pie_walk.specs.States.{with_scheduled};
ghost use Rattle.pie_frames.specs.inner.Standing.{Rests, Holds};
ghost use Rattle.pie_graph.specs.declared.edges.TaskNo.{TaskNo};
ghost use Rattle.pie_frames.specs.inner.Weights.{weight};

use crate::Frames;
use pie_base::OutOfMemory;
use pie_graph::TaskNo;

impl<'a> Frames<'a> {
    /// A task that was neither taken nor settled is scheduled: it will be taken when all that it requires is settled.
    pub fn schedule(&mut self, no: TaskNo)
        requires rests { Rests self.old }
        requires idle { IsIdle self.old.walk.marks no.0 }
        requires number { no.0 < length self.old.walk.rows }
        ensures scheduled { self.new.walk ≡ with_scheduled self.old.walk no.0 }
        ensures parked { self.new.parked ≡ self.old.parked }
        ensures rests { Rests self.new }
        ensures weight { weight self.new ≤ weight self.old }
        ensures room { begins self.new.walk ≤ begins self.old.walk }
    {
        self.walk.schedule(no);
    }

    /// Each task that requires this one, and was neither taken nor settled, is scheduled.
    pub fn schedule_callers(&mut self, no: TaskNo) -> Result<(), OutOfMemory>
        requires stands { Stands self.old.walk }
        requires number { no.0 < length self.old.walk.rows }
        ensures scheduled { OnOk result (SchedulesCallers self.old.walk self.new.walk no.0) }
        ensures parked { self.new.parked ≡ self.old.parked }
        ensures rests { Rests self.old → OnOk result (Rests self.new) }
        ensures holds { (task : TaskNo) → Holds task self.old → OnOk result (Holds task self.new) }
        ensures weight { OnOk result (weight self.new ≤ weight self.old) }
        ensures room { OnOk result (begins self.new.walk ≤ begins self.old.walk) }
    {
        self.walk.schedule_callers(no)
    }

    /// What a settled task requires or writes has changed: the sweep goes up through all tasks that require it, directly or through others,
    /// and were neither taken nor settled, and schedules those that looked under `out`. A task that was swept is not swept again.
    pub fn sweep(&mut self, no: TaskNo) -> Result<(), OutOfMemory>
        requires rests { Rests self.old }
        requires settled { IsSettled self.old.walk.marks no.0 }
        requires number { no.0 < length self.old.walk.rows }
        ensures sweeps { OnOk result (Sweeps self.old.walk self.new.walk no.0) }
        ensures parked { self.new.parked ≡ self.old.parked }
        ensures rests { OnOk result (Rests self.new) }
        ensures weight { OnOk result (weight self.new ≤ weight self.old) }
        ensures room { OnOk result (begins self.new.walk ≤ begins self.old.walk) }
    {
        self.walk.sweep(no)
    }
}
