//! Tasks that end, and what that does to those that require them.
ghost use Rattle.std.specs.Prelude.{◌≡◌, ◌<◌, ◌+◌, false, length, Some, IfOk, OnOk};
ghost use Rattle.pie_graph.specs.Rows.{row_at};
ghost use Rattle.pie_record.specs.declared.task_record.TaskRecord.{TaskRecord};
ghost use Rattle.pie_record.specs.inner.Records.{record_of};
ghost use Rattle.pie_walk.specs.Marks.{IsSettled};
ghost use Rattle.pie_running.specs.inner.Noted.{IsSound};
ghost use Rattle.pie_frames.specs.inner.Standing.{Holds};
ghost use Rattle.pie_bottomup.specs.inner.Going.{EndsWhole, NotesWhole};
ghost use Rattle.pie_task_laws.specs.Coming.{failed_by, output_by};
ghost use Rattle.pie_bottomup.specs.inner.Finished.{EndsSettled, HasEndedWith, HasSameEdges, HasSwept};
ghost use Rattle.pie_bottomup.specs.inner.States.{AreCalled, HasCalled, IsAtRest, IsOwn, IsSite, IsTaken, HasScheduled, MayEnd, MayEndWith};
ghost use Rattle.pie_bottomup.specs.inner.States.{GoesTo, Keeps, Nearer, rest};

use crate::placing::{has_other_output, has_other_writes, is_twice, paths_of};
use crate::state::{Core, Turn};
use pie_base::{FaultKind, OutOfMemory};
use pie_graph::{TaskNo, TaskRows};
use pie_record::{Deps, Outcome, TaskRecord, Writes};
use pie_running::{NoteParts, Notes};
use pie_value::{Fault, Value, encode};

impl<'a> Core<'a> {
    /// The task that runs is done with this output.
    pub(crate) fn done(
        &mut self,
        no: TaskNo,
        from: usize,
        notes: Notes,
        output: Value,
    ) -> Result<Turn, OutOfMemory>
        requires taken { IsTaken self.old no }
        requires sound { IsSound notes }
        requires own { IsOwn self.old no from notes }
        ensures turns { IfOk result (GoesTo self.new) }
        ensures nearer { IfOk result (Nearer (rest self.old + 1) self.new) }
        ensures kept { OnOk result (Keeps self.old self.new) }
        ensures whole { IfOk result (NotesWhole self.old no from notes (output_by notes output) self.new) }
    {
        if !output.is_small() {
            return self.fail(no, from, notes, FaultKind::Big);
        }
        let _bytes = encode(self.alloc, &output)?;
        self.end_as(no, from, notes, Outcome::Done(output))
    }

    /// The task that runs fails.
    pub(crate) fn fail(
        &mut self,
        no: TaskNo,
        from: usize,
        notes: Notes,
        kind: FaultKind,
    ) -> Result<Turn, OutOfMemory>
        requires { IsTaken self.old no }
        ensures turns { IfOk result (GoesTo self.new) }
        ensures nearer { IfOk result (Nearer (rest self.old + 1) self.new) }
        ensures kept { OnOk result (Keeps self.old self.new) }
        ensures whole { IfOk result (NotesWhole self.old no from notes (failed_by notes kind) self.new) }
    {
        let fault = Fault {
            task: self.tables.names.task(no).copy()?,
            kind,
        };
        self.end_as(no, from, notes, Outcome::Failed(fault))
    }

    /// The task that runs ends so.
    #[tactic(auto, using(crate::proofs::Parts::ended_kept, crate::proofs::Parts::named_encodable))]
    pub(crate) fn end_as(
        &mut self,
        no: TaskNo,
        from: usize,
        notes: Notes,
        outcome: Outcome,
    ) -> Result<Turn, OutOfMemory>
        requires taken { IsTaken self.old no }
        requires ends { MayEnd self.old no from notes outcome }
        ensures turns { IfOk result (GoesTo self.new) }
        ensures nearer { IfOk result (Nearer (rest self.old + 1) self.new) }
        ensures kept { OnOk result (Keeps self.old self.new) }
        ensures whole { IfOk result (NotesWhole self.old no from notes outcome self.new) }
    {
        let NoteParts { deps, writes, .. } = notes.into_parts();
        let _names = self.tables.names.as_slice();
        let rec = TaskRecord {
            task: self.tables.names.task(no).copy()?,
            deps: Deps::new(deps),
            writes: Writes::new(writes),
            outcome,
        };
        self.end_with(no, from, rec)
    }

    /// The task that was taken ends with this record: it is settled, and those that its end concerns are scheduled.
    pub(crate) fn end_with(
        &mut self,
        no: TaskNo,
        from: usize,
        rec: TaskRecord,
    ) -> Result<Turn, OutOfMemory>
        requires taken { IsTaken self.old no }
        requires ends { MayEndWith self.old no.0 from rec }
        ensures turns { IfOk result (GoesTo self.new) }
        ensures nearer { IfOk result (Nearer (rest self.old + 1) self.new) }
        ensures kept { OnOk result (Keeps self.old self.new) }
        ensures ended { OnOk result (HasEndedWith self.old self.new no.0 from rec) }
        ensures whole { IfOk result (EndsWhole self.old no.0 from rec self.new) }
    {
        let old = self.tables.records.get(no);
        let output = has_other_output(old, &rec);
        let edges = self.has_other_edges(no, from, &rec);
        self.call_callers(no, output)?;
        self.settle_with(no, from, rec)?;
        self.sweep_above(no, edges)?;
        Ok(Turn::Went)
    }

    // Whether the task that was taken wrote something else than before, or required other tasks.
    fn has_other_edges(&self, no: TaskNo, from: usize, rec: &TaskRecord) -> bool
        requires { no.0 < length self.now.frames.walk.rows }
        ensures { (was : TaskRecord) → record_of self.now.tables.records no.0 ≡ Some was → result ≡ false
            → HasSameEdges (row_at self.now.frames.walk.rows no.0) from was rec.now }
    {
        if has_other_writes(self.tables.records.get(no), rec) {
            return true;
        }
        !is_twice(self.frames.walk().rows().callees(no), from)
    }

    // The tasks that require one that ends with another output are scheduled.
    fn call_callers(&mut self, no: TaskNo, output: bool) -> Result<(), OutOfMemory>
        requires site { IsSite self.old }
        requires holds { Holds no self.old.frames }
        ensures called { OnOk result (HasCalled self.old self.new no.0 output) }
        ensures holds { OnOk result (Holds no self.new.frames) }
        ensures same { self.new ≡ record self.old { frames = self.new.frames } }
        ensures parked { self.new.frames.parked ≡ self.old.frames.parked }
    {
        if output {
            self.frames.schedule_callers(no)?;
        }
        Ok(())
    }

    // The task that was taken is settled with this record.
    fn settle_with(&mut self, no: TaskNo, from: usize, rec: TaskRecord) -> Result<(), OutOfMemory>
        requires site { IsSite self.old }
        requires holds { Holds no self.old.frames }
        requires ends { MayEndWith self.old no.0 from rec }
        requires called { AreCalled self.old no.0 rec }
        ensures settles { OnOk result (EndsSettled self.old self.new no.0 from rec) }
        ensures same { self.new ≡ record self.old { frames = self.new.frames; tables = self.new.tables } }
        ensures parked { self.new.frames.parked ≡ self.old.frames.parked }
        ensures ran { self.new.tables.ran.items ≡ self.old.tables.ran.items }
    {
        let writes = paths_of(self.alloc, rec.writes.as_slice())?;
        self.tables.put(no, rec)?;
        self.frames.finish(no, from, writes)?;
        Ok(())
    }

    // Schedules those that looked under `out` above a task that ended with other requires or writes.
    fn sweep_above(&mut self, no: TaskNo, edges: bool) -> Result<(), OutOfMemory>
        requires rests { IsAtRest self.old }
        requires settled { IsSettled self.old.frames.walk.marks no.0 }
        requires number { no.0 < length self.old.frames.walk.rows }
        ensures swept { OnOk result (HasScheduled self.old self.new) }
        ensures told { OnOk result (HasSwept self.old self.new no.0 edges) }
        ensures same { self.new ≡ record self.old { frames = self.new.frames } }
        ensures parked { self.new.frames.parked ≡ self.old.frames.parked }
    {
        if edges {
            self.frames.sweep(no)?;
        }
        Ok(())
    }
}
