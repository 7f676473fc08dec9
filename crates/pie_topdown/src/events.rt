//! Events of the task that runs.
ghost use Rattle.std.specs.Prelude.{◌+◌, ◌*◌, IfOk, OnOk};
ghost use Rattle.pie_files.specs.Reading.{ReadsOnly};
ghost use Rattle.pie_value.specs.declared.event.Event.TheVariants as events;
ghost use Rattle.pie_topdown.specs.declared.hand.Hand.TheVariants as hands;
ghost use Rattle.pie_topdown.specs.inner.Asking.{ActsSo, AsksSo, LooksSo, RunsSo, ToldSo};
ghost use Rattle.pie_topdown.specs.inner.Handed.{IsAsking, StandsWith};
ghost use Rattle.pie_topdown.specs.inner.Turns.{Stands, TurnsTo, below, Nearer, room, Fits, Keeps, MayGo, told_mass};
ghost use Rattle.pie_topdown.specs.inner.Unoffered.{GoesMarked};

use crate::builder::Builder;
use crate::hand::{Hand, Turn};
use pie_base::{FaultKind, OutOfMemory, Path};
use pie_files::{Files, FilesError};
use pie_graph::TaskNo;
use pie_running::{Paused, RunningTask, Told, Waiting};
use pie_value::{Blob, By, Event};

impl<'a> Builder<'a> {
    /// One event of the task that runs.
    #[tactic(auto, using(pie_files::proofs::Reading::reads))]
    pub(crate) fn event<F: Files>(
        &mut self,
        task: RunningTask<'a>,
        files: &mut F,
    ) -> Result<Turn<'a>, FilesError>
        requires { Stands self.old (hands.Runs task) }
        ensures turns { IfOk result (TurnsTo self.new) }
        ensures nearer { IfOk result (Nearer (below self.old + (2 * task.entry.notes.left + 1)) self.new) }
        ensures fits { IfOk result (Fits (room self.old) self.new) }
        ensures kept { OnOk result (Keeps self.old self.new) }
        ensures marks { IfOk result (GoesMarked self.old self.new) }
        ensures reads { ReadsOnly F.holds F.moment F.left_since F.images F.faults files.old files.new result }
        ensures right { IfOk result (RunsSo (F.holds files.old) self.old task.entry self.new) }
    {
        let no = task.notes.no();
        match task.next()? {
            Paused::Asks(waiting, event) => self.treat(no, waiting, event, files),
            Paused::Ends(notes, output) => Ok(self.done(no, notes, output)?),
            Paused::Fails(_, kind) => Ok(self.fail(no, kind)?),
        }
    }

    // An event that asks.
    #[tactic(auto, using(pie_files::proofs::Reading::reads))]
    fn treat<F: Files>(
        &mut self,
        no: TaskNo,
        waiting: Waiting<'a>,
        event: Event,
        files: &mut F,
    ) -> Result<Turn<'a>, FilesError>
        requires { IsAsking self.old no.0 waiting }
        ensures turns { IfOk result (TurnsTo self.new) }
        ensures nearer { IfOk result (Nearer (below self.old + (2 * waiting.entry.notes.left + 1)) self.new) }
        ensures fits { IfOk result (Fits (room self.old) self.new) }
        ensures kept { OnOk result (Keeps self.old self.new) }
        ensures marks { IfOk result (GoesMarked self.old self.new) }
        ensures reads { ReadsOnly F.holds F.moment F.left_since F.images F.faults files.old files.new result }
        ensures right { IfOk result (AsksSo (F.holds files.old) self.old waiting.entry event self.new) }
    {
        match event {
            Event::Exists(path) => self.exists(no, waiting, path, files),
            Event::Read(path, by) => self.read(no, waiting, path, by, files),
            Event::Digest(path) => self.digest(no, waiting, path, files),
            Event::List(dir) => self.list(no, waiting, dir, files),
            Event::Write(path, bytes) => Ok(self.write(no, waiting, path, bytes)?),
            Event::Require(task, how) => Ok(self.require(no, waiting, task, how)?),
            Event::Done(_) | Event::Fail(_) => Ok(self.fail(no, FaultKind::Unknown)?),
        }
    }

    #[tactic(auto, using(crate::proofs::Twice::reads_then, crate::proofs::Growing::noted_below))]
    fn exists<F: Files>(
        &mut self,
        no: TaskNo,
        waiting: Waiting<'a>,
        path: Path,
        files: &mut F,
    ) -> Result<Turn<'a>, FilesError>
        requires { IsAsking self.old no.0 waiting }
        ensures turns { IfOk result (TurnsTo self.new) }
        ensures nearer { IfOk result (Nearer (below self.old + (2 * waiting.entry.notes.left + 1)) self.new) }
        ensures fits { IfOk result (Fits (room self.old) self.new) }
        ensures kept { OnOk result (Keeps self.old self.new) }
        ensures marks { IfOk result (GoesMarked self.old self.new) }
        ensures reads { ReadsOnly F.holds F.moment F.left_since F.images F.faults files.old files.new result }
        ensures right { IfOk result (AsksSo (F.holds files.old) self.old waiting.entry (events.Exists path) self.new) }
    {
        self.fetch(&waiting.notes, &path, files)?;
        self.exists_there(no, waiting, path, files)
    }

    #[tactic(auto, using(pie_files::proofs::Reading::reads, crate::proofs::Growing::noted_below))]
    fn exists_there<F: Files>(
        &mut self,
        no: TaskNo,
        waiting: Waiting<'a>,
        path: Path,
        files: &mut F,
    ) -> Result<Turn<'a>, FilesError>
        requires { IsAsking self.old no.0 waiting }
        ensures turns { IfOk result (TurnsTo self.new) }
        ensures nearer { IfOk result (Nearer (below self.old + (2 * waiting.entry.notes.left + 1)) self.new) }
        ensures fits { IfOk result (Fits (room self.old) self.new) }
        ensures kept { OnOk result (Keeps self.old self.new) }
        ensures marks { IfOk result (GoesMarked self.old self.new) }
        ensures reads { ReadsOnly F.holds F.moment F.left_since F.images F.faults files.old files.new result }
        ensures right { IfOk result (LooksSo (F.holds files.old) self.old waiting.entry (events.Exists path) path self.new) }
    {
        let told = waiting.exists(&self.sight(), path, files)?;
        Ok(self.told(no, told)?)
    }

    #[tactic(auto, using(crate::proofs::Twice::reads_then, crate::proofs::Growing::noted_below))]
    fn read<F: Files>(
        &mut self,
        no: TaskNo,
        waiting: Waiting<'a>,
        path: Path,
        by: By,
        files: &mut F,
    ) -> Result<Turn<'a>, FilesError>
        requires { IsAsking self.old no.0 waiting }
        ensures turns { IfOk result (TurnsTo self.new) }
        ensures nearer { IfOk result (Nearer (below self.old + (2 * waiting.entry.notes.left + 1)) self.new) }
        ensures fits { IfOk result (Fits (room self.old) self.new) }
        ensures kept { OnOk result (Keeps self.old self.new) }
        ensures marks { IfOk result (GoesMarked self.old self.new) }
        ensures reads { ReadsOnly F.holds F.moment F.left_since F.images F.faults files.old files.new result }
        ensures right { IfOk result (AsksSo (F.holds files.old) self.old waiting.entry (events.Read path by) self.new) }
    {
        self.fetch(&waiting.notes, &path, files)?;
        self.read_there(no, waiting, path, by, files)
    }

    #[tactic(auto, using(pie_files::proofs::Reading::reads, crate::proofs::Growing::noted_below))]
    fn read_there<F: Files>(
        &mut self,
        no: TaskNo,
        waiting: Waiting<'a>,
        path: Path,
        by: By,
        files: &mut F,
    ) -> Result<Turn<'a>, FilesError>
        requires { IsAsking self.old no.0 waiting }
        ensures turns { IfOk result (TurnsTo self.new) }
        ensures nearer { IfOk result (Nearer (below self.old + (2 * waiting.entry.notes.left + 1)) self.new) }
        ensures fits { IfOk result (Fits (room self.old) self.new) }
        ensures kept { OnOk result (Keeps self.old self.new) }
        ensures marks { IfOk result (GoesMarked self.old self.new) }
        ensures reads { ReadsOnly F.holds F.moment F.left_since F.images F.faults files.old files.new result }
        ensures right { IfOk result (LooksSo (F.holds files.old) self.old waiting.entry (events.Read path by) path self.new) }
    {
        let told = waiting.read(self.alloc, &self.sight(), path, by, files)?;
        Ok(self.told(no, told)?)
    }

    #[tactic(auto, using(crate::proofs::Twice::reads_then, crate::proofs::Growing::noted_below))]
    fn digest<F: Files>(
        &mut self,
        no: TaskNo,
        waiting: Waiting<'a>,
        path: Path,
        files: &mut F,
    ) -> Result<Turn<'a>, FilesError>
        requires { IsAsking self.old no.0 waiting }
        ensures turns { IfOk result (TurnsTo self.new) }
        ensures nearer { IfOk result (Nearer (below self.old + (2 * waiting.entry.notes.left + 1)) self.new) }
        ensures fits { IfOk result (Fits (room self.old) self.new) }
        ensures kept { OnOk result (Keeps self.old self.new) }
        ensures marks { IfOk result (GoesMarked self.old self.new) }
        ensures reads { ReadsOnly F.holds F.moment F.left_since F.images F.faults files.old files.new result }
        ensures right { IfOk result (AsksSo (F.holds files.old) self.old waiting.entry (events.Digest path) self.new) }
    {
        self.fetch(&waiting.notes, &path, files)?;
        self.digest_there(no, waiting, path, files)
    }

    #[tactic(auto, using(pie_files::proofs::Reading::reads, crate::proofs::Growing::noted_below))]
    fn digest_there<F: Files>(
        &mut self,
        no: TaskNo,
        waiting: Waiting<'a>,
        path: Path,
        files: &mut F,
    ) -> Result<Turn<'a>, FilesError>
        requires { IsAsking self.old no.0 waiting }
        ensures turns { IfOk result (TurnsTo self.new) }
        ensures nearer { IfOk result (Nearer (below self.old + (2 * waiting.entry.notes.left + 1)) self.new) }
        ensures fits { IfOk result (Fits (room self.old) self.new) }
        ensures kept { OnOk result (Keeps self.old self.new) }
        ensures marks { IfOk result (GoesMarked self.old self.new) }
        ensures reads { ReadsOnly F.holds F.moment F.left_since F.images F.faults files.old files.new result }
        ensures right { IfOk result (LooksSo (F.holds files.old) self.old waiting.entry (events.Digest path) path self.new) }
    {
        let told = waiting.digest(&self.sight(), path, files)?;
        Ok(self.told(no, told)?)
    }

    #[tactic(auto, using(pie_files::proofs::Reading::reads))]
    fn list<F: Files>(
        &mut self,
        no: TaskNo,
        waiting: Waiting<'a>,
        dir: Path,
        files: &mut F,
    ) -> Result<Turn<'a>, FilesError>
        requires { IsAsking self.old no.0 waiting }
        ensures turns { IfOk result (TurnsTo self.new) }
        ensures nearer { IfOk result (Nearer (below self.old + (2 * waiting.entry.notes.left + 1)) self.new) }
        ensures fits { IfOk result (Fits (room self.old) self.new) }
        ensures kept { OnOk result (Keeps self.old self.new) }
        ensures marks { IfOk result (GoesMarked self.old self.new) }
        ensures reads { ReadsOnly F.holds F.moment F.left_since F.images F.faults files.old files.new result }
        ensures right { IfOk result (AsksSo (F.holds files.old) self.old waiting.entry (events.List dir) self.new) }
    {
        let told = waiting.list(self.alloc, dir, files)?;
        Ok(self.told(no, told)?)
    }

    fn write(
        &mut self,
        no: TaskNo,
        waiting: Waiting<'a>,
        path: Path,
        bytes: Blob,
    ) -> Result<Turn<'a>, OutOfMemory>
        requires { IsAsking self.old no.0 waiting }
        ensures turns { IfOk result (TurnsTo self.new) }
        ensures nearer { IfOk result (Nearer (below self.old + (2 * waiting.entry.notes.left + 1)) self.new) }
        ensures fits { IfOk result (Fits (room self.old) self.new) }
        ensures kept { OnOk result (Keeps self.old self.new) }
        ensures marks { IfOk result (GoesMarked self.old self.new) }
        ensures right { IfOk result (ActsSo self.old waiting.entry (events.Write path bytes) self.new) }
    {
        let told = waiting.write(self.alloc, &mut self.stage, path, &bytes)?;
        self.told(no, told)
    }

    // The task goes on as it was told, or fails.
    fn told(&mut self, no: TaskNo, told: Told<'a>) -> Result<Turn<'a>, OutOfMemory>
        requires entered { StandsWith self.old no.0 }
        requires goes { MayGo self.old told }
        ensures turns { IfOk result (TurnsTo self.new) }
        ensures nearer { IfOk result (Nearer (below self.old + told_mass told.entry) self.new) }
        ensures fits { IfOk result (Fits (room self.old) self.new) }
        ensures kept { OnOk result (Keeps self.old self.new) }
        ensures marks { IfOk result (GoesMarked self.old self.new) }
        ensures right { IfOk result (ToldSo self.old no.0 told.entry self.new) }
    {
        match told {
            Told::Goes(task) => Ok(Turn::Goes(Hand::Runs(task))),
            Told::Fails(_, kind) => self.fail(no, kind),
        }
    }
}
