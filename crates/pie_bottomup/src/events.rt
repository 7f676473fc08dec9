//! Events of the task that runs.
ghost use Rattle.std.specs.Prelude.{◌+◌, ◌*◌, IfOk, OnOk};
ghost use Rattle.pie_files.specs.Reading.{ReadsOnly};
ghost use Rattle.pie_bottomup.specs.inner.Going.{AsksWhole, GoesWhole, LooksWhole, ToldWhole};
ghost use Rattle.pie_bottomup.specs.inner.Asked.{GoesAsking, IsAskedBy};
ghost use Rattle.pie_named.specs.Asking.{AsksFor};
ghost use Rattle.pie_value.specs.declared.event.Event.TheVariants as events;
ghost use Rattle.pie_bottomup.specs.inner.States.{Awaits, IsTaken, IsTreated, MayGo, GoesTo, Keeps, Nearer, rest, told_mass};

use crate::state::{Core, InHand, Turn};
use pie_base::{FaultKind, OutOfMemory, Path};
use pie_files::{Files, FilesError};
use pie_graph::TaskNo;
use pie_running::{Paused, Told, Waiting};
use pie_value::{By, Event};

impl<'a> Core<'a> {
    /// One event of the task that runs.
    #[tactic(auto, using(pie_files::proofs::Reading::reads))]
    pub(crate) fn event<F: Files>(
        &mut self,
        hand: InHand<'a>,
        files: &mut F,
    ) -> Result<Turn, FilesError>
        requires { IsTreated self.old hand }
        ensures turns { IfOk result (GoesTo self.new) }
        ensures nearer { IfOk result (Nearer (rest self.old + 2 * hand.entry.task.notes.left + 1) self.new) }
        ensures kept { OnOk result (Keeps self.old self.new) }
        ensures reads { ReadsOnly F.holds F.moment F.left_since F.images F.faults files.old files.new result }
        ensures whole { IfOk result (GoesWhole (F.holds files.old) self.old hand.entry self.new) }
        ensures asks { GoesAsking self.old hand.entry (F.asked files.old) (F.asked files.new) }
    {
        let InHand { no, from, task } = hand;
        match task.next()? {
            Paused::Asks(waiting, event) => self.treat(no, from, waiting, event, files),
            Paused::Ends(notes, output) => Ok(self.done(no, from, notes, output)?),
            Paused::Fails(notes, kind) => Ok(self.fail(no, from, notes, kind)?),
        }
    }

    // An event that asks.
    #[tactic(auto, using(pie_files::proofs::Reading::reads))]
    fn treat<F: Files>(
        &mut self,
        no: TaskNo,
        from: usize,
        waiting: Waiting<'a>,
        event: Event,
        files: &mut F,
    ) -> Result<Turn, FilesError>
        requires { Awaits self.old no from waiting }
        ensures turns { IfOk result (GoesTo self.new) }
        ensures nearer { IfOk result (Nearer (rest self.old + 2 * waiting.entry.notes.left + 1) self.new) }
        ensures kept { OnOk result (Keeps self.old self.new) }
        ensures reads { ReadsOnly F.holds F.moment F.left_since F.images F.faults files.old files.new result }
        ensures whole { IfOk result (AsksWhole (F.holds files.old) self.old no from waiting.entry event self.new) }
        ensures asks { AsksFor (IsAskedBy event) (F.asked files.old) (F.asked files.new) }
    {
        match event {
            Event::Exists(path) => self.exists(no, from, waiting, path, files),
            Event::Read(path, by) => self.read(no, from, waiting, path, by, files),
            Event::Digest(path) => self.digest(no, from, waiting, path, files),
            Event::List(dir) => self.list(no, from, waiting, dir, files),
            Event::Write(path, bytes) => {
                let told = waiting.write(self.alloc, &mut self.stage, path, &bytes)?;
                Ok(self.told(no, from, told)?)
            }
            Event::Require(task, how) => Ok(self.require(no, from, waiting, task, how)?),
            Event::Done(_) | Event::Fail(_) => {
                Ok(self.fail(no, from, waiting.into_notes(), FaultKind::Unknown)?)
            }
        }
    }

    #[tactic(auto, using(crate::proofs::Twice::reads_then))]
    fn exists<F: Files>(
        &mut self,
        no: TaskNo,
        from: usize,
        waiting: Waiting<'a>,
        path: Path,
        files: &mut F,
    ) -> Result<Turn, FilesError>
        requires { Awaits self.old no from waiting }
        ensures turns { IfOk result (GoesTo self.new) }
        ensures nearer { IfOk result (Nearer (rest self.old + 2 * waiting.entry.notes.left + 1) self.new) }
        ensures kept { OnOk result (Keeps self.old self.new) }
        ensures reads { ReadsOnly F.holds F.moment F.left_since F.images F.faults files.old files.new result }
        ensures whole { IfOk result (AsksWhole (F.holds files.old) self.old no from waiting.entry (events.Exists path) self.new) }
        ensures asks { AsksFor (IsAskedBy (events.Exists path)) (F.asked files.old) (F.asked files.new) }
    {
        self.fetch(no, from, &path, files)?;
        self.exists_there(no, from, waiting, path, files)
    }

    #[tactic(auto, using(pie_files::proofs::Reading::reads))]
    fn exists_there<F: Files>(
        &mut self,
        no: TaskNo,
        from: usize,
        waiting: Waiting<'a>,
        path: Path,
        files: &mut F,
    ) -> Result<Turn, FilesError>
        requires { Awaits self.old no from waiting }
        ensures turns { IfOk result (GoesTo self.new) }
        ensures nearer { IfOk result (Nearer (rest self.old + 2 * waiting.entry.notes.left + 1) self.new) }
        ensures kept { OnOk result (Keeps self.old self.new) }
        ensures reads { ReadsOnly F.holds F.moment F.left_since F.images F.faults files.old files.new result }
        ensures whole { IfOk result (LooksWhole (F.holds files.old) self.old no from waiting.entry (events.Exists path) path self.new) }
        ensures asks { AsksFor (IsAskedBy (events.Exists path)) (F.asked files.old) (F.asked files.new) }
    {
        let told = waiting.exists(&self.sight(no, from), path, files)?;
        Ok(self.told(no, from, told)?)
    }

    #[tactic(auto, using(crate::proofs::Twice::reads_then))]
    fn read<F: Files>(
        &mut self,
        no: TaskNo,
        from: usize,
        waiting: Waiting<'a>,
        path: Path,
        by: By,
        files: &mut F,
    ) -> Result<Turn, FilesError>
        requires { Awaits self.old no from waiting }
        ensures turns { IfOk result (GoesTo self.new) }
        ensures nearer { IfOk result (Nearer (rest self.old + 2 * waiting.entry.notes.left + 1) self.new) }
        ensures kept { OnOk result (Keeps self.old self.new) }
        ensures reads { ReadsOnly F.holds F.moment F.left_since F.images F.faults files.old files.new result }
        ensures whole { IfOk result (AsksWhole (F.holds files.old) self.old no from waiting.entry (events.Read path by) self.new) }
        ensures asks { AsksFor (IsAskedBy (events.Read path by)) (F.asked files.old) (F.asked files.new) }
    {
        self.fetch(no, from, &path, files)?;
        self.read_there(no, from, waiting, path, by, files)
    }

    #[tactic(auto, using(pie_files::proofs::Reading::reads))]
    fn read_there<F: Files>(
        &mut self,
        no: TaskNo,
        from: usize,
        waiting: Waiting<'a>,
        path: Path,
        by: By,
        files: &mut F,
    ) -> Result<Turn, FilesError>
        requires { Awaits self.old no from waiting }
        ensures turns { IfOk result (GoesTo self.new) }
        ensures nearer { IfOk result (Nearer (rest self.old + 2 * waiting.entry.notes.left + 1) self.new) }
        ensures kept { OnOk result (Keeps self.old self.new) }
        ensures reads { ReadsOnly F.holds F.moment F.left_since F.images F.faults files.old files.new result }
        ensures whole { IfOk result (LooksWhole (F.holds files.old) self.old no from waiting.entry (events.Read path by) path self.new) }
        ensures asks { AsksFor (IsAskedBy (events.Read path by)) (F.asked files.old) (F.asked files.new) }
    {
        let told = waiting.read(self.alloc, &self.sight(no, from), path, by, files)?;
        Ok(self.told(no, from, told)?)
    }

    #[tactic(auto, using(crate::proofs::Twice::reads_then))]
    fn digest<F: Files>(
        &mut self,
        no: TaskNo,
        from: usize,
        waiting: Waiting<'a>,
        path: Path,
        files: &mut F,
    ) -> Result<Turn, FilesError>
        requires { Awaits self.old no from waiting }
        ensures turns { IfOk result (GoesTo self.new) }
        ensures nearer { IfOk result (Nearer (rest self.old + 2 * waiting.entry.notes.left + 1) self.new) }
        ensures kept { OnOk result (Keeps self.old self.new) }
        ensures reads { ReadsOnly F.holds F.moment F.left_since F.images F.faults files.old files.new result }
        ensures whole { IfOk result (AsksWhole (F.holds files.old) self.old no from waiting.entry (events.Digest path) self.new) }
        ensures asks { AsksFor (IsAskedBy (events.Digest path)) (F.asked files.old) (F.asked files.new) }
    {
        self.fetch(no, from, &path, files)?;
        self.digest_there(no, from, waiting, path, files)
    }

    #[tactic(auto, using(pie_files::proofs::Reading::reads))]
    fn digest_there<F: Files>(
        &mut self,
        no: TaskNo,
        from: usize,
        waiting: Waiting<'a>,
        path: Path,
        files: &mut F,
    ) -> Result<Turn, FilesError>
        requires { Awaits self.old no from waiting }
        ensures turns { IfOk result (GoesTo self.new) }
        ensures nearer { IfOk result (Nearer (rest self.old + 2 * waiting.entry.notes.left + 1) self.new) }
        ensures kept { OnOk result (Keeps self.old self.new) }
        ensures reads { ReadsOnly F.holds F.moment F.left_since F.images F.faults files.old files.new result }
        ensures whole { IfOk result (LooksWhole (F.holds files.old) self.old no from waiting.entry (events.Digest path) path self.new) }
        ensures asks { AsksFor (IsAskedBy (events.Digest path)) (F.asked files.old) (F.asked files.new) }
    {
        let told = waiting.digest(&self.sight(no, from), path, files)?;
        Ok(self.told(no, from, told)?)
    }

    #[tactic(auto, using(pie_files::proofs::Reading::reads))]
    fn list<F: Files>(
        &mut self,
        no: TaskNo,
        from: usize,
        waiting: Waiting<'a>,
        dir: Path,
        files: &mut F,
    ) -> Result<Turn, FilesError>
        requires { Awaits self.old no from waiting }
        ensures turns { IfOk result (GoesTo self.new) }
        ensures nearer { IfOk result (Nearer (rest self.old + 2 * waiting.entry.notes.left + 1) self.new) }
        ensures kept { OnOk result (Keeps self.old self.new) }
        ensures reads { ReadsOnly F.holds F.moment F.left_since F.images F.faults files.old files.new result }
        ensures whole { IfOk result (AsksWhole (F.holds files.old) self.old no from waiting.entry (events.List dir) self.new) }
        ensures asks { AsksFor (IsAskedBy (events.List dir)) (F.asked files.old) (F.asked files.new) }
    {
        let told = waiting.list(self.alloc, dir, files)?;
        Ok(self.told(no, from, told)?)
    }

    // The task goes on as it was told, or fails.
    fn told(&mut self, no: TaskNo, from: usize, told: Told<'a>) -> Result<Turn, OutOfMemory>
        requires taken { IsTaken self.old no }
        requires goes { MayGo self.old no from told }
        ensures turns { IfOk result (GoesTo self.new) }
        ensures nearer { IfOk result (Nearer (rest self.old + told_mass told.entry) self.new) }
        ensures kept { OnOk result (Keeps self.old self.new) }
        ensures whole { IfOk result (ToldWhole self.old no from told.entry self.new) }
    {
        match told {
            Told::Goes(task) => {
                self.hand = Some(InHand { no, from, task });
                Ok(Turn::Went)
            }
            Told::Fails(notes, kind) => self.fail(no, from, notes, kind),
        }
    }
}
