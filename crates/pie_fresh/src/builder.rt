//! The evaluation of a root: one event of the running task after another.
ghost use Rattle.std.specs.Prelude.{◌≡◌, ◌+◌, [], None, IfOk};
ghost use Rattle.pie_value.specs.Canonical.{IsEncodableTask};
ghost use Rattle.pie_files.specs.Reading.{ReadsOnly};
ghost use Rattle.pie_named.specs.Asking.{AsksFor};
ghost use Rattle.pie_fresh.specs.inner.Ledgers.{EntersAndStarts, IsNew};
ghost use Rattle.pie_running.specs.inner.Steps.{IsEffect};
ghost use Rattle.pie_fresh.specs.inner.Frames.{AwaitsAnswer, HasEvaluated, IsIdle, Running};
ghost use Rattle.pie_fresh.specs.inner.Turns.{StepsTo, below_left};
ghost use Rattle.pie_fresh.specs.inner.Means.{TreatsAs, TurnsAs, RunsAs, BeginsAs};
ghost use Rattle.pie_fresh.specs.inner.Asked.{BeginsAsking, IsAskedBy, RunsAsking, TurnsAsking};
ghost use Rattle.pie_fresh.specs.Cleans.{NoRootsDone, EvaluatesRoot};

use crate::ledger::Ledger;
use crate::turn::{Turn, failed, fault};
use pie_base::FaultKind;
use pie_code::Checked;
use pie_files::{Files, FilesError};
use pie_running::{Caller, Paused, RunningTask, Waiting};
use pie_types::Typed;
use pie_value::{Event, Refusal, Task};
use pie_vm::Runs;
use std::alloc::Global;

/// A build under way. The task that runs stands beside it.
#[derive(Drop)]
pub(crate) struct Builder<'a> {
    pub(crate) alloc: Global,
    pub(crate) typed: &'a Typed,
    pub(crate) code: &'a [Checked],
    pub(crate) ledger: Ledger,
    /// The tasks that wait, each for the one above it, the last one for the task that runs.
    pub(crate) stack: Vec<Caller<'a>>,
}

/// What becomes of a task that is entered.
#[derive(Drop)]
pub(crate) enum Entered<'a> {
    Runs(RunningTask<'a>),
    /// It isn't started.
    Refused(Refusal),
}

impl<'a> Builder<'a> {
    /// Nothing was entered yet.
    #[tactic(auto, using(crate::proofs::Entering::idle_none, crate::proofs::Cleaning::begins_empty))]
    pub(crate) fn new(alloc: Global, typed: &'a Typed, code: &'a [Checked]) -> Builder<'a>
        ensures idle { IsIdle result }
        ensures none { result.ledger.names ≡ [] }
        ensures typed { result.typed.now ≡ typed.now }
        ensures begins { NoRootsDone typed.now code.now result }
    {
        Builder {
            alloc,
            typed,
            code,
            ledger: Ledger::new(alloc),
            stack: Vec::new(alloc),
        }
    }

    /// Evaluates a root; why it fails, if it does.
    #[tactic(auto, using(crate::proofs::Growing::started_same, pie_files::proofs::Reading::reads))]
    pub(crate) fn evaluate<F: Files>(
        &mut self,
        root: &Task,
        files: &mut F,
        runs: &mut Runs,
    ) -> Result<Option<Refusal>, FilesError>
        requires { IsIdle self.old }
        ensures done { IfOk result (λ why. why ≡ None → HasEvaluated self.new root.now) }
        ensures small { IfOk result (λ why. why ≡ None → IsEncodableTask root.now) }
        ensures typed { self.new.typed ≡ self.old.typed }
        ensures started { EntersAndStarts self.old.ledger.names self.new.ledger.names runs.old runs.new result }
        ensures reads { ReadsOnly F.holds F.moment F.left_since F.images F.faults files.old files.new result }
        ensures means { IfOk result (λ why. EvaluatesRoot (F.holds files.old) self.old self.new root.now why) }
        ensures asks { BeginsAsking (F.holds files.old) self.old root.now runs.old runs.new (F.asked files.old) (F.asked files.new) }
    {
        if !root.is_small() {
            return Ok(Some(fault(root.copy()?, FaultKind::Big)));
        }
        match self.ledger.names.number(root)? {
            Some(_) => Ok(None),
            None => self.begin(root, files, runs),
        }
    }

    // Evaluates a root that wasn't entered.
    #[tactic(auto, using(pie_files::proofs::Reading::reads))]
    fn begin<F: Files>(
        &mut self,
        root: &Task,
        files: &mut F,
        runs: &mut Runs,
    ) -> Result<Option<Refusal>, FilesError>
        requires idle { IsIdle self.old }
        requires root { IsNew self.old.ledger.names root.now }
        ensures done { IfOk result (λ why. why ≡ None → HasEvaluated self.new root.now) }
        ensures typed { self.new.typed ≡ self.old.typed }
        ensures started { EntersAndStarts self.old.ledger.names self.new.ledger.names runs.old runs.new result }
        ensures reads { ReadsOnly F.holds F.moment F.left_since F.images F.faults files.old files.new result }
        ensures means { IfOk result (λ why. BeginsAs (F.holds files.old) self.old self.new root.now why) }
        ensures asks { BeginsAsking (F.holds files.old) self.old root.now runs.old runs.new (F.asked files.old) (F.asked files.new) }
    {
        match self.enter(root, runs)? {
            Entered::Runs(frame) => self.run(frame, files, runs),
            Entered::Refused(refusal) => Ok(Some(refusal)),
        }
    }

    // Goes on until the root is done or fails.
    #[tactic(auto, using(crate::proofs::Walks::runs, pie_files::proofs::Reading::reads))]
    fn run<F: Files>(
        &mut self,
        frame: RunningTask<'a>,
        files: &mut F,
        runs: &mut Runs,
    ) -> Result<Option<Refusal>, FilesError>
        requires { Running self.old frame }
        ensures idle { IfOk result (λ why. why ≡ None → IsIdle self.new) }
        ensures typed { self.new.typed ≡ self.old.typed }
        ensures started { EntersAndStarts self.old.ledger.names self.new.ledger.names runs.old runs.new result }
        ensures reads { ReadsOnly F.holds F.moment F.left_since F.images F.faults files.old files.new result }
        ensures means { IfOk result (λ why. RunsAs (F.holds files.old) self.old self.new frame.entry why) }
        ensures asks { RunsAsking (F.holds files.old) self.old frame.entry runs.old runs.new (F.asked files.old) (F.asked files.new) }
    {
        let mut frame = frame;
        'turns: loop {
            match self.turn(frame, files, runs)? {
                Turn::Goes(next) => frame = next,
                Turn::Rests => return Ok(None),
                Turn::Stops(refusal) => return Ok(Some(refusal)),
            }
        }
    }

    // One event of the running task.
    #[tactic(auto, using(crate::proofs::Growing::started_same, pie_files::proofs::Reading::reads))]
    fn turn<F: Files>(
        &mut self,
        frame: RunningTask<'a>,
        files: &mut F,
        runs: &mut Runs,
    ) -> Result<Turn<'a>, FilesError>
        requires { Running self.old frame }
        ensures steps { IfOk result (λ t. StepsTo (below_left self.old + frame.entry.notes.left + 1) self.new t) }
        ensures typed { self.new.typed ≡ self.old.typed }
        ensures started { EntersAndStarts self.old.ledger.names self.new.ledger.names runs.old runs.new result }
        ensures reads { ReadsOnly F.holds F.moment F.left_since F.images F.faults files.old files.new result }
        ensures means { IfOk result (λ t. TurnsAs (F.holds files.old) self.old self.new frame.entry t) }
        ensures asks { TurnsAsking (F.holds files.old) self.old frame.entry (F.asked files.old) (F.asked files.new) }
    {
        match frame.next()? {
            Paused::Asks(waiting, event) => self.treat(waiting, event, files, runs),
            Paused::Ends(notes, output) => Ok(self.finish(notes, output)?),
            Paused::Fails(notes, kind) => Ok(failed(notes.into_task(), kind)),
        }
    }

    // An event that asks.
    #[tactic(auto, using(crate::proofs::Walks::treats, pie_files::proofs::Reading::reads))]
    fn treat<F: Files>(
        &mut self,
        waiting: Waiting<'a>,
        event: Event,
        files: &mut F,
        runs: &mut Runs,
    ) -> Result<Turn<'a>, FilesError>
        requires awaits { AwaitsAnswer self.old waiting }
        requires effect { IsEffect event }
        ensures steps { IfOk result (λ t. StepsTo (below_left self.old + waiting.entry.notes.left + 1) self.new t) }
        ensures typed { self.new.typed ≡ self.old.typed }
        ensures started { EntersAndStarts self.old.ledger.names self.new.ledger.names runs.old runs.new result }
        ensures reads { ReadsOnly F.holds F.moment F.left_since F.images F.faults files.old files.new result }
        ensures means { IfOk result (λ t. TreatsAs (F.holds files.old) self.old self.new waiting.entry event t) }
        ensures asks { AsksFor (IsAskedBy event) (F.asked files.old) (F.asked files.new) }
    {
        match event {
            Event::Exists(path) => self.exists(waiting, path, files),
            Event::Read(path, by) => self.read(waiting, path, by, files),
            Event::Digest(path) => self.digest(waiting, path, files),
            Event::List(dir) => self.list(waiting, dir, files),
            Event::Write(path, bytes) => Ok(self.write(waiting, path, bytes)?),
            Event::Require(task, how) => Ok(self.require(waiting, task, how, runs)?),
            Event::Done(_) | Event::Fail(_) => Ok(failed(waiting.into_task(), FaultKind::Unknown)),
        }
    }
}
