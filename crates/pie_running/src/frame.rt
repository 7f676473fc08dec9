//! A task that runs, and one that waits for an answer.
ghost use Rattle.std.specs.Prelude.{◌≡◌, ◌<◌, ◌∷◌, ◌++◌, [], List, length, IfOk, OnOk, OnErr};
ghost use Rattle.pie_value.specs.Canonical.{IsEncodableTask};
ghost use Rattle.pie_value.specs.declared.event.Answer.{Answer as Given};
ghost use Rattle.pie_vm.specs.Machines.{Asks, Belongs, Follows, phase_after};
ghost use Rattle.pie_vm.specs.Steps.{outcome_of};
ghost use Rattle.pie_vm.specs.declared.machine.MachineState.TheVariants.{Waiting as Waits};
ghost use Rattle.pie_running.specs.inner.Noted.{IsSound};
ghost use Rattle.pie_running.specs.inner.Frames.{IsReady, IsStarted};
ghost use Rattle.pie_running.specs.inner.Steps.{Comes};
ghost use Rattle.pie_running.specs.inner.Told.{EvaluatedTo, ComesAs, IsTold};

use crate::notes::Notes;
use pie_base::{FaultKind, OutOfMemory};
use pie_code::Checked;
use pie_graph::TaskNo;
use pie_value::{Answer, Event, How, Task, Value};
use pie_vm::{Machine, Runs};
use std::alloc::Global;

/// A task that runs: its machine can go on.
#[derive(Drop)]
pub struct RunningTask<'a> {
    pub code: &'a Checked,
    pub machine: Machine,
    pub notes: Notes,
}

/// A task whose machine waits for an answer.
#[derive(Drop)]
pub struct Waiting<'a> {
    pub code: &'a Checked,
    pub machine: Machine,
    pub notes: Notes,
}

/// A task that waits until one that it requires is done.
#[derive(Drop)]
pub struct Caller<'a> {
    pub waiting: Waiting<'a>,
    pub required: Task,
    pub how: How,
}

/// What the machine of a running task gave.
#[derive(Drop)]
pub enum Paused<'a> {
    /// An event that asks.
    Asks(Waiting<'a>, Event),
    /// The output.
    Ends(Notes, Value),
    Fails(Notes, FaultKind),
}

/// What becomes of a task that asked something.
#[derive(Drop)]
pub enum Told<'a> {
    /// It goes on with its answer, which was noted.
    Goes(RunningTask<'a>),
    /// It fails, with what was noted up to here. A look that fails is noted with the stamp Absent, but for that of a file that is too long, whose stamp
    /// no one knows without reading it: that look isn't noted.
    Fails(Notes, FaultKind),
}

impl<'a> RunningTask<'a> {
    /// A task with this code and number before its first event. It is added to the runs.
    pub fn start(
        alloc: Global,
        code: &'a Checked,
        task: &Task,
        no: TaskNo,
        runs: &mut Runs,
    ) -> Result<RunningTask<'a>, OutOfMemory>
        requires takes { length task.now.args ≡ code.now.params }
        requires encodable { IsEncodableTask task.now }
        ensures started { IfOk result (IsStarted code.now task.now no.0) }
        ensures runs { OnOk result (runs.new ≡ runs.old ++ task.now ∷ []) }
        ensures unchanged { OnErr result (runs.new ≡ runs.old) }
    {
        let notes = Notes::new(alloc, task.copy()?, no)?;
        let machine = Machine::start(alloc, code, task, runs)?;
        Ok(RunningTask {
            code,
            machine,
            notes,
        })
    }

    /// Runs the task up to its next event. One that may have no more answers fails.
    pub fn next(self) -> Result<Paused<'a>, OutOfMemory>
        requires { IsReady self }
        ensures comes { IfOk result (λ c. Comes self.entry.notes c) }
        ensures means { IfOk result (λ c. (answers : List Given) → Follows self.entry.code.now self.entry.notes.task.args answers self.entry.machine
            → ComesAs self.entry.code.now self.entry.notes answers c) }
    {
        let RunningTask {
            code,
            mut machine,
            notes,
        } = self;
        if notes.left() == 0 {
            return Ok(Paused::Fails(notes, FaultKind::Budget));
        }
        let event = machine.next(code)?;
        let waiting = Waiting {
            code,
            machine,
            notes,
        };
        Ok(waiting.came(event))
    }
}

impl<'a> Waiting<'a> {
    // What the event says of the task.
    fn came(self, event: Event) -> Paused<'a>
        requires phase { self.machine.phase ≡ phase_after (outcome_of event) }
        requires belongs { Asks (outcome_of event) (Belongs self.code.now self.machine) }
        requires sound { IsSound self.notes }
        requires left { 0 < self.notes.left }
        ensures comes { Comes self.entry.notes result }
        ensures means { (answers : List Given) → EvaluatedTo self.entry.code.now self.entry.notes.task.args answers (outcome_of event)
            → Asks (outcome_of event) (Follows self.entry.code.now self.entry.notes.task.args answers self.entry.machine)
            → ComesAs self.entry.code.now self.entry.notes answers result }
    {
        match event {
            Event::Exists(path) => Paused::Asks(self, Event::Exists(path)),
            Event::Read(path, by) => Paused::Asks(self, Event::Read(path, by)),
            Event::Digest(path) => Paused::Asks(self, Event::Digest(path)),
            Event::List(dir) => Paused::Asks(self, Event::List(dir)),
            Event::Write(path, bytes) => Paused::Asks(self, Event::Write(path, bytes)),
            Event::Require(task, how) => Paused::Asks(self, Event::Require(task, how)),
            Event::Done(output) => Paused::Ends(self.into_notes(), output),
            Event::Fail(kind) => Paused::Fails(self.into_notes(), kind),
        }
    }

    /// What the task has done so far.
    pub fn into_notes(self) -> Notes
        ensures { result ≡ self.entry.notes }
    {
        let Waiting {
            code: _,
            machine: _,
            notes,
        } = self;
        notes
    }

    /// The task with its answer, which was noted.
    pub(crate) fn answered(self, answer: Answer) -> RunningTask<'a>
        requires phase { self.machine.phase ≡ Waits }
        requires belongs { Belongs self.code.now self.machine }
        requires sound { IsSound self.notes }
        ensures ready { IsReady result }
        ensures notes { result.notes ≡ self.entry.notes }
        ensures told { IsTold self.entry result self.entry.notes answer }
    {
        let Waiting {
            code,
            mut machine,
            notes,
        } = self;
        machine.answer(answer);
        RunningTask {
            code,
            machine,
            notes,
        }
    }

    /// The task alone.
    pub fn into_task(self) -> Task
        ensures { result ≡ self.entry.notes.task }
    {
        self.into_notes().into_task()
    }
}
