//! The machine: it runs code up to the next effect, and waits for the answer.
ghost use Rattle.std.specs.Prelude.{◌≡◌, List, [], ◌∷◌, ◌++◌, ◌-◌, length, IfOk, OnOk, OnErr};
ghost use Rattle.pie_value.specs.declared.event.Answer.{Answer};
ghost use Rattle.pie_value.specs.Tree.{Tree};
ghost use Rattle.pie_code.specs.Running.{start, units};
ghost use Rattle.pie_operators.specs.Domain.{at_start};
ghost use Rattle.pie_vm.specs.Steps.{outcome_of};
ghost use Rattle.pie_code.specs.Coming.{CodeNext};
ghost use Rattle.pie_vm.specs.Machines.{Asks, Belongs, Follows, phase_after};
ghost use Rattle.pie_code.specs.declared.code.Code.{Code};

use crate::{Frame, PathSet, Runs, Slots, Stack};
use pie_base::OutOfMemory;
use pie_code::{Checked, Code};
use pie_value::{Answer, Event, Task};
use std::alloc::Global;
use std::marker::Model;

/// Whether a machine can go on.
#[derive(Clone, Copy, Debug, PartialEq, Eq)]
pub enum MachineState {
    /// It can go on.
    Ready,
    /// It waits for an answer.
    Waiting,
    /// It has ended, or memory ran out.
    Over,
}

/// A machine that runs the code of a task. It keeps no reference to the code.
#[derive(Drop)]
pub struct Machine {
    state: MachineState,
    // Boxed, so that a machine that waits or goes on is moved as a word.
    frame: Box<Frame>,
}

impl Model for Machine {
    ghost use Rattle.pie_vm.specs.Machines.{Standing};
    ghost use Rattle.pie_vm.specs.ConfigCodes.{coded_standing};

    ghost Value = { Standing };

    ghost coded = { coded_standing };

    ghost view = { λ m. record { phase = m.state; config = m.frame.value } };

    ghost use Rattle.pie_vm.specs.Machines.{Unanswered};

    ghost invariant = { λ m. Unanswered m.state m.frame.value.state.answers };
}

impl Machine {
    /// A machine at the start of the code, with the task's arguments. The task is added to the runs.
    #[tactic(auto, using(crate::proofs::Leading::begun_stands))]
    pub fn start(
        alloc: Global,
        code: &Checked,
        task: &Task,
        runs: &mut Runs,
    ) -> Result<Machine, OutOfMemory>
        requires { length task.now.args ≡ code.now.params }
        ensures begun { IfOk result (λ m. m ≡ record { phase = MachineState.Ready; config = start code.now task.now.args [] }) }
        ensures belongs { IfOk result (λ m. Belongs code.now m) }
        ensures runs { OnOk result (runs.new ≡ runs.old ++ task.now ∷ []) }
        ensures unchanged { OnErr result (runs.new ≡ runs.old) }
    {
        let slots = slots_of(alloc, code.code(), task)?;
        let frame = Box::new(alloc, begin(alloc, slots))?;
        let task = task.copy()?;
        runs.add(task)?;
        Ok(Machine {
            state: MachineState::Ready,
            frame,
        })
    }

    /// Runs up to the next effect or to the end. After out of memory the machine is over.
    #[tactic(auto, using(crate::proofs::Walks::next_turn))]
    pub fn next(&mut self, code: &Checked) -> Result<Event, OutOfMemory>
        requires ready { self.old.phase ≡ MachineState.Ready }
        requires belongs { Belongs code.now self.old }
        ensures event { IfOk result (λ e. (args : List Tree) (answers : List Answer) → Follows code.now args answers self.old
            → CodeNext code.now args answers (outcome_of e, self.new.config.state)) }
        ensures follows { IfOk result (λ e. (args : List Tree) (answers : List Answer) → Follows code.now args answers self.old
            → Asks (outcome_of e) (Follows code.now args answers self.new)) }
        ensures belongs { IfOk result (λ e. Asks (outcome_of e) (Belongs code.now self.new)) }
        ensures phase { IfOk result (λ e. self.new.phase ≡ phase_after (outcome_of e)) }
        ensures over { OnErr result (self.new.phase ≡ MachineState.Over) }
    {
        self.state = MachineState::Over;
        let event = self.frame.run(code.code())?;
        self.state = state_after(&event);
        Ok(event)
    }

    /// Gives the answer to the effect that the machine waits for. Where the answer is of another kind, the next
    /// event is the fault Unknown.
    #[tactic(auto, using(crate::proofs::Leading::answer_leads, crate::proofs::Leading::answer_stands))]
    pub fn answer(&mut self, answer: Answer)
        requires { self.old.phase ≡ MachineState.Waiting }
        ensures follows { (code : Code) (args : List Tree) (answers : List Answer) → Follows code args answers self.old
            → Follows code args (answers ++ answer ∷ []) self.new }
        ensures belongs { (code : Code) → Belongs code self.old → Belongs code self.new }
        ensures phase { self.new.phase ≡ MachineState.Ready }
    {
        self.frame.give(answer);
        self.state = MachineState::Ready;
    }

    /// Whether the machine can go on.
    pub fn state(&self) -> MachineState
        ensures { result ≡ self.now.phase }
    {
        self.state
    }

    /// How many ticks were counted.
    pub fn ticks(&self) -> u32
        ensures { result ≡ self.now.config.state.ticks }
    {
        self.frame.ticks
    }
}

// Whether a machine can go on after this event.
fn state_after(event: &Event) -> MachineState
    ensures { result ≡ phase_after (outcome_of event.now) }
{
    match event {
        Event::Done(_) | Event::Fail(_) => MachineState::Over,
        _ => MachineState::Waiting,
    }
}

// The slots at the start of the code, with the task's arguments.
fn slots_of(alloc: Global, code: &Code, task: &Task) -> Result<Slots, OutOfMemory>
    ensures { IfOk result (λ s. s ≡ task.now.args ++ units (code.now.slots - code.now.params)) }
{
    Slots::new(alloc, &task.args, code.slots.saturating_sub(code.params))
}

// Where running begins with these slots.
fn begin(alloc: Global, slots: Slots) -> Frame
    ensures { result ≡ record { at = 0; stack = []; slots = slots; state = at_start [] } }
{
    Frame {
        alloc,
        at: 0,
        stack: Stack::new(alloc),
        slots,
        answer: None,
        seen: PathSet::new(alloc),
        wrote: PathSet::new(alloc),
        ticks: 0,
    }
}
