//! Running up to the next event.
ghost use Rattle.std.specs.Prelude.{◌≡◌, [], ◌∷◌, IfOk};
ghost use Rattle.pie_code.specs.Checked.{IsAccepted};
ghost use Rattle.pie_code.specs.Standing.{Stands};
ghost use Rattle.pie_vm.specs.Steps.{outcome_of};
ghost use Rattle.pie_vm.specs.Machines.{Reaches};

use crate::Frame;
use pie_base::OutOfMemory;
use pie_code::Code;
use pie_value::{Answer, Event};

impl Frame {
    /// Leaves an answer for the instruction that asked.
    pub(crate) fn give(&mut self, answer: Answer)
        ensures { self.new ≡ record self.old { state = record self.old.state { answers = answer ∷ [] } } }
    {
        self.answer = Some(answer);
    }

    /// Runs up to the next event. Accepted code evaluates to one.
    #[tactic(auto, using(crate::proofs::Walks::steps_lead))]
    pub(crate) fn run(&mut self, code: &Code) -> Result<Event, OutOfMemory>
        requires accepted { IsAccepted code.now }
        requires stands { Stands code.now self.old }
        ensures { IfOk result (λ e. Reaches code.now self.old (outcome_of e) self.new) }
    {
        'steps: loop {
            match self.step(code)? {
                Some(event) => return Ok(event),
                None => {}
            }
        }
    }
}
