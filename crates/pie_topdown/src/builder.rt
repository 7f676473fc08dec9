//! A build between two steps, and its steps.
ghost use Rattle.std.specs.Prelude.{◌+◌, IfOk, OnOk};
ghost use Rattle.pie_topdown.specs.inner.Calling.{ResumesSo};
ghost use Rattle.pie_topdown.specs.inner.Frames.{IsSite};
ghost use Rattle.pie_topdown.specs.inner.Right.{StepsRight};
ghost use Rattle.pie_topdown.specs.inner.Marks.{MarksBy};
ghost use Rattle.pie_topdown.specs.inner.Steps.{KeepsMarked, OnlyAsks, SpendsTo, StartsWithin};
ghost use Rattle.pie_topdown.specs.inner.Trying.{HoldsTried, StepsTried};
ghost use Rattle.pie_topdown.specs.inner.Turns.{Stands, TurnsTo, hand_mass, below, Nearer, hand_room, room, Fits};
ghost use Rattle.pie_topdown.specs.inner.Unoffered.{HoldsOwn, StepsOwn};

use crate::hand::{Frame, Hand, Turn};
use crate::ledger::Ledger;
use crate::plan::Plan;
use pie_base::OutOfMemory;
use pie_files::{Files, FilesError};
use pie_graph::TaskNo;
use pie_named::Named;
use pie_store::Offers;
use pie_value::Refusal;
use pie_view::Stage;
use pie_vm::Runs;
use std::alloc::Global;

/// A build between two steps. After a call that fails it is of no use.
#[derive(Drop)]
pub(crate) struct Builder<'a> {
    pub(crate) alloc: Global,
    pub(crate) plan: Plan<'a>,
    pub(crate) ledger: Ledger,
    pub(crate) stage: Stage,
    /// What was asked of the files.
    pub(crate) named: Named,
    /// What waits, each for the one above it, the last for what is in hand.
    pub(crate) stack: Vec<Frame<'a>>,
    /// Why the first task failed, if one did. The records of tasks that failed say only that, and how.
    pub(crate) failure: Option<Refusal>,
    /// The tasks that ended with an offered record, in order.
    pub(crate) reused: Vec<TaskNo>,
}

impl<'a> Builder<'a> {
    /// One step: an entered task begins, a record is compared in one place, a task runs up to its next event, or what waits goes on.
    #[tactic(auto, using(pie_files::proofs::Reading::reads))]
    pub(crate) fn step<F: Files, O: Offers>(
        &mut self,
        hand: Hand<'a>,
        offers: &mut O,
        files: &mut F,
        runs: &mut Runs,
    ) -> Result<Turn<'a>, FilesError>
        requires { Stands self.old hand }
        ensures steps { IfOk result (SpendsTo (below self.old + hand_mass hand.entry) (room self.old + hand_room hand.entry) self.old runs.old runs.new self.new) }
        ensures starts { StartsWithin (room self.old + hand_room hand.entry) runs.old runs.new }
        ensures marks { OnOk result (MarksBy self.old hand.entry self.new runs.old runs.new) }
        ensures asks { OnlyAsks F.holds F.moment F.left_since F.images F.faults O.told files.old files.new offers.old offers.new result }
        ensures own { IfOk result (StepsOwn (F.holds files.old) (O.told offers.old) self.old hand.entry self.new) }
        ensures tried { IfOk result (StepsTried (F.holds files.old) (O.told offers.old) self.old hand.entry self.new runs.old runs.new) }
        ensures right { IfOk result (StepsRight (F.holds files.old) (O.told offers.old) self.old hand.entry self.new) }
    {
        match hand {
            Hand::Enters(no, code) => self.begin(no, code, offers, files, runs),
            Hand::Checks(check) => self.check(check, offers, files, runs),
            Hand::Runs(task) => self.event(task, files),
            Hand::Ended => Ok(self.resume()?),
        }
    }

    // What waits for a task that has ended goes on.
    fn resume(&mut self) -> Result<Turn<'a>, OutOfMemory>
        requires { IsSite self.old }
        ensures turns { IfOk result (TurnsTo self.new) }
        ensures nearer { IfOk result (Nearer (below self.old) self.new) }
        ensures fits { IfOk result (Fits (room self.old) self.new) }
        ensures kept { OnOk result (KeepsMarked self.old self.new) }
        ensures own { IfOk result (HoldsOwn self.old self.new) }
        ensures tried { IfOk result (HoldsTried self.old self.new) }
        ensures right { IfOk result (ResumesSo self.old self.new) }
    {
        match self.stack.pop() {
            Some(Frame::Checks(check)) => Ok(Turn::Goes(Hand::Checks(check))),
            Some(Frame::Waits(caller)) => self.answer_again(caller),
            None => Ok(Turn::Rests),
        }
    }
}
