//! The roots, one after another.
ghost use Rattle.std.specs.Prelude.{◌≡◌, ◌≤◌, ◌+◌, length, None, true, false, IfOk, OnOk};
ghost use Rattle.std.specs.Option.{option_map_or};
ghost use Rattle.pie_results.specs.inner.Failures.{is_done as specs_is_done};
ghost use Rattle.pie_value.specs.Canonical.{IsEncodableTask};
ghost use Rattle.pie_topdown.specs.inner.Frames.{IsSite};
ghost use Rattle.pie_topdown.specs.inner.Places.{IsNew};
ghost use Rattle.pie_topdown.specs.inner.Right.{lost};
ghost use Rattle.pie_topdown.specs.inner.Roots.{IsSettledRoot, AreSettled, Started};
ghost use Rattle.pie_topdown.specs.inner.Settled.{EndsRoot, EndsRoots, EndsSteps, HasSettled, MayGainRoot, StandsBefore};
ghost use Rattle.pie_topdown.specs.inner.Steps.{OnlyAsks};
ghost use Rattle.pie_topdown.specs.inner.Turns.{Stands, hand_room, room, Keeps};

use crate::begin::is_done;
use crate::builder::Builder;
use crate::entering::Entry;
use crate::hand::{Hand, Turn};
use pie_base::{FaultKind, OutOfMemory};
use pie_code::Checked;
use pie_files::{Files, FilesError};
use pie_record::Outcome;
use pie_store::Offers;
use pie_value::{Fault, Refusal, Task, encode_task};
use pie_vm::Runs;

impl<'a> Builder<'a> {
    /// Settles the roots up to the first that fails; why it does.
    #[tactic(auto, using(pie_files::proofs::Reading::reads, crate::proofs::Turning::none_settled, crate::proofs::Totals::none_ran, crate::proofs::Owning::own_none))]
    pub(crate) fn settle_all<F: Files, O: Offers>(
        &mut self,
        roots: &[Task],
        offers: &mut O,
        files: &mut F,
        runs: &mut Runs,
    ) -> Result<Option<Refusal>, FilesError>
        requires { StandsBefore self.old roots.now }
        ensures site { IfOk result (λ why. why ≡ None → IsSite self.new) }
        ensures settled { IfOk result (λ why. why ≡ None → AreSettled self.new.ledger roots.now) }
        ensures plan { OnOk result (self.new.plan ≡ self.old.plan) }
        ensures started { Started runs.old runs.new }
        ensures few { length runs.new ≤ length runs.old + room self.old }
        ensures asks { OnlyAsks F.holds F.moment F.left_since F.images F.faults O.told files.old files.new offers.old offers.new result }
        ensures ends { IfOk result (EndsRoots (F.holds files.old) (O.told offers.old) self.old roots.now self.new runs.old runs.new) }
    {
        for root in roots {
            match self.settle(root, offers, files, runs)? {
                Some(refusal) => return Ok(Some(refusal)),
                None => {}
            }
        }
        Ok(None)
    }

    // Settles a root; why it fails, if it does.
    #[tactic(auto, using(pie_files::proofs::Reading::reads))]
    fn settle<F: Files, O: Offers>(
        &mut self,
        root: &Task,
        offers: &mut O,
        files: &mut F,
        runs: &mut Runs,
    ) -> Result<Option<Refusal>, FilesError>
        requires site { IsSite self.old }
        requires root { IsEncodableTask root.now }
        ensures settled { IfOk result (λ why. why ≡ None → HasSettled self.old root.now runs.old runs.new self.new) }
        ensures plan { OnOk result (self.new.plan ≡ self.old.plan) }
        ensures started { Started runs.old runs.new }
        ensures few { length runs.new ≤ length runs.old + room self.old }
        ensures asks { OnlyAsks F.holds F.moment F.left_since F.images F.faults O.told files.old files.new offers.old offers.new result }
        ensures ends { IfOk result (EndsRoot (F.holds files.old) (O.told offers.old) self.old root.now self.new runs.old runs.new) }
    {
        match self.ledger.tables.names.number(root)? {
            Some(_no) => Ok(self.unless_done(root)?),
            None => self.settle_new(root, offers, files, runs),
        }
    }

    // Settles a root that wasn't entered.
    #[tactic(auto, using(pie_files::proofs::Reading::reads))]
    fn settle_new<F: Files, O: Offers>(
        &mut self,
        root: &Task,
        offers: &mut O,
        files: &mut F,
        runs: &mut Runs,
    ) -> Result<Option<Refusal>, FilesError>
        requires site { IsSite self.old }
        requires root { IsNew self.old.ledger root.now }
        ensures settled { IfOk result (λ why. why ≡ None → HasSettled self.old root.now runs.old runs.new self.new) }
        ensures plan { OnOk result (self.new.plan ≡ self.old.plan) }
        ensures started { Started runs.old runs.new }
        ensures few { length runs.new ≤ length runs.old + room self.old }
        ensures asks { OnlyAsks F.holds F.moment F.left_since F.images F.faults O.told files.old files.new offers.old offers.new result }
        ensures ends { IfOk result (EndsRoot (F.holds files.old) (O.told offers.old) self.old root.now self.new runs.old runs.new) }
    {
        // The model knows the root by its canonical bytes.
        let _bytes = encode_task(self.alloc, root)?;
        match self.entry(root) {
            Entry::May(code) => self.settle_with(root, code, offers, files, runs),
            Entry::Unknown => Ok(Some(unknown(root.copy()?))),
            Entry::Full => Ok(Some(Refusal::Many)),
        }
    }

    // Settles a root that has this code.
    #[tactic(auto, using(pie_files::proofs::Reading::reads))]
    fn settle_with<F: Files, O: Offers>(
        &mut self,
        root: &Task,
        code: &'a Checked,
        offers: &mut O,
        files: &mut F,
        runs: &mut Runs,
    ) -> Result<Option<Refusal>, FilesError>
        requires { MayGainRoot self.old root.now code.now }
        ensures settled { IfOk result (λ why. why ≡ None → HasSettled self.old root.now runs.old runs.new self.new) }
        ensures plan { OnOk result (self.new.plan ≡ self.old.plan) }
        ensures started { Started runs.old runs.new }
        ensures few { length runs.new ≤ length runs.old + room self.old }
        ensures asks { OnlyAsks F.holds F.moment F.left_since F.images F.faults O.told files.old files.new offers.old offers.new result }
        ensures ends { IfOk result (EndsRoot (F.holds files.old) (O.told offers.old) self.old root.now self.new runs.old runs.new) }
    {
        let no = self.enter(root.copy()?, code)?;
        let rests = self.run(Hand::Enters(no, code), offers, files, runs)?;
        if let Some(why) = self.failure.take() {
            self.start_waiting(runs)?;
            return Ok(Some(why));
        }
        if !rests {
            return Ok(Some(Refusal::Many));
        }
        Ok(self.unless_done(root)?)
    }

    // Goes on until nothing waits, one task more was to be entered than a build may have, or a task failed.
    #[tactic(auto, using(pie_files::proofs::Reading::reads, crate::proofs::Turning::stays_first, crate::proofs::Totals::ran_first, crate::proofs::Owning::own_first))]
    fn run<F: Files, O: Offers>(
        &mut self,
        hand: Hand<'a>,
        offers: &mut O,
        files: &mut F,
        runs: &mut Runs,
    ) -> Result<bool, FilesError>
        requires { Stands self.old hand }
        ensures site { OnOk result (IsSite self.new) }
        ensures kept { OnOk result (Keeps self.old self.new) }
        ensures spends { OnOk result (length runs.new + room self.new ≤ length runs.old + (room self.old + hand_room hand.entry)) }
        ensures started { Started runs.old runs.new }
        ensures few { length runs.new ≤ length runs.old + (room self.old + hand_room hand.entry) }
        ensures asks { OnlyAsks F.holds F.moment F.left_since F.images F.faults O.told files.old files.new offers.old offers.new result }
        ensures ends { IfOk result (EndsSteps (F.holds files.old) (O.told offers.old) self.old hand.entry self.new runs.old runs.new) }
    {
        let mut hand = hand;
        'steps: loop {
            match self.step(hand, offers, files, runs)? {
                Turn::Goes(next) => hand = next,
                Turn::Rests => return Ok(true),
                Turn::Many => return Ok(false),
                Turn::Fails => return Ok(false),
            }
        }
    }

    // Nothing, where a root has an output: it has one wherever no task failed.
    #[tactic(auto, using(crate::proofs::Outputs::output_settles, crate::proofs::Outputs::never_settled))]
    fn unless_done(&self, root: &Task) -> Result<Option<Refusal>, OutOfMemory>
        requires site { IsSite self.now }
        requires root { IsEncodableTask root.now }
        ensures settled { IfOk result (λ why. why ≡ None → IsSettledRoot self.now.ledger root.now) }
        ensures none { IfOk result (λ why. IsSettledRoot self.now.ledger root.now → why ≡ None) }
    {
        let _names = self.ledger.tables.names.as_slice();
        let Some(no) = self.ledger.tables.names.number(root)? else {
            return Ok(Some(unknown(root.copy()?)));
        };
        let outcome = self.ledger.outcome(no)?;
        if has_output(&outcome) {
            return Ok(None);
        }
        Ok(Some(unknown(root.copy()?)))
    }
}

// Whether a task has ended with an output.
fn has_output(outcome: &Option<Outcome>) -> bool
    ensures { result ≡ option_map_or specs_is_done outcome.now false }
{
    match outcome {
        Some(outcome) => is_done(outcome),
        None => false,
    }
}

/// A task is of no function.
pub(crate) fn unknown(task: Task) -> Refusal
    ensures { result ≡ lost task }
{
    Refusal::Fault(Fault {
        task,
        kind: FaultKind::Unknown,
    })
}
