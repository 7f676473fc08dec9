//! The first step: old records are held against what changed.
ghost use Rattle.std.specs.Prelude.{◌≡◌, ℕ, ◌<◌, false, true, length, slice_index_or, IfOk, OnOk};
ghost use Rattle.pie_bottomup.specs.declared.state.First.TheVariants.{Tests};
ghost use Rattle.pie_bottomup.specs.declared.state.Turn.TheVariants.{Went};
ghost use Rattle.pie_files.specs.Reading.{ReadsOnly};
ghost use Rattle.pie_bottomup.specs.inner.States.{IsDue, IsTested, IsUntested, Keeps, rest};
ghost use Rattle.pie_bottomup.specs.inner.Stepping.{IsUnoccupied, LeavesWhole, StartsFew, StartsRight, StepsTo, TestsAll};
ghost use Rattle.pie_bottomup.specs.inner.Tested.{AreHeld, HasTested, HoldsBy, IsHeld, Learns, LearnsOnly, TaskWasHeld};
ghost use Rattle.pie_bottomup.specs.inner.Asked.{IsTestedPath};
ghost use Rattle.pie_named.specs.Asking.{AsksFor, IsNamedOrAbove};

use crate::flags::flag_of;
use crate::state::{Core, First, Turn};
use pie_base::{MAX_TASKS, OutOfMemory};
use pie_compare::is_touched;
use pie_files::{Files, FilesError};
use pie_graph::TaskNo;
use pie_store::Cause;
use pie_value::Task;
use pie_vm::Runs;
use pie_walk::Mark;

impl<'a> Core<'a> {
    /// Goes on where no task runs: with the first step's tests, or with the walk.
    #[tactic(auto, using(pie_files::proofs::Reading::reads))]
    pub(crate) fn go_on<F: Files>(
        &mut self,
        files: &mut F,
        runs: &mut Runs,
    ) -> Result<Turn, FilesError>
        requires { IsUnoccupied self.old }
        ensures steps { IfOk result (StepsTo (rest self.old) self.new) }
        ensures few { StartsFew self.old runs.old runs.new }
        ensures starts { OnOk result (StartsRight (F.holds files.old) self.old self.new runs.old runs.new) }
        ensures tested { self.old.first ≡ Tests → OnOk result (HasTested (F.holds files.old) self.old self.new) }
        ensures whole { IfOk result (LeavesWhole (F.holds files.old) self.old self.new) }
        ensures asks { AsksFor (IsTestedPath self.old) (F.asked files.old) (F.asked files.new) }
        ensures reads { ReadsOnly F.holds F.moment F.left_since F.images F.faults files.old files.new result }
    {
        match &self.first {
            First::Done => Ok(self.walk_on(runs)?),
            First::Tests => self.begin_tested(files),
            First::TooMany(task) => Ok(Turn::StartAfresh(Cause::UnionMany(
                MAX_TASKS,
                0,
                task.copy()?,
            ))),
        }
    }

    // Tests the old records, and is done with the first step.
    #[tactic(auto, using(pie_files::proofs::Reading::reads))]
    fn begin_tested<F: Files>(&mut self, files: &mut F) -> Result<Turn, FilesError>
        requires untested { IsUntested self.old }
        requires first { self.old.first ≡ Tests }
        ensures steps { IfOk result (StepsTo (rest self.old) self.new) }
        ensures kept { OnOk result (Keeps self.old self.new) }
        ensures tests { OnOk result (TestsAll (F.holds files.old) self.old self.new) }
        ensures went { IfOk result (λ turn. turn ≡ Went) }
        ensures asks { AsksFor (IsNamedOrAbove self.old.named) (F.asked files.old) (F.asked files.new) }
        ensures reads { ReadsOnly F.holds F.moment F.left_since F.images F.faults files.old files.new result }
    {
        self.test_all(files)?;
        self.first = First::Done;
        Ok(Turn::Went)
    }

    // Schedules each old task whose code or record isn't as it was.
    #[tactic(auto, using(pie_files::proofs::Reading::reads, crate::proofs::Asking::tests_none, crate::proofs::FirstStep::tested_on, crate::proofs::FirstStep::due_more))]
    fn test_all<F: Files>(&mut self, files: &mut F) -> Result<(), FilesError>
        requires untested { IsUntested self.old }
        ensures tested { OnOk result (IsTested self.old self.new) }
        ensures due { OnOk result ((n : ℕ) → n < length self.old.frames.walk.rows → IsDue self.new n) }
        ensures learns { OnOk result (LearnsOnly self.old self.new) }
        ensures held { OnOk result (HoldsBy (F.holds files.old) self.old self.new (λ d. AreHeld d self.new (length self.old.frames.walk.rows))) }
        ensures asks { AsksFor (IsNamedOrAbove self.old.named) (F.asked files.old) (F.asked files.new) }
        ensures reads { ReadsOnly F.holds F.moment F.left_since F.images F.faults files.old files.new result }
    {
        let count = self.frames.walk().count();
        for n in 0..count {
            self.test(TaskNo(n), files)?;
        }
        Ok(())
    }

    // Schedules a task whose code or record isn't as it was.
    #[tactic(auto, using(pie_files::proofs::Reading::reads))]
    fn test<F: Files>(&mut self, no: TaskNo, files: &mut F) -> Result<(), FilesError>
        requires untested { IsUntested self.old }
        requires number { no.0 < length self.old.frames.walk.rows }
        ensures tested { OnOk result (IsTested self.old self.new) }
        ensures due { OnOk result (IsDue self.new no.0) }
        ensures learns { OnOk result (LearnsOnly self.old self.new) }
        ensures held { OnOk result (HoldsBy (F.holds files.old) self.old self.new (λ d. IsHeld d self.new no.0)) }
        ensures asks { AsksFor (IsNamedOrAbove self.old.named) (F.asked files.old) (F.asked files.new) }
        ensures reads { ReadsOnly F.holds F.moment F.left_since F.images F.faults files.old files.new result }
    {
        let due = self.is_due(no, files)?;
        if due && self.frames.walk().mark(no) == Mark::New {
            self.frames.schedule(no);
        }
        Ok(())
    }

    // Whether the code of a task is another now, or something that it observed or wrote.
    #[tactic(auto, using(pie_files::proofs::Reading::reads))]
    fn is_due<F: Files>(&mut self, no: TaskNo, files: &mut F) -> Result<bool, FilesError>
        ensures same { self.new ≡ record self.old { named = self.new.named } }
        ensures due { IfOk result (λ due. slice_index_or self.old.plan.same.items no.0 false ≡ false → due ≡ true) }
        ensures learns { OnOk result (Learns self.old self.new) }
        ensures held { IfOk result (λ due. HoldsBy (F.holds files.old) self.old self.new (λ d. TaskWasHeld d self.new no.0 due)) }
        ensures asks { AsksFor (IsNamedOrAbove self.old.named) (F.asked files.old) (F.asked files.new) }
        ensures reads { ReadsOnly F.holds F.moment F.left_since F.images F.faults files.old files.new result }
    {
        if !flag_of(self.plan.same.as_slice(), no) {
            return Ok(true);
        }
        match self.tables.records.get(no) {
            Some(rec) => {
                let touched = is_touched(&mut self.named, rec, files)?;
                Ok(touched)
            }
            None => Ok(true),
        }
    }
}
