//! The state of a build by what changed, and its steps.
ghost use Rattle.std.specs.Prelude.{◌≡◌, IfOk, OnOk};
ghost use Rattle.pie_files.specs.Reading.{ReadsOnly};
ghost use Rattle.pie_results.specs.inner.Made.{IsEmptyWhereRefused, IsKept};
ghost use Rattle.pie_bottomup.specs.inner.States.{IsCore, HasSettled};
ghost use Rattle.pie_bottomup.specs.inner.Stepping.{LeavesWhole, StartsFew, StartsRight, StepsOn};
ghost use Rattle.pie_bottomup.specs.inner.Ended.{StoredIf};
ghost use Rattle.pie_bottomup.specs.inner.Tested.{HasTested};
ghost use Rattle.pie_bottomup.specs.inner.Asked.{StepsAsking};
ghost use Rattle.pie_bottomup.specs.inner.Made.{MadeExact};
ghost use Rattle.pie_bottomup.specs.declared.state.First.TheVariants.{Tests};

use crate::plan::Plan;
use pie_base::OutOfMemory;
use pie_checks::Built;
use pie_files::{Files, FilesError};
use pie_frames::Frames;
use pie_graph::TaskNo;
use pie_named::Named;
use pie_results::results;
use pie_running::RunningTask;
use pie_store::Cause;
use pie_tables::Tables;
use pie_value::Task;
use pie_view::Stage;
use pie_vm::Runs;
use std::alloc::Global;

/// A build by what changed, between two steps. After a call that fails it is of no use.
/// Rule: docs/BUILDING.md, "A build by what changed".
#[derive(Drop)]
pub struct Core<'a> {
    pub(crate) alloc: Global,
    pub(crate) plan: Plan<'a>,
    pub(crate) tables: Tables,
    /// How many tasks the earlier build had.
    pub(crate) earlier: u32,
    pub(crate) frames: Frames<'a>,
    pub(crate) stage: Stage,
    pub(crate) named: Named,
    /// How many roots were begun.
    pub(crate) at: usize,
    /// The task that runs.
    pub(crate) hand: Option<InHand<'a>>,
    /// What is still to be done before the first task is taken.
    pub(crate) first: First,
}

/// What the first step does before it goes on.
#[derive(Drop)]
pub(crate) enum First {
    /// The old records are held against what changed.
    Tests,
    /// It starts afresh: there are more old tasks than a build may have, and this is the first past the limit.
    TooMany(Task),
    Done,
}

/// The task that runs.
#[derive(Drop)]
pub(crate) struct InHand<'a> {
    pub(crate) no: TaskNo,
    /// From where on its row has what it required in this run.
    pub(crate) from: usize,
    pub(crate) task: RunningTask<'a>,
}

/// How a step ends.
#[derive(Drop)]
pub enum Turn {
    /// There is more to do.
    Went,
    /// All roots are settled, or one that failed is.
    Settled,
    /// The build has to start afresh, for this cause.
    StartAfresh(Cause),
}

impl<'a> Core<'a> {
    /// Treats one event of the task that runs, or takes, starts or ends one task, or begins a root. The first step holds the old records
    /// against what changed. The tasks that are started are added to the runs.
    #[tactic(auto, using(pie_files::proofs::Reading::reads, crate::proofs::Holding::tests_free))]
    pub fn step<F: Files>(&mut self, files: &mut F, runs: &mut Runs) -> Result<Turn, FilesError>
        requires { IsCore self.old }
        ensures steps { IfOk result (StepsOn self.old self.new) }
        ensures few { StartsFew self.old runs.old runs.new }
        ensures starts { OnOk result (StartsRight (F.holds files.old) self.old self.new runs.old runs.new) }
        ensures tested { self.old.first ≡ Tests → OnOk result (HasTested (F.holds files.old) self.old self.new) }
        ensures whole { IfOk result (LeavesWhole (F.holds files.old) self.old self.new) }
        ensures asks { StepsAsking self.old (F.asked files.old) (F.asked files.new) }
        ensures reads { ReadsOnly F.holds F.moment F.left_since F.images F.faults files.old files.new result }
    {
        match self.hand.take() {
            Some(hand) => self.event(hand, files),
            None => self.go_on(files, runs),
        }
    }

    /// What the build makes of its records, once it is settled.
    pub fn end(self) -> Result<Built, OutOfMemory>
        requires { HasSettled self }
        ensures refused_empty { IfOk result IsEmptyWhereRefused }
        ensures kept { IfOk result IsKept }
        ensures stored { IfOk result (λ b. StoredIf b.verdict self.entry.plan b) }
        ensures exact { IfOk result (MadeExact self.entry) }
    {
        let mut core = self;
        core.built()
    }

    #[tactic(auto, using(crate::proofs::Parts::rests_acyclic))]
    fn built(&mut self) -> Result<Built, OutOfMemory>
        requires { HasSettled self.old }
        ensures refused_empty { IfOk result IsEmptyWhereRefused }
        ensures kept { IfOk result IsKept }
        ensures stored { IfOk result (λ b. StoredIf b.verdict self.old.plan b) }
        ensures exact { IfOk result (MadeExact self.old) }
    {
        let _names = self.tables.names.as_slice();
        let built = results(
            self.alloc,
            &mut self.tables,
            self.frames.walk().rows(),
            &self.stage,
            self.plan.roots.as_slice(),
        )?;
        Ok(built)
    }
}
