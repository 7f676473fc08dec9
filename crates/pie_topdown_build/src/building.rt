//! A build that needs no list of changes.
ghost use Rattle.std.specs.Prelude.{List, [], map, IfOk, IfSome};
ghost use Rattle.pie_build.specs.Left.{Leaves};
ghost use Rattle.pie_build.specs.Crashes.{IsDone};
ghost use Rattle.pie_build.specs.inner.Rebuilt.{Tells};
ghost use Rattle.pie_incremental.specs.Own.{IsClosed};
ghost use Rattle.pie_incremental.specs.inner.Updated.{IsAfreshAfter};
ghost use Rattle.pie_project.specs.Refusals.{IsVerdict};
ghost use Rattle.pie_value.specs.declared.task.Task.{Task as TaskValue};
ghost use Rattle.pie_topdown_build.specs.inner.News.{as_told, AreNewsOf};
ghost use Rattle.pie_topdown_build.specs.Clean.{BuildsAsClean};
ghost use Rattle.pie_topdown_build.specs.Crashes.{HasEnded};
ghost use Rattle.pie_topdown_build.specs.inner.Bases.{IsBase};
ghost use Rattle.pie_topdown_build.specs.inner.Stored.{IsBegunFrom};
ghost use Rattle.pie_topdown_build.specs.Ran.{RunsForReasons};
ghost use Rattle.pie_topdown_build.specs.inner.Anew.{AnewAsClean, IsNoBase};
ghost use Rattle.pie_topdown_build.specs.inner.Clean.{FromAsClean, OffersClean};
ghost use Rattle.pie_topdown_build.specs.inner.Crashes.{EndsAnew, EndsFrom, EndsOffered};
ghost use Rattle.pie_topdown_build.specs.inner.Ran.{FromRuns, OffersRun, RunsAnew};
ghost use Rattle.pie_topdown_build.specs.inner.Records.{OffersOf, TellsAnew};
ghost use Rattle.pie_topdown_build.specs.inner.Said.{RefusesUnchanged, Stays, TellsOffersOf, TellsRuns, TellsRunsFor};

use crate::base::{Base, Start, find_base, no_base};
use crate::joining::from;
use crate::offered::Offered;
use pie_build::rebuild;
use pie_files::{Files, FilesError};
use pie_project::BuildError;
use pie_report::Report;
use pie_store::{Cause, NoOffers, Offers};
use pie_vm::Runs;
use std::alloc::Global;

/// Builds the project of a directory from the records of the build before, without a list of what changed: each record that the roots reach is held
/// against what is there now. Where there is nothing to build from, it builds afresh, and the report tells the cause. An accepted build leaves what a
/// clean build would, and no pending names; a refused one changes no file. The whole plan and the report are made before the first write. The tasks
/// that are started are added to the runs, and reported.
/// Rule: docs/BUILDING.md, "A build without a list".
pub fn build_topdown<F: Files>(
    alloc: Global,
    files: &mut F,
    runs: &mut Runs,
) -> Result<Report, BuildError>
    ensures stays { Stays F.holds F.moment F.left_since F.images HasEnded (IsVerdict result) files.old files.new }
    ensures refuses { RefusesUnchanged (F.holds files.old) (F.holds files.new) result (λ r. r) }
    ensures clean { IfSome (F.holds files.old) (λ d. IfOk result (λ r. BuildsAsClean d r (F.holds files.new))) }
    ensures runs { IfSome (F.holds files.old) (λ d. IfOk result (RunsForReasons d)) }
    ensures ran { TellsRuns runs.old runs.new result (λ r. r) }
    ensures told { Tells F.faults files.old files.new result }
{
    match find_base(alloc, files) {
        Ok(Start::Afresh(cause)) => afresh(alloc, files, cause, runs),
        Ok(Start::From(base)) => from_store(alloc, files, base, runs),
        Err(FilesError::Failed) => Err(BuildError::Files),
        Err(FilesError::OutOfMemory) => Err(BuildError::OutOfMemory),
    }
}

/// The same build with offers: a task whose own record doesn't stand may have another one, which is kept where it stands. They serve also where there is
/// nothing to build from: then it builds from an empty store, and the report tells the cause. Of an accepted build, what the live tasks that ran recorded
/// and wrote is told, as later builds may be offered it.
pub fn build_offered<F: Files, O: Offers>(
    alloc: Global,
    files: &mut F,
    offers: &mut O,
    runs: &mut Runs,
) -> Result<Offered, BuildError>
    ensures stays { Stays F.holds F.moment F.left_since F.images (EndsOffered (O.told offers.old)) (IsVerdict result) files.old files.new }
    ensures refuses { RefusesUnchanged (F.holds files.old) (F.holds files.new) result (λ o. o.report.value) }
    ensures clean { IfSome (F.holds files.old) (λ d. IfOk result (λ o. OffersClean (O.told offers.old) d o.report.value (F.holds files.new))) }
    ensures runs { IfSome (F.holds files.old) (λ d. IfOk result (λ o. OffersRun (O.told offers.old) d o.report.value o.reused.items)) }
    ensures ran { TellsRuns runs.old runs.new result (λ o. o.report.value) }
    ensures tells { TellsOffersOf (F.holds files.old) result (AreNewsOf IsClosed (F.holds files.old) (F.holds files.new)) (λ d o. OffersOf (O.told offers.old) d o.report.value (map as_told o.new.items)) }
    ensures told { Tells F.faults files.old files.new result }
{
    match find_base(alloc, files) {
        Ok(Start::Afresh(cause)) => anew(alloc, files, offers, cause, runs),
        Ok(Start::From(base)) => from(alloc, files, base, offers, true, runs),
        Err(FilesError::Failed) => Err(BuildError::Files),
        Err(FilesError::OutOfMemory) => Err(BuildError::OutOfMemory),
    }
}

// Builds from what the build before left.
fn from_store<F: Files>(
    alloc: Global,
    files: &mut F,
    base: Box<Base>,
    runs: &mut Runs,
) -> Result<Report, BuildError>
    requires { IsBase base.value }
    ensures stays { Stays F.holds F.moment F.left_since F.images (EndsFrom base.value (λ d t digest. [])) (IsVerdict result) files.old files.new }
    ensures refuses { RefusesUnchanged (F.holds files.old) (F.holds files.new) result (λ r. r) }
    ensures clean { IfOk result (FromAsClean base.value (λ d t digest. []) (F.holds files.old) (F.holds files.new)) }
    ensures runs { IfOk result (λ r. (reused : List TaskValue) × FromRuns base.value (λ d t digest. []) (F.holds files.old) r reused) }
    ensures ran { TellsRuns runs.old runs.new result (λ r. r) }
    ensures told { Tells F.faults files.old files.new result }
{
    match from(alloc, files, base, &mut NoOffers, false, runs) {
        Ok(offered) => Ok(Box::into_inner(offered.report)),
        Err(error) => Err(error),
    }
}

// Builds afresh, for this cause.
fn afresh<F: Files>(
    alloc: Global,
    files: &mut F,
    cause: Cause,
    runs: &mut Runs,
) -> Result<Report, BuildError>
    ensures stays { Stays F.holds F.moment F.left_since F.images (IsDone Leaves) (IsVerdict result) files.old files.new }
    ensures refuses { RefusesUnchanged (F.holds files.old) (F.holds files.new) result (λ r. r) }
    ensures clean { IfSome (F.holds files.old) (λ d. IfOk result (λ r. IsAfreshAfter d r (F.holds files.new) [])) }
    ensures ran { TellsRunsFor cause runs.old runs.new result (λ r. r) }
    ensures told { Tells F.faults files.old files.new result }
{
    match rebuild(alloc, files, runs) {
        Ok(mut report) => {
            report.fresh = Some(cause);
            Ok(report)
        }
        Err(error) => Err(error),
    }
}

// Builds from an empty store with offers, for this cause.
fn anew<F: Files, O: Offers>(
    alloc: Global,
    files: &mut F,
    offers: &mut O,
    cause: Cause,
    runs: &mut Runs,
) -> Result<Offered, BuildError>
    ensures stays { Stays F.holds F.moment F.left_since F.images (EndsAnew (O.told offers.old)) (IsVerdict result) files.old files.new }
    ensures refuses { RefusesUnchanged (F.holds files.old) (F.holds files.new) result (λ o. o.report.value) }
    ensures clean { IfSome (F.holds files.old) (λ d. IfOk result (λ o. AnewAsClean (O.told offers.old) d o.report.value (F.holds files.new))) }
    ensures runs { IfSome (F.holds files.old) (λ d. IfOk result (λ o. RunsAnew (O.told offers.old) d o.report.value o.reused.items)) }
    ensures ran { TellsRunsFor cause runs.old runs.new result (λ o. o.report.value) }
    ensures offers { TellsOffersOf (F.holds files.old) result (AreNewsOf IsClosed (F.holds files.old) (F.holds files.new)) (λ d o. TellsAnew (O.told offers.old) d o.report.value.verdict o.report.value.ran.items (map as_told o.new.items)) }
    ensures told { Tells F.faults files.old files.new result }
{
    match no_base(alloc) {
        Ok(base) => anew_from(alloc, files, base, offers, cause, runs),
        Err(_) => Err(BuildError::OutOfMemory),
    }
}

// The same with the empty store.
fn anew_from<F: Files, O: Offers>(
    alloc: Global,
    files: &mut F,
    base: Box<Base>,
    offers: &mut O,
    cause: Cause,
    runs: &mut Runs,
) -> Result<Offered, BuildError>
    requires { IsBase base.value }
    ensures stays { Stays F.holds F.moment F.left_since F.images (EndsFrom base.value (O.told offers.old)) (IsVerdict result) files.old files.new }
    ensures refuses { RefusesUnchanged (F.holds files.old) (F.holds files.new) result (λ o. o.report.value) }
    ensures clean { IfSome (F.holds files.old) (λ d. IfOk result (λ o. IsNoBase base.value → AnewAsClean (O.told offers.old) d o.report.value (F.holds files.new))) }
    ensures runs { IfSome (F.holds files.old) (λ d. IfOk result (λ o. IsNoBase base.value → RunsAnew (O.told offers.old) d o.report.value o.reused.items)) }
    ensures ran { TellsRunsFor cause runs.old runs.new result (λ o. o.report.value) }
    ensures offers { TellsOffersOf (F.holds files.old) result (AreNewsOf (IsBegunFrom base.value.store) (F.holds files.old) (F.holds files.new)) (λ d o. IsNoBase base.value → TellsAnew (O.told offers.old) d o.report.value.verdict o.report.value.ran.items (map as_told o.new.items)) }
    ensures told { Tells F.faults files.old files.new result }
{
    match from(alloc, files, base, offers, true, runs) {
        Ok(mut offered) => {
            offered.report.fresh = Some(cause);
            Ok(offered)
        }
        Err(error) => Err(error),
    }
}
