//! A build by what changed.
ghost use Rattle.std.specs.Prelude.{◌≡◌, ◌++◌, [], true, false, Some, All, IfOk, IfSome, IsTrue};
ghost use Rattle.pie_build.specs.Left.{Leaves};
ghost use Rattle.pie_build.specs.Crashes.{IsDone, IsOfThree};
ghost use Rattle.pie_incremental.specs.Asked.{AsksRight};
ghost use Rattle.pie_incremental.specs.Crashes.{MayStop, MarkedBy, MayEnd};
ghost use Rattle.pie_incremental.specs.inner.Crashed.{MayBuild, MayFrom};
ghost use Rattle.pie_incremental.specs.inner.Marked.{EndsBuild, EndsFrom};
ghost use Rattle.pie_project.specs.Refusals.{IsVerdict};
ghost use Rattle.pie_build.specs.inner.Rebuilt.{Tells};
ghost use Rattle.pie_value.specs.Canonical.{IsEncodableTask};
ghost use Rattle.pie_value.specs.Limits.{is_small_task};
ghost use Rattle.pie_store.specs.Pending.{in_order};
ghost use Rattle.pie_incremental.specs.Clean.{BuildsClean};
ghost use Rattle.pie_incremental.specs.Treated.{AfreshBy, TreatsNames};
ghost use Rattle.pie_incremental.specs.inner.Joined.{IsBase, Treats};
ghost use Rattle.pie_incremental.specs.inner.Parts.{BuildsFor, BuildsFrom, BuildsProject, Endures, IsProjectIn, RefusesUnchanged, TellsRuns, TellsRunsFew, TellsRunsOnce};
ghost use Rattle.pie_incremental.specs.inner.Updated.{IsAfreshAfter};

use crate::again::again;
use crate::cause::put_cause;
use crate::run::{Done, run};
use crate::{Base, Start, find_start};
use pie_base::Path;
use pie_build::rebuild;
use pie_files::{Files, FilesError};
use pie_project::{BuildError, Project, read_project};
use pie_report::Report;
use pie_store::Cause;
use pie_value::Task;
use pie_vm::Runs;
use std::alloc::Global;

/// Builds the project of a directory by what changed since the build before: these paths, and those that were kept of refused builds. Where there is
/// nothing to build from, or where old and new requires close a cycle or are too many, it builds afresh, and the report tells the cause.
/// An accepted build leaves what a clean build would; a refused one keeps the names for the next one. The whole plan and the report are made before
/// the first write. The tasks that are started are added to the runs, and reported.
/// Rule: docs/BUILDING.md, "A build by what changed".
pub fn build<F: Files>(
    alloc: Global,
    files: &mut F,
    changes: &[Path],
    runs: &mut Runs,
) -> Result<Report, BuildError>
    ensures files { Endures F.holds F.moment F.left_since F.images (MayStop changes.now) (MarkedBy (MayEnd changes.now)) (IsVerdict result) files.old files.new }
    ensures refuses { RefusesUnchanged (F.holds files.old) (F.holds files.new) result }
    ensures names { IfSome (F.holds files.old) (λ d. IfOk result (λ r. TreatsNames changes.now d r (F.holds files.new))) }
    ensures clean { IfSome (F.holds files.old) (λ d. IfOk result (λ r. BuildsClean changes.now d r (F.holds files.new))) }
    ensures asks { IfSome (F.holds files.old) (λ d. IfOk result (λ r. AsksRight changes.now d r (F.asked files.old) (F.asked files.new))) }
    ensures runs { TellsRunsFew runs.old runs.new result }
    ensures project { BuildsProject (F.holds files.old) runs.old runs.new result }
    ensures told { Tells F.faults files.old files.new result }
{
    match find_start(alloc, files) {
        Ok(Start::Afresh(cause)) => afresh(alloc, files, cause, runs),
        Ok(Start::From(base)) => from(alloc, files, base, changes, runs),
        Err(FilesError::Failed) => Err(BuildError::Files),
        Err(FilesError::OutOfMemory) => Err(BuildError::OutOfMemory),
    }
}

// Builds afresh, for this cause.
fn afresh<F: Files>(
    alloc: Global,
    files: &mut F,
    cause: Cause,
    runs: &mut Runs,
) -> Result<Report, BuildError>
    ensures files { Endures F.holds F.moment F.left_since F.images (IsOfThree Leaves) (MarkedBy (IsDone Leaves)) (IsVerdict result) files.old files.new }
    ensures refuses { RefusesUnchanged (F.holds files.old) (F.holds files.new) result }
    ensures names { IfSome (F.holds files.old) (λ d. IfOk result (λ r. AfreshBy r.verdict d (F.holds files.new))) }
    ensures afresh { IfSome (F.holds files.old) (λ d. IfOk result (λ r. IsAfreshAfter d r (F.holds files.new) [])) }
    ensures fresh { IfOk result (λ r. r.fresh ≡ Some cause) }
    ensures runs { TellsRuns 50000 runs.old runs.new result }
    ensures project { BuildsProject (F.holds files.old) runs.old runs.new result }
    ensures told { Tells F.faults files.old files.new result }
{
    match rebuild(alloc, files, runs) {
        Ok(mut report) => {
            put_cause(&mut report, cause);
            Ok(report)
        }
        Err(error) => Err(error),
    }
}

// Builds from what the build before left.
#[tactic(auto, using(crate::proofs::Refusing::read, crate::proofs::Refusing::after))]
fn from<F: Files>(
    alloc: Global,
    files: &mut F,
    base: Box<Base>,
    changes: &[Path],
    runs: &mut Runs,
) -> Result<Report, BuildError>
    requires { IsBase base.value }
    ensures files { Endures F.holds F.moment F.left_since F.images (MayFrom base.value changes.now) (MarkedBy (EndsFrom base.value changes.now)) (IsVerdict result) files.old files.new }
    ensures refuses { RefusesUnchanged (F.holds files.old) (F.holds files.new) result }
    ensures updates { BuildsFrom base.value changes.now (F.holds files.old) (F.holds files.new) (F.asked files.old) (F.asked files.new) result }
    ensures names { IfOk result (λ r. Treats base.value.own (in_order (changes.now ++ base.value.names.items)) r.verdict (F.holds files.old) (F.holds files.new)) }
    ensures runs { TellsRunsOnce runs.old runs.new result }
    ensures project { BuildsProject (F.holds files.old) runs.old runs.new result }
    ensures told { Tells F.faults files.old files.new result }
{
    match read_project(alloc, files) {
        Ok(project) => with_project(alloc, files, base, &project, changes, runs),
        Err(error) => Err(error),
    }
}

// Builds a project from what the build before left. Roots beyond the limits of values are left to the clean build, which refuses them.
#[tactic(auto, using(crate::proofs::Refusing::after, crate::proofs::Refusing::never))]
fn with_project<F: Files>(
    alloc: Global,
    files: &mut F,
    base: Box<Base>,
    project: &Project,
    changes: &[Path],
    runs: &mut Runs,
) -> Result<Report, BuildError>
    requires project { IsProjectIn (F.holds files.old) project.now }
    requires base { IsBase base.value }
    ensures files { Endures F.holds F.moment F.left_since F.images (MayBuild base.value project.now changes.now) (MarkedBy (EndsBuild base.value project.now changes.now)) (IsVerdict result) files.old files.new }
    ensures refuses { RefusesUnchanged (F.holds files.old) (F.holds files.new) result }
    ensures updates { BuildsFor base.value project.now changes.now (F.holds files.old) (F.holds files.new) (F.asked files.old) (F.asked files.new) result }
    ensures names { IfOk result (λ r. Treats base.value.own (in_order (changes.now ++ base.value.names.items)) r.verdict (F.holds files.old) (F.holds files.new)) }
    ensures runs { TellsRunsOnce runs.old runs.new result }
    ensures told { Tells F.faults files.old files.new result }
{
    if !are_small(project.roots.as_slice()) {
        return rebuild(alloc, files, runs);
    }
    let before = runs.count();
    match run(alloc, files, base, project, changes, runs) {
        Ok(Done::Reported(report)) => Ok(Box::into_inner(report)),
        Ok(Done::Stopped(stop)) => again(alloc, files, stop, before, runs),
        Err(FilesError::Failed) => Err(BuildError::Files),
        Err(FilesError::OutOfMemory) => Err(BuildError::OutOfMemory),
    }
}

// Whether each root is within the limits of values.
#[tactic(auto, using(crate::proofs::Joining::none_small, crate::proofs::Joining::small_more, crate::proofs::Joining::all_small, crate::proofs::Joining::one_large))]
fn are_small(roots: &[Task]) -> bool
    ensures encodable { IsTrue result → All IsEncodableTask roots.now }
    ensures large { result ≡ false → ¬ (All (λ t. is_small_task t ≡ true) roots.now) }
{
    for root in roots {
        if !root.is_small() {
            return false;
        }
    }
    true
}
