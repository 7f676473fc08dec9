//! A build by what changed, from what the build before left to its report.
ghost use Rattle.std.specs.Prelude.{◌≡◌, ◌≤◌, ◌++◌, drop, length, IfOk, IsOk};
ghost use Rattle.pie_files.specs.Streams.{Counted};
ghost use Rattle.pie_store.specs.Pending.{in_order};
ghost use Rattle.pie_incremental.specs.Crashes.{MarkedBy};
ghost use Rattle.pie_incremental.specs.inner.Crashed.{MayGo, MayRun};
ghost use Rattle.pie_incremental.specs.inner.Joined.{IsBase, TreatsIn};
ghost use Rattle.pie_incremental.specs.inner.Marked.{EndsGo, EndsRun};
ghost use Rattle.pie_incremental.specs.inner.Parts.{CanGoOn, Endures, GoesFor, IsBuildable, ReportsFew, RunsFor, StopsAsBefore};

use crate::Base;
use crate::begun::{Begun, begin};
use crate::ending::{Ending, finish};
use crate::evaluate::{Ended, evaluate};
use pie_base::{OutOfMemory, Path};
use pie_build::copies_of_tasks;
use pie_files::{Files, FilesError};
use pie_project::Project;
use pie_report::Report;
use pie_store::Cause;
use pie_value::Task;
use pie_vm::Runs;
use std::alloc::Global;

/// What became of a build by what changed.
#[derive(Drop)]
pub(crate) enum Done {
    Reported(Box<Report>),
    /// It has to start afresh.
    Stopped(Box<Stop>),
}

/// Why a build has to start afresh, and what it needs where it is refused then.
#[derive(Drop)]
pub(crate) struct Stop {
    pub(crate) cause: Cause,
    pub(crate) ending: Box<Ending>,
}

/// Builds a project from what the build before left, unless it has to start afresh.
#[tactic(auto, using(crate::proofs::Treating::treats_begun))]
pub(crate) fn run<F: Files>(
    alloc: Global,
    files: &mut F,
    base: Box<Base>,
    project: &Project,
    changes: &[Path],
    runs: &mut Runs,
) -> Result<Done, FilesError>
    requires base { IsBase base.value }
    requires project { IsBuildable project.now }
    ensures files { Endures F.holds F.moment F.left_since F.images (MayRun base.value project.now changes.now) (MarkedBy (EndsRun base.value project.now changes.now)) (IsOk result) files.old files.new }
    ensures stops { StopsAsBefore F.holds F.moment F.left_since F.images files.old files.new result }
    ensures updates { RunsFor base.value project.now changes.now (F.holds files.old) (F.holds files.new) (F.asked files.old) (F.asked files.new) runs.old runs.new result }
    ensures names { IfOk result (TreatsIn base.value.own (in_order (changes.now ++ base.value.names.items)) (F.holds files.old) (F.holds files.new)) }
    ensures runs { ReportsFew 50000 runs.old runs.new result }
    ensures counted { Counted F.faults FilesError.Failed files.old files.new result }
{
    let begun = begin(alloc, files, base, project, changes)?;
    go_on(alloc, files, begun, project, runs)
}

// Evaluates the roots, and puts into place what was made.
#[tactic(auto, using(crate::proofs::Treating::treats_then))]
fn go_on<F: Files>(
    alloc: Global,
    files: &mut F,
    begun: Begun,
    project: &Project,
    runs: &mut Runs,
) -> Result<Done, FilesError>
    requires begun { CanGoOn begun.image.value begun.ending.value }
    requires project { IsBuildable project.now }
    ensures files { Endures F.holds F.moment F.left_since F.images (MayGo begun.image.value begun.ending.value project.now) (MarkedBy (EndsGo begun.image.value begun.ending.value project.now)) (IsOk result) files.old files.new }
    ensures stops { StopsAsBefore F.holds F.moment F.left_since F.images files.old files.new result }
    ensures updates { GoesFor begun.image.value begun.ending.value project.now (F.holds files.old) (F.holds files.new) (F.asked files.old) (F.asked files.new) runs.old runs.new result }
    ensures names { IfOk result (TreatsIn begun.ending.value.own begun.ending.value.names.items (F.holds files.old) (F.holds files.new)) }
    ensures runs { ReportsFew 50000 runs.old runs.new result }
    ensures counted { Counted F.faults FilesError.Failed files.old files.new result }
{
    let Begun { image, ending } = begun;
    let before = runs.count();
    match evaluate(alloc, files, project, image, ending.names.as_slice(), runs)? {
        Ended::Built(built) => {
            let ran = since(alloc, runs, before)?;
            let report = finish(alloc, files, project, &ending, built, ran)?;
            Ok(Done::Reported(report))
        }
        Ended::Afresh(cause) => {
            let stop = Box::new(alloc, Stop { cause, ending })?;
            Ok(Done::Stopped(stop))
        }
    }
}

/// The tasks that were started after so many others.
pub(crate) fn since(alloc: Global, runs: &Runs, before: usize) -> Result<Vec<Task>, OutOfMemory>
    requires { before ≤ length runs.now }
    ensures { IfOk result (λ ran. ran.items ≡ drop before runs.now) }
{
    let ran = copies_of_tasks(alloc, &runs.tasks()[before..])?;
    Ok(ran)
}
