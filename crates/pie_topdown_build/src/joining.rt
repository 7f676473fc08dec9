//! A build from a base, from its project to its report.
ghost use Rattle.std.specs.Prelude.{◌≡◌, true, map, All, IfOk, IsOk};
ghost use Rattle.pie_build.specs.Crashes.{IsDone};
ghost use Rattle.pie_build.specs.Left.{Leaves};
ghost use Rattle.pie_build.specs.inner.Rebuilt.{Tells};
ghost use Rattle.pie_files.specs.Streams.{Counted};
ghost use Rattle.pie_project.specs.Refusals.{IsVerdict};
ghost use Rattle.pie_record.specs.Canonical.{IsStorable};
ghost use Rattle.pie_results.specs.inner.Files.{contents_in};
ghost use Rattle.pie_value.specs.Canonical.{IsEncodableTask};
ghost use Rattle.pie_topdown_build.specs.inner.News.{as_told, news_in, AreNewsOf, IsReadyFrom, TellsNewsOf};
ghost use Rattle.pie_topdown_build.specs.inner.Offered.{IsNew};
ghost use Rattle.pie_topdown_build.specs.inner.Bases.{IsBase, Quiet};
ghost use Rattle.pie_topdown_build.specs.inner.Stored.{IsBegunFrom};
ghost use Rattle.pie_topdown_build.specs.inner.Clean.{FromAsClean, RunsAsClean, RunsIfTold};
ghost use Rattle.pie_topdown_build.specs.inner.Crashes.{EndsFrom, EndsReady, EndsRun};
ghost use Rattle.pie_topdown_build.specs.inner.Ran.{FromRuns, RunsBy, RunsByIfTold};
ghost use Rattle.pie_topdown_build.specs.inner.Records.{TellsFrom, TellsOf, TellsOfIfReady};
ghost use Rattle.pie_topdown_build.specs.inner.Said.{CanBuild, CanRun, OffersNone, RefusesUnchanged, Stays, TellsOffers, TellsRuns};

use crate::base::Base;
use crate::evaluating::{Evaluated, evaluate};
use crate::finishing::{are_small, finish, since};
use crate::news::news_of;
use crate::offered::{NewOffer, Offered};
use crate::reusing::in_order;
use pie_base::OutOfMemory;
use pie_build::rebuild;
use pie_checks::Built;
use pie_files::{Files, FilesError};
use pie_project::{BuildError, Project, read_project};
use pie_store::Offers;
use pie_value::Task;
use pie_vm::Runs;
use std::alloc::Global;

/// Builds from what the build before left. What ran is told as new offers where it is asked for.
pub(crate) fn from<F: Files, O: Offers>(
    alloc: Global,
    files: &mut F,
    base: Box<Base>,
    offers: &mut O,
    tells: bool,
    runs: &mut Runs,
) -> Result<Offered, BuildError>
    requires { IsBase base.value }
    ensures stays { Stays F.holds F.moment F.left_since F.images (EndsFrom base.value (O.told offers.old)) (IsVerdict result) files.old files.new }
    ensures refuses { RefusesUnchanged (F.holds files.old) (F.holds files.new) result (λ o. o.report.value) }
    ensures clean { IfOk result (λ o. FromAsClean base.value (O.told offers.old) (F.holds files.old) (F.holds files.new) o.report.value) }
    ensures runs { IfOk result (λ o. FromRuns base.value (O.told offers.old) (F.holds files.old) o.report.value o.reused.items) }
    ensures ran { TellsRuns runs.old runs.new result (λ o. o.report.value) }
    ensures offers { TellsOffers (tells ≡ true) result (AreNewsOf (IsBegunFrom base.value.store) (F.holds files.old) (F.holds files.new)) (λ o. TellsFrom base.value (O.told offers.old) (F.holds files.old) o.report.value.verdict o.report.value.ran.items (map as_told o.new.items)) }
    ensures told { Tells F.faults files.old files.new result }
{
    match read_project(alloc, files) {
        Ok(project) => with_project(alloc, files, base, &project, offers, tells, runs),
        Err(error) => Err(error),
    }
}

// Builds a project from what the build before left. Roots beyond the limits of values are left to the clean build, which refuses them.
fn with_project<F: Files, O: Offers>(
    alloc: Global,
    files: &mut F,
    base: Box<Base>,
    project: &Project,
    offers: &mut O,
    tells: bool,
    runs: &mut Runs,
) -> Result<Offered, BuildError>
    requires { CanBuild base.value project.now }
    ensures stays { Stays F.holds F.moment F.left_since F.images (EndsReady base.value project.now (O.told offers.old)) (IsVerdict result) files.old files.new }
    ensures refuses { RefusesUnchanged (F.holds files.old) (F.holds files.new) result (λ o. o.report.value) }
    ensures clean { IfOk result (λ o. RunsIfTold base.value project.now (O.told offers.old) (F.holds files.old) (F.holds files.new) o.report.value) }
    ensures runs { IfOk result (λ o. RunsByIfTold base.value project.now (O.told offers.old) (F.holds files.old) o.report.value o.reused.items) }
    ensures ran { TellsRuns runs.old runs.new result (λ o. o.report.value) }
    ensures offers { TellsOffers (tells ≡ true) result (TellsNewsOf (IsReadyFrom project.now base.value.store) project.now.digests.items (F.holds files.old) (F.holds files.new)) (λ o. TellsOfIfReady (F.holds files.old) project.now base.value.image (O.told offers.old) o.report.value.verdict o.report.value.ran.items (map as_told o.new.items)) }
    ensures told { Tells F.faults files.old files.new result }
{
    if !are_small(project.roots.as_slice()) {
        return rebuilt(alloc, files, runs);
    }
    match run(alloc, files, base, project, offers, tells, runs) {
        Ok(offered) => Ok(offered),
        Err(FilesError::Failed) => Err(BuildError::Files),
        Err(FilesError::OutOfMemory) => Err(BuildError::OutOfMemory),
    }
}

// A clean build, which is offered nothing.
fn rebuilt<F: Files>(alloc: Global, files: &mut F, runs: &mut Runs) -> Result<Offered, BuildError>
    ensures stays { Stays F.holds F.moment F.left_since F.images (IsDone Leaves) (IsVerdict result) files.old files.new }
    ensures refuses { RefusesUnchanged (F.holds files.old) (F.holds files.new) result (λ o. o.report.value) }
    ensures ran { TellsRuns runs.old runs.new result (λ o. o.report.value) }
    ensures none { OffersNone result }
    ensures told { Tells F.faults files.old files.new result }
{
    match rebuild(alloc, files, runs) {
        Ok(report) => match Box::new(alloc, report) {
            Ok(report) => Ok(Offered {
                report,
                reused: Vec::new(alloc),
                new: Vec::new(alloc),
            }),
            Err(_) => Err(BuildError::OutOfMemory),
        },
        Err(error) => Err(error),
    }
}

// Settles the roots, and puts into place what was made.
#[tactic(auto, using(crate::proofs::Making::quiet_then))]
fn run<F: Files, O: Offers>(
    alloc: Global,
    files: &mut F,
    base: Box<Base>,
    project: &Project,
    offers: &mut O,
    tells: bool,
    runs: &mut Runs,
) -> Result<Offered, FilesError>
    requires { CanRun base.value project.now }
    ensures stays { Stays F.holds F.moment F.left_since F.images (EndsRun base.value project.now (O.told offers.old)) (IsOk result) files.old files.new }
    ensures quiet { IfOk result (λ o. Quiet o.report.value.verdict (F.holds files.old) (F.holds files.new)) }
    ensures clean { IfOk result (λ o. RunsAsClean base.value project.now (O.told offers.old) (F.holds files.old) (F.holds files.new) o.report.value) }
    ensures runs { IfOk result (λ o. RunsBy base.value project.now (O.told offers.old) (F.holds files.old) o.report.value o.reused.items) }
    ensures ran { TellsRuns runs.old runs.new result (λ o. o.report.value) }
    ensures offers { TellsOffers (tells ≡ true) result (TellsNewsOf (IsBegunFrom base.value.store) project.now.digests.items (F.holds files.old) (F.holds files.new)) (λ o. TellsOf (F.holds files.old) project.now base.value.image (O.told offers.old) o.report.value.verdict o.report.value.ran.items (map as_told o.new.items)) }
    ensures counted { Counted F.faults FilesError.Failed files.old files.new result }
{
    let Base { image, store } = Box::into_inner(base);
    let before = runs.count();
    let Evaluated { built, reused } = evaluate(alloc, files, project, image, offers, runs)?;
    let ran = since(alloc, runs, before)?;
    let reused = in_order(alloc, reused.as_slice())?;
    let new = news_if(alloc, tells, project, &built, ran.as_slice())?;
    match finish(alloc, files, project, store, built, ran) {
        Ok(report) => Ok(Offered {
            report,
            reused,
            new,
        }),
        Err(error) => Err(error),
    }
}

// The new offers, where they are asked for.
fn news_if(
    alloc: Global,
    tells: bool,
    project: &Project,
    built: &Built,
    ran: &[Task],
) -> Result<Vec<NewOffer>, OutOfMemory>
    requires ran { All IsEncodableTask ran.now }
    requires rows { All IsStorable built.now.rows.items }
    ensures new { IfOk result (λ found. All IsNew found.items) }
    ensures news { tells ≡ true → IfOk result (λ found. map as_told found.items ≡ news_in project.now.digests.items built.now.rows.items (contents_in built.now.files.items) ran.now) }
{
    if tells {
        return news_of(alloc, project.digests.as_slice(), built, ran);
    }
    Ok(Vec::new(alloc))
}
