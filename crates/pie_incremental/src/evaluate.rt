//! The evaluation of the roots by what changed.
ghost use Rattle.std.specs.Prelude.{◌≡◌, ◌≤◌, All, IfOk, OnOk};
ghost use Rattle.pie_digest.specs.Digests.{HasNames};
ghost use Rattle.pie_files.specs.Reading.{ReadsOnly};
ghost use Rattle.pie_store.specs.Canonical.{AreFuncs};
ghost use Rattle.pie_value.specs.Canonical.{IsEncodableTask};
ghost use Rattle.pie_bottomup.specs.declared.state.First.TheVariants.{Done};
ghost use Rattle.pie_bottomup.specs.inner.Ran.{BeginsKnowing};
ghost use Rattle.pie_bottomup.specs.inner.States.{HasSettled, IsCore, IsPlanOf, Spends, room};
ghost use Rattle.pie_incremental.specs.inner.Asked.{AsksWhere, SettledAsking};
ghost use Rattle.pie_incremental.specs.inner.Evaluated.{BeginsNow, EvaluatesExact, ResultsExact, SettlesExact};
ghost use Rattle.pie_incremental.specs.inner.Joined.{IsImage, IsEnded, IsMade, Settles};
ghost use Rattle.pie_incremental.specs.inner.Parts.{IsBuildable, StartsFew};
ghost use Rattle.pie_incremental.specs.inner.Ran.{RunsWhere, SettlesRuns};

use pie_base::{MAX_TASKS, OutOfMemory, Path};
use pie_bottomup::{Core, Turn};
use pie_checks::Built;
use pie_code::Checked;
use pie_codegen::compile;
use pie_files::{Files, FilesError};
use pie_project::Project;
use pie_store::{Cause, StoreImage};
use pie_vm::Runs;
use std::alloc::Global;

/// How the evaluation of the roots ended.
#[derive(Drop)]
pub(crate) enum Ended {
    Built(Box<Built>),
    /// It has to start afresh.
    Afresh(Cause),
}

/// Evaluates the roots of a project by what changed.
#[tactic(auto, using(pie_files::proofs::Reading::reads, crate::proofs::Parts::starts, crate::proofs::Storing::plan_kept))]
pub(crate) fn evaluate<F: Files>(
    alloc: Global,
    files: &mut F,
    project: &Project,
    image: Box<StoreImage>,
    names: &[Path],
    runs: &mut Runs,
) -> Result<Ended, FilesError>
    requires image { IsImage image.value }
    requires project { IsBuildable project.now }
    ensures exact { IfOk result (EvaluatesExact (F.holds files.old) project.now.typed project.now.digests.items project.now.roots.items image.value names.now) }
    ensures ran { IfOk result (RunsWhere (F.holds files.old) project.now.typed project.now.digests.items project.now.roots.items image.value names.now runs.old runs.new) }
    ensures asks { IfOk result (AsksWhere (F.holds files.old) project.now.typed project.now.digests.items project.now.roots.items image.value names.now runs.old runs.new (F.asked files.old) (F.asked files.new)) }
    ensures ended { IfOk result (IsEnded project.now.digests.items project.now.roots.items) }
    ensures runs { StartsFew 50000 runs.old runs.new }
    ensures reads { ReadsOnly F.holds F.moment F.left_since F.images F.faults files.old files.new result }
{
    let code = compile(alloc, &project.typed)?;
    let mut core = core_of(alloc, project, code.as_slice(), image, names)?;
    match settle(&mut core, files, runs)? {
        Some(cause) => Ok(Ended::Afresh(cause)),
        None => {
            let built = built_of(alloc, project, core)?;
            Ok(Ended::Built(built))
        }
    }
}

// A build of this project that hasn't begun.
fn core_of<'a>(
    alloc: Global,
    project: &'a Project,
    code: &'a [Checked],
    image: Box<StoreImage>,
    names: &[Path],
) -> Result<Box<Core<'a>>, OutOfMemory>
    requires image { IsImage image.value }
    requires roots { All IsEncodableTask project.now.roots.items }
    ensures core { IfOk result (λ c. IsCore c.value) }
    ensures plan { IfOk result (λ c. IsPlanOf project.now.typed project.now.digests.items project.now.roots.items c.value.plan) }
    ensures room { IfOk result (λ c. room c.value ≤ MAX_TASKS) }
    ensures first { IfOk result (λ c. c.value.first ≡ Done → ⊥) }
    ensures exact { IfOk result (λ c. BeginsNow project.now.typed code.now project.now.roots.items image.value.funcs project.now.digests.items image.value.rows names.now c.value) }
    ensures knows { IfOk result (λ c. BeginsKnowing image.value.funcs project.now.digests.items image.value.rows names.now c.value) }
{
    let core = Core::new(
        alloc,
        &project.typed,
        code,
        project.digests.as_slice(),
        Box::into_inner(image),
        project.roots.as_slice(),
        names,
    )?;
    let core = Box::new(alloc, core)?;
    Ok(core)
}

// Goes on until the roots are settled, or the build has to start afresh: for this cause.
#[tactic(auto, using(pie_files::proofs::Reading::reads, crate::proofs::Joining::started_none, crate::proofs::Joining::started_more, crate::proofs::Joining::spends, crate::proofs::Evaluating::stands_first, crate::proofs::Running::runs_first, crate::proofs::Running::many_first, crate::proofs::Asking::settles_first, crate::proofs::Running::none_first))]
fn settle<'a, F: Files>(
    core: &mut Core<'a>,
    files: &mut F,
    runs: &mut Runs,
) -> Result<Option<Cause>, FilesError>
    requires { IsCore core.old }
    ensures settled { IfOk result (Settles core.new) }
    ensures plan { OnOk result (core.new.plan ≡ core.old.plan) }
    ensures exact { IfOk result (SettlesExact (F.holds files.old) core.old core.new) }
    ensures ran { IfOk result (SettlesRuns (F.holds files.old) core.old runs.old runs.new) }
    ensures asks { IfOk result (SettledAsking (F.holds files.old) core.old runs.old runs.new (F.asked files.old) (F.asked files.new)) }
    ensures runs { StartsFew (room core.old) runs.old runs.new }
    ensures reads { ReadsOnly F.holds F.moment F.left_since F.images F.faults files.old files.new result }
{
    'steps: loop {
        match core.step(files, runs)? {
            Turn::Went => {}
            Turn::Settled => return Ok(None),
            Turn::StartAfresh(cause) => return Ok(Some(cause)),
        }
    }
}

// What a settled build has made.
#[tactic(auto, using(crate::proofs::Storing::made))]
fn built_of<'a>(
    alloc: Global,
    project: &Project,
    core: Box<Core<'a>>,
) -> Result<Box<Built>, OutOfMemory>
    requires settled { HasSettled core.value }
    requires plan { IsPlanOf project.now.typed project.now.digests.items project.now.roots.items core.value.plan }
    requires names { HasNames project.now.typed project.now.digests.items }
    requires funcs { AreFuncs project.now.digests.items }
    requires roots { All IsEncodableTask project.now.roots.items }
    ensures made { IfOk result (λ b. IsMade project.now.digests.items project.now.roots.items b.value) }
    ensures exact { IfOk result (λ b. ResultsExact core.entry.value project.now.roots.items b.value) }
{
    let built = Box::into_inner(core).end()?;
    let built = Box::new(alloc, built)?;
    Ok(built)
}
