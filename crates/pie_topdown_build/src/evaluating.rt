//! The evaluation of the roots from the records of the build before.
ghost use Rattle.std.specs.Prelude.{[], All, IfOk};
ghost use Rattle.pie_files.specs.Reading.{ReadsOnly};
ghost use Rattle.pie_incremental.specs.inner.Joined.{IsMade};
ghost use Rattle.pie_topdown.specs.inner.Filed.{MakesFilesOf};
ghost use Rattle.pie_topdown.specs.inner.Ran.{RunsForReasons};
ghost use Rattle.pie_topdown.specs.inner.Rooted.{IsProgram};
ghost use Rattle.pie_topdown_result_laws.specs.Builds.{MakesClean};
ghost use Rattle.pie_value.specs.Canonical.{IsEncodableTask};
ghost use Rattle.pie_topdown_build.specs.inner.Clean.{MakesFrom};
ghost use Rattle.pie_topdown_build.specs.inner.Filed.{FilesFrom};
ghost use Rattle.pie_topdown_build.specs.inner.Ran.{RunsFrom};
ghost use Rattle.pie_topdown_build.specs.inner.Said.{CanSettle, ReusesOffered, StartsFew};

use pie_base::OutOfMemory;
use pie_checks::Built;
use pie_code::Checked;
use pie_codegen::compile;
use pie_files::{Files, FilesError};
use pie_incremental::put_digests;
use pie_project::Project;
use pie_store::{Offers, StoreImage};
use pie_topdown::topdown;
use pie_value::Task;
use pie_vm::Runs;
use std::alloc::Global;

/// What was made of the roots, and the tasks that were reused.
#[derive(Drop)]
pub(crate) struct Evaluated {
    pub(crate) built: Box<Built>,
    pub(crate) reused: Vec<Task>,
}

/// Settles the roots of a project from the records of a store, and from offers. One of version 1 gets the digests of the functions where it is of this pipeline.
#[tactic(auto, using(pie_files::proofs::Reading::reads, crate::proofs::Saying::starts_none))]
pub(crate) fn evaluate<F: Files, O: Offers>(
    alloc: Global,
    files: &mut F,
    project: &Project,
    image: StoreImage,
    offers: &mut O,
    runs: &mut Runs,
) -> Result<Evaluated, FilesError>
    requires { CanSettle image project.now }
    ensures made { IfOk result (λ e. IsMade project.now.digests.items project.now.roots.items e.built.value) }
    ensures clean { IfOk result (λ e. MakesFrom (F.holds files.old) project.now image (O.told offers.old) e.built.value) }
    ensures runs { IfOk result (λ e. RunsFrom (F.holds files.old) project.now image (O.told offers.old) runs.old runs.new e.reused.items e.built.value.verdict) }
    ensures files { IfOk result (λ e. FilesFrom (F.holds files.old) project.now image (O.told offers.old) runs.old runs.new e.reused.items e.built.value) }
    ensures reused { IfOk result (λ e. All IsEncodableTask e.reused.items) }
    ensures starts { StartsFew runs.old runs.new }
    ensures reads { ReadsOnly F.holds F.moment F.left_since F.images F.faults files.old files.new result }
{
    let mut image = Box::new(alloc, image)?;
    put_digests(alloc, files, &mut image, project.digests.as_slice())?;
    let code = compile(alloc, &project.typed)?;
    settled(alloc, files, project, code.as_slice(), image, offers, runs)
}

// The same with the code of the functions.
#[tactic(auto, using(pie_files::proofs::Reading::reads, crate::proofs::Making::added_encodable))]
fn settled<F: Files, O: Offers>(
    alloc: Global,
    files: &mut F,
    project: &Project,
    code: &[Checked],
    image: Box<StoreImage>,
    offers: &mut O,
    runs: &mut Runs,
) -> Result<Evaluated, FilesError>
    requires { CanSettle image.value project.now }
    ensures made { IfOk result (λ e. IsMade project.now.digests.items project.now.roots.items e.built.value) }
    ensures clean { IsProgram project.now.typed code.now image.value.rows
        → IfOk result (λ e. MakesClean (F.holds files.old) project.now.typed image.value.funcs project.now.digests.items image.value.rows (O.told offers.old) project.now.roots.items e.built.value) }
    ensures runs { IsProgram project.now.typed code.now image.value.rows
        → IfOk result (λ e. RunsForReasons (F.holds files.old) project.now.typed image.value.funcs project.now.digests.items image.value.rows (O.told offers.old)
        project.now.roots.items runs.old runs.new [] e.reused.items e.built.value.verdict) }
    ensures files { IsProgram project.now.typed code.now image.value.rows
        → IfOk result (λ e. MakesFilesOf (F.holds files.old) project.now.typed image.value.funcs project.now.digests.items image.value.rows (O.told offers.old)
        project.now.roots.items runs.old runs.new [] e.reused.items e.built.value) }
    ensures reuses { ReusesOffered (F.holds files.old) (O.told offers.old) result }
    ensures starts { StartsFew runs.old runs.new }
    ensures reads { ReadsOnly F.holds F.moment F.left_since F.images F.faults files.old files.new result }
{
    let mut reused = Vec::new(alloc);
    let built = topdown(
        alloc,
        &project.typed,
        code,
        project.digests.as_slice(),
        Box::into_inner(image),
        project.roots.as_slice(),
        offers,
        files,
        runs,
        &mut reused,
    )?;
    let built = Box::new(alloc, built)?;
    Ok(Evaluated { built, reused })
}
