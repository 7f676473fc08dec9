//! A clean build of a directory.
ghost use Rattle.std.specs.Prelude.{◌≡◌, ◌≤◌, IfSome, IfOk, OnOk, drop, length};
ghost use Rattle.pie_files.specs.Streams.{Counted};
ghost use Rattle.pie_files.specs.Reading.{ReadsOnly};
ghost use Rattle.pie_fresh.specs.inner.Builds.{Gains, IsKept, StoredWhere};
ghost use Rattle.pie_fresh.specs.inner.Asked.{AsksForSeen};
ghost use Rattle.pie_fresh.specs.Cleans.{IsCleanOf};
ghost use Rattle.pie_project.specs.Refusals.{IsVerdict, Says};
ghost use Rattle.pie_build.specs.Crashes.{StaysAtRest, Withstands};
ghost use Rattle.pie_build.specs.Left.{Leaves};
ghost use Rattle.pie_build.specs.inner.Asked.{AsksBuilt, AsksOfProject, MakesOwn};
ghost use Rattle.pie_build.specs.inner.Projects.{CanBePlaced, IsBuildable, IsCleanBy, IsReady, LeavesFor, Rebuilds, ReportsStarted};
ghost use Rattle.pie_build.specs.inner.Rebuilt.{IsReport, LeavesOfProject, RefusesIdle, SaysAlone, Tells};
ghost use Rattle.pie_build.specs.Stored.{MayStand, IsStoreOf};

use crate::outcome::refused;
use crate::place::{Made, put_into_place};
use crate::store::store_text;
use crate::tasks::copies;
use pie_base::{OutOfMemory, Path};
use pie_checks::Built;
use pie_codegen::compile;
use pie_files::{Files, FilesError};
use pie_fresh::fresh;
use pie_project::{BuildError, Project, read_project};
use pie_record::TaskRecord;
use pie_report::Report;
use pie_value::{Task, Value, Verdict};
use pie_vm::Runs;
use std::alloc::Global;

/// Builds the project of a directory as from an empty store, and puts an accepted build into place: its files, its
/// store, and no pending names. A refused build changes no file. The whole plan and the report are made before the
/// first write. The tasks that are started are added to the runs, and reported.
/// Rule: docs/BUILDING.md, "A clean build".
#[tactic(auto, using(crate::proofs::Crashing::withstands_still, crate::proofs::Crashing::rests_still, crate::proofs::Crashing::rests_then))]
pub fn rebuild<F: Files>(
    alloc: Global,
    files: &mut F,
    runs: &mut Runs,
) -> Result<Report, BuildError>
    ensures says { SaysAlone (F.holds files.old) result }
    ensures files { LeavesOfProject (F.holds files.old) (F.holds files.new) result }
    ensures refuses { RefusesIdle (F.holds files.old) (F.holds files.new) runs.old runs.new result }
    ensures crash { Withstands F.holds F.moment F.left_since F.images Leaves files.old files.new }
    ensures durable { IsVerdict result → StaysAtRest F.holds F.images files.old files.new }
    ensures started { ReportsStarted runs.old runs.new result }
    ensures told { Tells F.faults files.old files.new result }
    ensures asks { AsksOfProject (F.holds files.old) runs.old runs.new (F.asked files.old) (F.asked files.new) result }
{
    match read_project(alloc, files) {
        Ok(project) => with_project(alloc, files, project, runs),
        Err(error) => Err(error),
    }
}

// Builds this project.
fn with_project<F: Files>(
    alloc: Global,
    files: &mut F,
    project: Project,
    runs: &mut Runs,
) -> Result<Report, BuildError>
    requires { IsBuildable (F.holds files.old) project }
    ensures says { Says (λ r. r) IsReport result }
    ensures rebuilds { Rebuilds project (F.holds files.old) (F.holds files.new) result }
    ensures crash { Withstands F.holds F.moment F.left_since F.images (LeavesFor project) files.old files.new }
    ensures durable { IsVerdict result → StaysAtRest F.holds F.images files.old files.new }
    ensures started { ReportsStarted runs.old runs.new result }
    ensures told { Tells F.faults files.old files.new result }
    ensures asks { IfSome (F.holds files.old) (λ d. AsksBuilt project.typed d runs.old runs.new (F.asked files.old) (F.asked files.new)) }
{
    match build(alloc, files, project, runs) {
        Ok(report) => Ok(report),
        Err(FilesError::Failed) => Err(BuildError::Files),
        Err(FilesError::OutOfMemory) => Err(BuildError::OutOfMemory),
    }
}

fn build<F: Files>(
    alloc: Global,
    files: &mut F,
    project: Project,
    runs: &mut Runs,
) -> Result<Report, FilesError>
    requires { IsBuildable (F.holds files.old) project }
    ensures rebuilds { Rebuilds project (F.holds files.old) (F.holds files.new) result }
    ensures crash { Withstands F.holds F.moment F.left_since F.images (LeavesFor project) files.old files.new }
    ensures durable { OnOk result (StaysAtRest F.holds F.images files.old files.new) }
    ensures started { ReportsStarted runs.old runs.new result }
    ensures counted { Counted F.faults FilesError.Failed files.old files.new result }
    ensures asks { IfSome (F.holds files.old) (λ d. AsksBuilt project.typed d runs.old runs.new (F.asked files.old) (F.asked files.new)) }
{
    let before = runs.count();
    let built = evaluate(alloc, files, &project, runs)?;
    let ran = since(alloc, runs, before)?;
    finish(alloc, files, project, built, ran)
}

// The result of the project.
#[tactic(auto, using(pie_files::proofs::Reading::reads))]
fn evaluate<F: Files>(
    alloc: Global,
    files: &mut F,
    project: &Project,
    runs: &mut Runs,
) -> Result<Built, FilesError>
    requires ready { IfSome (F.holds files.old) (λ d. IsReady project.now.typed project.now.roots.items) }
    ensures kept { IfOk result IsKept }
    ensures stored { IfOk result (λ b. StoredWhere b.verdict project.now.typed project.now.roots.items b) }
    ensures clean { IfSome (F.holds files.old) (λ d. IfOk result (IsCleanOf project.now.typed d project.now.roots.items runs.old runs.new)) }
    ensures asks { IfSome (F.holds files.old) (λ d. AsksForSeen project.now.typed d runs.old runs.new (F.asked files.old) (F.asked files.new)) }
    ensures runs { Gains 50000 runs.old runs.new }
    ensures reads { ReadsOnly F.holds F.moment F.left_since F.images F.faults files.old files.new result }
{
    let code = compile(alloc, &project.typed)?;
    let built = fresh(
        alloc,
        &project.typed,
        code.as_slice(),
        project.roots.as_slice(),
        files,
        runs,
    )?;
    Ok(built)
}

// The tasks that were started after so many others.
fn since(alloc: Global, runs: &Runs, before: usize) -> Result<Vec<Task>, OutOfMemory>
    requires { before ≤ length runs.now }
    ensures { IfOk result (λ ran. ran.items ≡ drop before runs.now) }
{
    let ran = copies(alloc, &runs.tasks()[before..])?;
    Ok(ran)
}

// Puts an accepted build of a project into place.
#[tactic(auto, using(crate::proofs::OwnPaths::same_keeps, crate::proofs::Crashing::withstands_none))]
fn finish<F: Files>(
    alloc: Global,
    files: &mut F,
    project: Project,
    built: Built,
    ran: Vec<Task>,
) -> Result<Report, FilesError>
    requires placed { CanBePlaced project built }
    requires clean { IfSome (F.holds files.old) (λ d. IsCleanBy project.typed d project.roots.items ran.items built) }
    ensures rebuilds { Rebuilds project (F.holds files.old) (F.holds files.new) result }
    ensures crash { Withstands F.holds F.moment F.left_since F.images (LeavesFor project) files.old files.new }
    ensures durable { OnOk result (StaysAtRest F.holds F.images files.old files.new) }
    ensures ran { IfOk result (λ r. r.ran ≡ ran) }
    ensures counted { Counted F.faults FilesError.Failed files.old files.new result }
    ensures asks { MakesOwn (F.asked files.old) (F.asked files.new) }
{
    let Built {
        verdict,
        rows,
        files: contents,
        outputs,
    } = built;
    match verdict {
        Verdict::Accepted => {
            let made = made_of(alloc, project, rows, contents, outputs)?;
            put_into_place(alloc, files, made, ran)
        }
        Verdict::Refused(refusal) => Ok(refused(alloc, refusal, ran)),
    }
}

// What an accepted build of a project has made, from its records, files and outputs.
fn made_of(
    alloc: Global,
    project: Project,
    rows: Vec<TaskRecord>,
    contents: Vec<(Path, Vec<u8>)>,
    outputs: Vec<(Task, Value)>,
) -> Result<Made, OutOfMemory>
    requires { MayStand project.digests.items project.roots.items rows.items }
    ensures contents { IfOk result (λ m. m.contents ≡ contents) }
    ensures outputs { IfOk result (λ m. m.outputs ≡ outputs) }
    ensures live { IfOk result (λ m. m.live ≡ length rows.items) }
    ensures store { IfOk result (λ m. IsStoreOf project.digests.items project.roots.items rows.items m.store.items) }
{
    let live = rows.len();
    let Project { digests, roots, .. } = project;
    let store = store_text(alloc, digests, roots, rows)?;
    Ok(Made {
        live,
        contents,
        outputs,
        store,
    })
}
