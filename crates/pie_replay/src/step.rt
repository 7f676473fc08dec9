//! One step of a script.
ghost use Rattle.std.specs.Prelude.{◌≡◌, ◌<◌, ◌∷◌, [], ◌++◌, vec_len, vec_capacity, IfErr, OnOk, OnErr};
ghost use Rattle.pie_build.specs.Crashes.{StaysAtRest};
ghost use Rattle.pie_build.specs.inner.Rebuilt.{Tells};
ghost use Rattle.pie_commit.specs.Outcomes.{LeavesFromRest};
ghost use Rattle.pie_files.specs.Images.{MayLeave, MayRemove, MayWrite};
ghost use Rattle.pie_incremental.specs.Crashes.{MayStop};
ghost use Rattle.pie_replay.specs.Replays.{Fails};
ghost use Rattle.pie_replay.specs.Trace.{HasPut, HasDeleted};
ghost use Rattle.pie_replay.specs.inner.Goes.{Goes, LeavesGoing, RestsAfter};
ghost use Rattle.pie_script.specs.Steps.{plain, BuildNow, DelFile, PutFile};

use pie_base::{OutOfMemory, Path};
use pie_files::{Files, FilesError};
use pie_incremental::build;
use pie_project::BuildError;
use pie_report::Report;
use pie_script::Step;
use pie_vm::Runs;
use std::alloc::Global;

/// Does one step. A build has the names so far, and forgets them.
pub(crate) fn go<F: Files>(
    alloc: Global,
    files: &mut F,
    step: &Step,
    names: &mut Vec<Path>,
    runs: &mut Runs,
    done: &mut Vec<Report>,
) -> Result<(), BuildError>
    ensures goes { OnOk result (Goes F.holds F.asked (plain step.now) files.old files.new names.old.items names.new.items done.old.items done.new.items runs.old runs.new) }
    ensures fails { IfErr result (λ e. Fails F.holds (plain step.now) e files.old files.new) }
    ensures crash { LeavesGoing F.holds F.moment F.left_since F.images (plain step.now) names.old.items files.old files.new }
    ensures rests { OnOk result (RestsAfter F.holds F.images (plain step.now) files.old files.new) }
    ensures reports { OnErr result (done.new.items ≡ done.old.items) }
    ensures told { Tells F.faults files.old files.new result }
{
    match step {
        Step::Put(path, bytes) => put(files, path, bytes.as_slice()),
        Step::Del(path) => delete(files, path),
        Step::Change(path) => name(names, path),
        Step::Build => build_now(alloc, files, names, runs, done),
    }
}

fn put<F: Files>(files: &mut F, path: &Path, bytes: &[u8]) -> Result<(), BuildError>
    ensures put { OnOk result (HasPut F.holds path.now bytes.now files.old files.new) }
    ensures fails { IfErr result (λ e. Fails F.holds (PutFile path.now bytes.now) e files.old files.new) }
    ensures crash { MayLeave F.holds F.moment F.left_since F.images (MayWrite path.now) files.old files.new }
    ensures told { Tells F.faults files.old files.new result }
{
    match files.write(path, bytes) {
        Ok(()) => Ok(()),
        Err(FilesError::Failed) => Err(BuildError::Files),
        Err(FilesError::OutOfMemory) => Err(BuildError::OutOfMemory),
    }
}

fn delete<F: Files>(files: &mut F, path: &Path) -> Result<(), BuildError>
    ensures deleted { OnOk result (HasDeleted F.holds path.now files.old files.new) }
    ensures fails { IfErr result (λ e. Fails F.holds (DelFile path.now) e files.old files.new) }
    ensures crash { MayLeave F.holds F.moment F.left_since F.images (MayRemove path.now) files.old files.new }
    ensures told { Tells F.faults files.old files.new result }
{
    match files.remove(path) {
        Ok(()) => Ok(()),
        Err(FilesError::Failed) => Err(BuildError::Files),
        Err(FilesError::OutOfMemory) => Err(BuildError::OutOfMemory),
    }
}

fn name(names: &mut Vec<Path>, path: &Path) -> Result<(), BuildError>
    ensures named { OnOk result (names.new.items ≡ names.old.items ++ path.now ∷ []) }
    ensures memory { IfErr result (λ e. e ≡ BuildError.OutOfMemory) }
{
    match push_copy(names, path) {
        Ok(()) => Ok(()),
        Err(OutOfMemory) => Err(BuildError::OutOfMemory),
    }
}

fn push_copy(names: &mut Vec<Path>, path: &Path) -> Result<(), OutOfMemory>
    ensures { OnOk result (names.new.items ≡ names.old.items ++ path.now ∷ []) }
{
    let copy = path.copy()?;
    names.push(copy)?;
    Ok(())
}

// Room for the report is taken before the build, so that a build that is done has its report.
fn build_now<F: Files>(
    alloc: Global,
    files: &mut F,
    names: &mut Vec<Path>,
    runs: &mut Runs,
    done: &mut Vec<Report>,
) -> Result<(), BuildError>
    ensures goes { OnOk result (Goes F.holds F.asked BuildNow files.old files.new names.old.items names.new.items done.old.items done.new.items runs.old runs.new) }
    ensures fails { IfErr result (λ e. Fails F.holds BuildNow e files.old files.new) }
    ensures crash { LeavesGoing F.holds F.moment F.left_since F.images BuildNow names.old.items files.old files.new }
    ensures rests { OnOk result (RestsAfter F.holds F.images BuildNow files.old files.new) }
    ensures reports { OnErr result (done.new.items ≡ done.old.items) }
    ensures told { Tells F.faults files.old files.new result }
{
    match done.reserve(1) {
        Ok(()) => build_from_rest(alloc, files, names, runs, done),
        Err(_) => Err(BuildError::OutOfMemory),
    }
}

// What was put and removed is made to last before the build begins, so that a crash in it leaves what it may leave of the directory that it finds.
fn build_from_rest<F: Files>(
    alloc: Global,
    files: &mut F,
    names: &mut Vec<Path>,
    runs: &mut Runs,
    done: &mut Vec<Report>,
) -> Result<(), BuildError>
    requires { vec_len done.old < vec_capacity done.old }
    ensures goes { OnOk result (Goes F.holds F.asked BuildNow files.old files.new names.old.items names.new.items done.old.items done.new.items runs.old runs.new) }
    ensures fails { IfErr result (λ e. Fails F.holds BuildNow e files.old files.new) }
    ensures crash { LeavesGoing F.holds F.moment F.left_since F.images BuildNow names.old.items files.old files.new }
    ensures rests { OnOk result (RestsAfter F.holds F.images BuildNow files.old files.new) }
    ensures reports { OnErr result (done.new.items ≡ done.old.items) }
    ensures told { Tells F.faults files.old files.new result }
{
    match files.sync() {
        Ok(()) => build_into(alloc, files, names, runs, done),
        Err(FilesError::Failed) => Err(BuildError::Files),
        Err(FilesError::OutOfMemory) => Err(BuildError::OutOfMemory),
    }
}

fn build_into<F: Files>(
    alloc: Global,
    files: &mut F,
    names: &mut Vec<Path>,
    runs: &mut Runs,
    done: &mut Vec<Report>,
) -> Result<(), BuildError>
    requires { vec_len done.old < vec_capacity done.old }
    ensures goes { OnOk result (Goes F.holds F.asked BuildNow files.old files.new names.old.items names.new.items done.old.items done.new.items runs.old runs.new) }
    ensures fails { IfErr result (λ e. Fails F.holds BuildNow e files.old files.new) }
    ensures crash { LeavesFromRest F.holds F.moment F.left_since F.images (MayStop names.old.items) files.old files.new }
    ensures rests { OnOk result (StaysAtRest F.holds F.images files.old files.new) }
    ensures reports { OnErr result (done.new.items ≡ done.old.items) }
    ensures told { Tells F.faults files.old files.new result }
{
    match build(alloc, files, names.as_slice(), runs) {
        Ok(report) => {
            names.clear();
            done.push_reserved(report);
            Ok(())
        }
        Err(error) => Err(error),
    }
}
