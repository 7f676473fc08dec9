//! One round of a demo.
ghost use Rattle.std.specs.Prelude.{◌≡◌, ◌≤◌, ◌<◌, ◌-◌, ℕ, IfOk, OnOk};
ghost use Rattle.pie_files.specs.inner.SureFiles.{held_by};
ghost use Rattle.pie_demo.specs.Sources.{HasSources};
ghost use Rattle.pie_demo.specs.Rounds.{DoesRound};
ghost use Rattle.pie_demo.specs.inner.Steps.{TellsLive, BuildsNamed, Rebuilds, Answers};

use crate::comparing::are_same;
use crate::copying::copy_of;
use crate::sources::change;
use pie_base::{OutOfMemory, Path};
use pie_build::rebuild;
use pie_files::SureFiles;
use pie_incremental::build;
use pie_project::BuildError;
use pie_report::Report;
use pie_vm::Runs;
use std::alloc::Global;
use std::slice::from_ref;

/// Does round `k` of a demo, from 1 on: one file changes, the project is built by this one name, and a copy of its sources is built afresh.
/// Answers whether both then have the same files with the same bytes; `false` where the project is refused. The tasks that the build started are added
/// to `runs`, those of the copy's build to `clean`. Rule: docs/FORMATS.md, "The demo".
pub fn round(
    alloc: Global,
    files: &mut SureFiles,
    seed: u64,
    size: u32,
    k: u32,
    runs: &mut Runs,
    clean: &mut Runs,
) -> Result<bool, OutOfMemory>
    requires some { 0 < size }
    requires few { size ≤ 1000 }
    requires first { 0 < k }
    requires last { k ≤ 1000 }
    ensures sources { HasSources seed size (k - 1) (held_by files.old) → OnOk result (HasSources seed size k (held_by files.new)) }
    ensures round { HasSources seed size (k - 1) (held_by files.old) → IfOk result (λ same. (live : ℕ) × DoesRound seed size k (held_by files.old) (held_by files.new) runs.old runs.new clean.old clean.new live same) }
{
    let done = go(alloc, files, seed, size, k, runs, clean)?;
    Ok(done.is_same)
}

/// What a round found.
#[derive(Clone, Copy)]
pub(crate) struct RoundResult {
    /// Whether the build left what the clean build of the copy left.
    pub(crate) is_same: bool,
    /// How many tasks the roots reach in the clean build of the copy.
    pub(crate) live: u32,
}

/// Does round `k`.
pub(crate) fn go(
    alloc: Global,
    files: &mut SureFiles,
    seed: u64,
    size: u32,
    k: u32,
    runs: &mut Runs,
    clean: &mut Runs,
) -> Result<RoundResult, OutOfMemory>
    requires some { 0 < size }
    requires few { size ≤ 1000 }
    requires first { 0 < k }
    requires last { k ≤ 1000 }
    ensures sources { HasSources seed size (k - 1) (held_by files.old) → OnOk result (HasSources seed size k (held_by files.new)) }
    ensures round { HasSources seed size (k - 1) (held_by files.old) → IfOk result (λ r. DoesRound seed size k (held_by files.old) (held_by files.new) runs.old runs.new clean.old clean.new r.live r.is_same) }
{
    let path = change(alloc, files, seed, size, k)?;
    let was_built = build_named(alloc, files, from_ref(&path), runs)?;
    let mut copy = copy_of(alloc, files)?;
    let live = rebuilt(alloc, &mut copy, clean)?;
    let is_same = answer(alloc, was_built, files, &mut copy)?;
    Ok(RoundResult { is_same, live })
}

// The answer of a round: whether the project was built, and both are the same.
fn answer(
    alloc: Global,
    was_built: bool,
    files: &mut SureFiles,
    copy: &mut SureFiles,
) -> Result<bool, OutOfMemory>
    ensures told { IfOk result (Answers was_built (held_by files.old) (held_by copy.old)) }
    ensures same { held_by files.new ≡ held_by files.old }
{
    if !was_built {
        return Ok(false);
    }
    are_same(alloc, files, copy)
}

// Builds the project by one name. Answers whether it isn't refused.
fn build_named(
    alloc: Global,
    files: &mut SureFiles,
    names: &[Path],
    runs: &mut Runs,
) -> Result<bool, OutOfMemory>
    ensures { IfOk result (BuildsNamed names.now (held_by files.old) (held_by files.new) runs.old runs.new) }
{
    let live = live_of(build(alloc, files, names, runs))?;
    Ok(live.is_some())
}

/// Builds a project afresh, and answers how many tasks its roots reach: none where it is refused.
pub(crate) fn rebuilt(
    alloc: Global,
    files: &mut SureFiles,
    runs: &mut Runs,
) -> Result<u32, OutOfMemory>
    ensures { IfOk result (Rebuilds (held_by files.old) (held_by files.new) runs.old runs.new) }
{
    match live_of(rebuild(alloc, files, runs))? {
        Some(live) => Ok(live),
        None => Ok(0),
    }
}

// How many tasks the roots reach, by a report; none where the project is refused. Files in memory don't fail.
fn live_of(built: Result<Report, BuildError>) -> Result<Option<u32>, OutOfMemory>
    ensures { IfOk result (TellsLive built) }
{
    match built {
        Ok(report) => Ok(Some(report.live)),
        Err(BuildError::Pipeline(_)) => Ok(None),
        Err(BuildError::Roots(_)) => Ok(None),
        Err(BuildError::Files) => Err(OutOfMemory),
        Err(BuildError::OutOfMemory) => Err(OutOfMemory),
    }
}
