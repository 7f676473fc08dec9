//! Opening the cache: what a stopped build may have left half written is removed.
ghost use Rattle.std.specs.List.{filter};
ghost use Rattle.std.specs.Prelude.{◌≡◌, ◌++◌, ◌∷◌, [], true, codes, All, IfOk, IfSome, OnOk};
ghost use Rattle.pie_commit.specs.Outcomes.{HasBrought, IsEnding, LeavesFromRest};
ghost use Rattle.pie_commit.specs.inner.Plans.{Gone, at, removed};
ghost use Rattle.pie_commit.specs.inner.Steps.{Makes, Removes, Syncs, removing};
ghost use Rattle.pie_files.specs.Directory.{files_under};
ghost use Rattle.pie_files.specs.Images.{MayLeave, MayRemove, Only, Stays};
ghost use Rattle.pie_files.specs.Streams.{Counted};
ghost use Rattle.pie_cache.specs.inner.Places.{gate as specs_gate, is_in_cache, AreItsPaths};
ghost use Rattle.pie_cache.specs.inner.Changes.{ChangesCacheOnly, EndsAtRest, KeepsOutside, LeavesAlike, StaysAtRest};
ghost use Rattle.pie_cache.specs.inner.Clearing.{HasCleared, IsApart, IsOpened, IsInside, is_other};
ghost use Rattle.pie_cache.specs.inner.Gated.{HasGate, KeepsGate, OpensWhole};
ghost use Rattle.pie_cache.specs.inner.Steps.{clearing, closing, opening, Changes};

use crate::Cache;
use pie_base::{OutOfMemory, Path};
use pie_files::{Files, FilesError};
use std::alloc::Global;

impl Cache {
    /// The cache. Where its gate stands, as after a stop while files of it were written, all other files below `.pie/cache` are removed first, and
    /// then the gate. It changes no other file. `Failed` comes only where the count of faults rose.
    #[tactic(auto, using(crate::proofs::Changing::changes))]
    pub fn open<F: Files>(alloc: Global, files: &mut F) -> Result<Cache, FilesError>
        ensures cleared { OnOk result (IfSome (F.holds files.old) (λ d. IsOpened d (F.holds files.new))) }
        ensures changes { OnOk result (IfSome (F.holds files.old) (λ d. Changes (opening d) (F.asked files.old) (F.asked files.new))) }
        ensures whole { LeavesFromRest F.holds F.moment F.left_since F.images OpensWhole files.old files.new }
        ensures durable { OnOk result (StaysAtRest F.holds F.images files.old files.new) }
        ensures kept { KeepsOutside (F.holds files.old) (F.holds files.new) }
        ensures crash { LeavesAlike F.holds F.moment F.left_since F.images files.old files.new }
        ensures counted { Counted F.faults FilesError.Failed files.old files.new result }
    {
        let gate = gate(alloc)?;
        let dir = dir(alloc)?;
        clear_if_gated(alloc, files, &gate, &dir)?;
        Ok(Cache { opened: () })
    }
}

/// `.pie/cache/open`, which stands while files of the cache are written.
pub(crate) fn gate(alloc: Global) -> Result<Path, OutOfMemory>
    ensures { IfOk result (λ path. path ≡ specs_gate) }
{
    Path::known(alloc, ".pie/cache/open")
}

fn dir(alloc: Global) -> Result<Path, OutOfMemory>
    ensures { IfOk result (λ path. path ≡ codes ".pie/cache") }
{
    Path::known(alloc, ".pie/cache")
}

// Removes all files below the directory, if the gate stands.
#[tactic(auto, using(crate::proofs::Changing::changes))]
fn clear_if_gated<F: Files>(
    alloc: Global,
    files: &mut F,
    gate: &Path,
    dir: &Path,
) -> Result<(), FilesError>
    requires { AreItsPaths gate.now dir.now }
    ensures cleared { OnOk result (IfSome (F.holds files.old) (λ d. IsOpened d (F.holds files.new))) }
    ensures changes { OnOk result (IfSome (F.holds files.old) (λ d. Changes (opening d) (F.asked files.old) (F.asked files.new))) }
    ensures whole { LeavesFromRest F.holds F.moment F.left_since F.images OpensWhole files.old files.new }
    ensures durable { OnOk result (StaysAtRest F.holds F.images files.old files.new) }
    ensures outside { ChangesCacheOnly F.holds F.moment F.left_since F.images files.old files.new }
    ensures counted { Counted F.faults FilesError.Failed files.old files.new result }
{
    if files.exists(gate)? {
        return clear(alloc, files, gate, dir);
    }
    Ok(())
}

// Removes all files below the directory, the gate last.
fn clear<F: Files>(alloc: Global, files: &mut F, gate: &Path, dir: &Path) -> Result<(), FilesError>
    requires paths { AreItsPaths gate.now dir.now }
    requires stands { IfSome (F.holds files.old) HasGate }
    ensures cleared { OnOk result (IfSome (F.holds files.old) (λ d. HasCleared (F.holds files.new))) }
    ensures changes { OnOk result (IfSome (F.holds files.old) (λ d. Changes (clearing (filter is_other (files_under d (codes ".pie/cache")))) (F.asked files.old) (F.asked files.new))) }
    ensures whole { LeavesFromRest F.holds F.moment F.left_since F.images OpensWhole files.old files.new }
    ensures durable { OnOk result (EndsAtRest F.holds F.images files.old files.new) }
    ensures outside { ChangesCacheOnly F.holds F.moment F.left_since F.images files.old files.new }
    ensures counted { Counted F.faults FilesError.Failed files.old files.new result }
{
    let paths = files.all_under(dir)?;
    let others = others(alloc, gate, dir, paths)?;
    remove_all(files, others.as_slice())?;
    make_last(files)?;
    close(files, gate)
}

// The paths below the directory, without the gate.
fn others(
    alloc: Global,
    gate: &Path,
    dir: &Path,
    paths: Vec<Path>,
) -> Result<Vec<Path>, OutOfMemory>
    requires gate { gate.now ≡ specs_gate }
    requires dir { dir.now ≡ codes ".pie/cache" }
    ensures others { IfOk result (λ others. others.items ≡ filter is_other paths.items) }
    ensures inside { IfOk result (λ others. All IsInside others.items) }
    ensures apart { IfOk result (λ others. All IsApart others.items) }
{
    let mut others = Vec::new(alloc);
    for path in paths {
        push_other(&mut others, gate, dir, path)?;
    }
    Ok(others)
}

fn push_other(
    others: &mut Vec<Path>,
    gate: &Path,
    dir: &Path,
    path: Path,
) -> Result<(), OutOfMemory>
    requires gate { gate.now ≡ specs_gate }
    requires dir { dir.now ≡ codes ".pie/cache" }
    ensures { OnOk result (others.new.items ≡ others.old.items ++ filter is_other (path ∷ [])) }
{
    if path.is_below(dir) && path != *gate {
        others.push(path)?;
    }
    Ok(())
}

fn remove_all<F: Files>(files: &mut F, paths: &[Path]) -> Result<(), FilesError>
    requires inside { All IsInside paths.now }
    requires apart { All IsApart paths.now }
    ensures done { OnOk result (HasBrought (removed paths.now) (F.holds files.old) (F.holds files.new)) }
    ensures makes { Makes F.asked (removing paths.now) files.old files.new result }
    ensures gated { KeepsGate F.holds F.moment F.left_since F.images files.old files.new }
    ensures kept { KeepsOutside (F.holds files.old) (F.holds files.new) }
    ensures crash { LeavesAlike F.holds F.moment F.left_since F.images files.old files.new }
    ensures counted { Counted F.faults FilesError.Failed files.old files.new result }
{
    for path in paths {
        remove(files, path)?;
    }
    Ok(())
}

fn remove<F: Files>(files: &mut F, path: &Path) -> Result<(), FilesError>
    requires { is_in_cache path.now ≡ true }
    ensures done { OnOk result (HasBrought (at path.now Gone) (F.holds files.old) (F.holds files.new)) }
    ensures makes { Makes F.asked (Removes path.now ∷ []) files.old files.new result }
    ensures may { MayLeave F.holds F.moment F.left_since F.images (MayRemove path.now) files.old files.new }
    ensures kept { KeepsOutside (F.holds files.old) (F.holds files.new) }
    ensures crash { LeavesAlike F.holds F.moment F.left_since F.images files.old files.new }
    ensures counted { Counted F.faults FilesError.Failed files.old files.new result }
{
    files.remove(path)
}

/// Takes the gate away, and makes that last.
#[tactic(auto, using(crate::proofs::Changing::changes))]
pub(crate) fn close<F: Files>(files: &mut F, gate: &Path) -> Result<(), FilesError>
    requires { gate.now ≡ specs_gate }
    ensures done { OnOk result (HasBrought (at specs_gate Gone) (F.holds files.old) (F.holds files.new)) }
    ensures makes { Makes F.asked closing files.old files.new result }
    ensures ending { LeavesFromRest F.holds F.moment F.left_since F.images (IsEnding specs_gate) files.old files.new }
    ensures durable { OnOk result (EndsAtRest F.holds F.images files.old files.new) }
    ensures kept { KeepsOutside (F.holds files.old) (F.holds files.new) }
    ensures crash { LeavesAlike F.holds F.moment F.left_since F.images files.old files.new }
    ensures counted { Counted F.faults FilesError.Failed files.old files.new result }
{
    remove(files, gate)?;
    make_last(files)
}

/// Makes what was done so far outlast a crash.
pub(crate) fn make_last<F: Files>(files: &mut F) -> Result<(), FilesError>
    ensures same { F.holds files.new ≡ F.holds files.old }
    ensures makes { Makes F.asked (Syncs ∷ []) files.old files.new result }
    ensures durable { IfSome (F.holds files.old) (λ d. OnOk result (Only d (F.images files.new))) }
    ensures may { MayLeave F.holds F.moment F.left_since F.images Stays files.old files.new }
    ensures kept { KeepsOutside (F.holds files.old) (F.holds files.new) }
    ensures crash { LeavesAlike F.holds F.moment F.left_since F.images files.old files.new }
    ensures counted { Counted F.faults FilesError.Failed files.old files.new result }
{
    files.sync()
}
