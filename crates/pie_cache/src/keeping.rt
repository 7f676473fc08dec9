//! Keeping what tasks gave. Rule: docs/FORMATS.md, "The cache".
ghost use Rattle.std.specs.Prelude.{◌≡◌, true, false, [], ◌∷◌, All, IfSome, OnOk};
ghost use Rattle.pie_commit.specs.Outcomes.{HasBrought, LeavesFromRest};
ghost use Rattle.pie_commit.specs.inner.Plans.{Bytes, Gone, at, is_none, later, written};
ghost use Rattle.pie_commit.specs.inner.Steps.{Makes, Writes, Syncs, writing};
ghost use Rattle.pie_files.specs.Images.{MayLeave, MayWrite};
ghost use Rattle.pie_files.specs.Streams.{Counted};
ghost use Rattle.pie_cache.specs.inner.Places.{gate as specs_gate, is_in_cache};
ghost use Rattle.pie_cache.specs.inner.Changes.{ChangesCacheOnly, EndsAtRest, KeepsOutside, LeavesAlike, StaysAtRest};
ghost use Rattle.pie_cache.specs.inner.Contents.{IsNews, IsDraft};
ghost use Rattle.pie_cache.specs.inner.Gated.{AllGated, IsBegun, IsWhole, KeepsGate, KeepsWhole};
ghost use Rattle.pie_cache.specs.inner.Keeping.{HasKept};
ghost use Rattle.pie_cache.specs.inner.Steps.{putting, ChangesFor};

use crate::Cache;
use crate::drafting::drafts;
use crate::opening::{close, gate, make_last};
use pie_base::Path;
use pie_files::{Files, FilesError};
use pie_store::Offer;
use std::alloc::Global;

impl Cache {
    /// Keeps what tasks gave: the file at each path gets its offer in front of the first three entries that it has, or of all where there are fewer. A
    /// file that would have more than 16,777,216 bytes stays as it is, and where a path stands twice its last offer alone counts. All texts are made
    /// before the first file changes. The gate stands while files are written, so that a stop is told. With nothing to keep there is no call.
    #[tactic(auto, using(crate::proofs::Changing::changes))]
    pub fn keep<F: Files>(
        &mut self,
        alloc: Global,
        files: &mut F,
        fresh: Vec<(Path, Offer)>,
    ) -> Result<(), FilesError>
        requires { All IsNews fresh.items }
        ensures nothing { is_none fresh.items ≡ true → files.new ≡ files.old }
        ensures done { is_none fresh.items ≡ false → OnOk result (HasKept fresh.items (F.holds files.old) (F.holds files.new)) }
        ensures changes { is_none fresh.items ≡ false → OnOk result (IfSome (F.holds files.old) (λ d. ChangesFor fresh.items d (F.asked files.old) (F.asked files.new))) }
        ensures whole { LeavesFromRest F.holds F.moment F.left_since F.images (KeepsWhole fresh.items) files.old files.new }
        ensures durable { OnOk result (StaysAtRest F.holds F.images files.old files.new) }
        ensures outside { ChangesCacheOnly F.holds F.moment F.left_since F.images files.old files.new }
        ensures counted { Counted F.faults FilesError.Failed files.old files.new result }
    {
        if fresh.is_empty() {
            return Ok(());
        }
        let gate = gate(alloc)?;
        let drafts = drafts(alloc, files, fresh)?;
        put_drafts(files, &gate, drafts.as_slice())
    }
}

// Writes these files while the gate stands.
fn put_drafts<F: Files>(
    files: &mut F,
    gate: &Path,
    drafts: &[(Path, Vec<u8>)],
) -> Result<(), FilesError>
    requires gate { gate.now ≡ specs_gate }
    requires drafts { All IsDraft drafts.now }
    ensures done { OnOk result (HasBrought (λ q. later (at specs_gate Gone q) (written drafts.now q)) (F.holds files.old) (F.holds files.new)) }
    ensures makes { Makes F.asked (putting drafts.now) files.old files.new result }
    ensures whole { LeavesFromRest F.holds F.moment F.left_since F.images (IsWhole (written drafts.now)) files.old files.new }
    ensures durable { OnOk result (EndsAtRest F.holds F.images files.old files.new) }
    ensures outside { ChangesCacheOnly F.holds F.moment F.left_since F.images files.old files.new }
    ensures counted { Counted F.faults FilesError.Failed files.old files.new result }
{
    set(files, gate)?;
    write_all(files, drafts)?;
    make_last(files)?;
    close(files, gate)
}

// Sets the gate, and makes it last before the first file changes.
#[tactic(auto, using(crate::proofs::Changing::changes))]
fn set<F: Files>(files: &mut F, gate: &Path) -> Result<(), FilesError>
    requires { gate.now ≡ specs_gate }
    ensures done { OnOk result (HasBrought (at specs_gate (Bytes [])) (F.holds files.old) (F.holds files.new)) }
    ensures makes { Makes F.asked (Writes specs_gate ∷ Syncs ∷ []) files.old files.new result }
    ensures begun { LeavesFromRest F.holds F.moment F.left_since F.images IsBegun files.old files.new }
    ensures stands { OnOk result (IfSome (F.holds files.old) (λ d. AllGated (F.images files.new))) }
    ensures kept { KeepsOutside (F.holds files.old) (F.holds files.new) }
    ensures crash { LeavesAlike F.holds F.moment F.left_since F.images files.old files.new }
    ensures counted { Counted F.faults FilesError.Failed files.old files.new result }
{
    write(files, gate, b"")?;
    make_last(files)
}

fn write_all<F: Files>(files: &mut F, drafts: &[(Path, Vec<u8>)]) -> Result<(), FilesError>
    requires { All IsDraft drafts.now }
    ensures done { OnOk result (HasBrought (written drafts.now) (F.holds files.old) (F.holds files.new)) }
    ensures makes { Makes F.asked (writing drafts.now) files.old files.new result }
    ensures gated { KeepsGate F.holds F.moment F.left_since F.images files.old files.new }
    ensures kept { KeepsOutside (F.holds files.old) (F.holds files.new) }
    ensures crash { LeavesAlike F.holds F.moment F.left_since F.images files.old files.new }
    ensures counted { Counted F.faults FilesError.Failed files.old files.new result }
{
    for (path, bytes) in drafts {
        write(files, path, bytes.as_slice())?;
    }
    Ok(())
}

fn write<F: Files>(files: &mut F, path: &Path, bytes: &[u8]) -> Result<(), FilesError>
    requires { is_in_cache path.now ≡ true }
    ensures done { OnOk result (HasBrought (at path.now (Bytes bytes.now)) (F.holds files.old) (F.holds files.new)) }
    ensures makes { Makes F.asked (Writes path.now ∷ []) files.old files.new result }
    ensures may { MayLeave F.holds F.moment F.left_since F.images (MayWrite path.now) files.old files.new }
    ensures kept { KeepsOutside (F.holds files.old) (F.holds files.new) }
    ensures crash { LeavesAlike F.holds F.moment F.left_since F.images files.old files.new }
    ensures counted { Counted F.faults FilesError.Failed files.old files.new result }
{
    files.write(path, bytes)
}
