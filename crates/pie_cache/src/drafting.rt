//! The texts of the files of the cache that get a new entry.
ghost use Rattle.std.specs.BTreeMap.{get};
ghost use Rattle.std.specs.Cmp.Lexicographic.{slice_cmp};
ghost use Rattle.std.specs.Ordering.{nat_cmp};
ghost use Rattle.std.specs.Prelude.{◌≡◌, ◌∷◌, ℕ, List, All, IfOk, IfSome, OnOk, Some, cond, map, take, []};
ghost use Rattle.pie_commit.specs.inner.Plans.{at, later, written};
ghost use Rattle.pie_files.specs.Directory.{file_at};
ghost use Rattle.pie_files.specs.Reading.{ReadsOnly};
ghost use Rattle.pie_cache.specs.inner.Contents.{IsNews, IsNewsIn, IsDraft, IsKeptOffer};
ghost use Rattle.pie_cache.specs.inner.Keeping.{fitting, held_for, is_at, kept, last_for, text_in_front, AddsAt, IsDone};
ghost use Rattle.pie_cache.specs.inner.Places.{IsCachePath};
ghost use Rattle.pie_cache.specs.inner.Steps.{AreDrafts, Changes, HaveOwnPaths};
ghost use Rattle.pie_cache.specs.inner.Texts.{enc_cache, IsKept};
ghost use Rattle.pie_store.specs.inner.Offers.{offered};

use crate::encode_entries;
use crate::stored::stored;
use pie_base::{MAX_CACHE_BYTES, OutOfMemory, Path};
use pie_files::{Files, FilesError};
use pie_store::Offer;
use std::alloc::Global;
use std::collections::BTreeMap;

/// The most earlier entries that stay in a file.
const EARLIER: usize = 3;

/// The file of each path, with its last offer in front of the first entries that it has. A file that would be too long is none of them. It changes no file.
#[tactic(auto, using(pie_files::proofs::Reading::reads))]
pub(crate) fn drafts<F: Files>(
    alloc: Global,
    files: &mut F,
    fresh: Vec<(Path, Offer)>,
) -> Result<Vec<(Path, Vec<u8>)>, FilesError>
    requires { All IsNews fresh.items }
    ensures made { IfSome (F.holds files.old) (λ d. IfOk result (λ drafts. (q : List ℕ) → written drafts.items q ≡ kept (last_for fresh.items q) (file_at d q))) }
    ensures drafts { IfOk result (λ drafts. All IsDraft drafts.items) }
    ensures own { IfOk result (λ drafts. HaveOwnPaths drafts.items) }
    ensures looks { OnOk result (Changes [] (F.asked files.old) (F.asked files.new)) }
    ensures reads { ReadsOnly F.holds F.moment F.left_since F.images F.faults files.old files.new result }
{
    let latest = latest(alloc, fresh)?;
    let mut drafts = Vec::new(alloc);
    add_all(alloc, files, latest, &mut drafts)?;
    Ok(drafts)
}

// The last offer of each path.
fn latest(
    alloc: Global,
    fresh: Vec<(Path, Offer)>,
) -> Result<BTreeMap<Path, Box<Offer>>, OutOfMemory>
    requires { All IsNews fresh.items }
    ensures latest { IfOk result (λ latest. (q : List ℕ) → held_for latest q ≡ last_for fresh.items q) }
    ensures news { IfOk result (λ latest. All IsNewsIn latest.entries) }
{
    let mut latest = BTreeMap::new(alloc);
    for (path, offer) in fresh {
        let offer = Box::new(alloc, offer)?;
        put_one(&mut latest, path, offer)?;
    }
    Ok(latest)
}

fn put_one(
    latest: &mut BTreeMap<Path, Box<Offer>>,
    path: Path,
    offer: Box<Offer>,
) -> Result<(), OutOfMemory>
    requires news { IsNewsIn (path, offer) }
    requires others { All IsNewsIn latest.old.entries }
    ensures puts { OnOk result ((q : List ℕ) → get (slice_cmp nat_cmp) latest.new q ≡ cond (is_at path q) (Some offer) (get (slice_cmp nat_cmp) latest.old q)) }
    ensures news { OnOk result (All IsNewsIn latest.new.entries) }
{
    let _old = latest.insert(path, offer)?;
    Ok(())
}

#[tactic(auto, using(pie_files::proofs::Reading::reads))]
fn add_all<F: Files>(
    alloc: Global,
    files: &mut F,
    latest: BTreeMap<Path, Box<Offer>>,
    drafts: &mut Vec<(Path, Vec<u8>)>,
) -> Result<(), FilesError>
    requires news { All IsNewsIn latest.entries }
    requires drafts { AreDrafts drafts.old.items }
    requires done { All (IsDone latest) drafts.old.items }
    ensures made { IfSome (F.holds files.old) (λ d. OnOk result ((q : List ℕ) → written drafts.new.items q
        ≡ later (kept (held_for latest q) (file_at d q)) (written drafts.old.items q))) }
    ensures drafts { OnOk result (AreDrafts drafts.new.items) }
    ensures looks { OnOk result (Changes [] (F.asked files.old) (F.asked files.new)) }
    ensures reads { ReadsOnly F.holds F.moment F.left_since F.images F.faults files.old files.new result }
{
    let mut latest = latest;
    'files: loop {
        match latest.pop_first() {
            Some((path, offer)) => add(alloc, files, path, offer, drafts)?,
            None => return Ok(()),
        }
    }
}

// Adds the file at a path, where it isn't too long.
#[tactic(auto, using(pie_files::proofs::Reading::reads))]
fn add<F: Files>(
    alloc: Global,
    files: &mut F,
    path: Path,
    offer: Box<Offer>,
    drafts: &mut Vec<(Path, Vec<u8>)>,
) -> Result<(), FilesError>
    requires news { IsNewsIn (path, offer) }
    requires drafts { All IsDraft drafts.old.items }
    ensures added { IfSome (F.holds files.old) (λ d. OnOk result ((q : List ℕ) → written drafts.new.items q
        ≡ later (at path (kept (Some (offered offer.value)) (file_at d path)) q) (written drafts.old.items q))) }
    ensures drafts { OnOk result (All IsDraft drafts.new.items) }
    ensures adds { OnOk result (AddsAt path drafts.old.items drafts.new.items) }
    ensures looks { OnOk result (Changes [] (F.asked files.old) (F.asked files.new)) }
    ensures reads { ReadsOnly F.holds F.moment F.left_since F.images F.faults files.old files.new result }
{
    let text = text(alloc, files, &path, offer)?;
    add_text(path, text, drafts)?;
    Ok(())
}

fn add_text(path: Path, text: Vec<u8>, drafts: &mut Vec<(Path, Vec<u8>)>) -> Result<(), OutOfMemory>
    requires path { IsCachePath path }
    requires drafts { All IsDraft drafts.old.items }
    ensures added { OnOk result ((q : List ℕ) → written drafts.new.items q ≡ later (at path (fitting text.items) q) (written drafts.old.items q)) }
    ensures drafts { OnOk result (All IsDraft drafts.new.items) }
    ensures adds { OnOk result (AddsAt path drafts.old.items drafts.new.items) }
{
    if text.len() > MAX_CACHE_BYTES {
        return Ok(());
    }
    drafts.push((path, text))?;
    Ok(())
}

// The text of the file at a path with this offer in front of the first entries that it has.
#[tactic(auto, using(pie_files::proofs::Reading::reads, crate::proofs::Writing::entries_kept))]
fn text<F: Files>(
    alloc: Global,
    files: &mut F,
    path: &Path,
    offer: Box<Offer>,
) -> Result<Vec<u8>, FilesError>
    requires { IsKept (offered offer.value) }
    ensures text { IfSome (F.holds files.old) (λ d. IfOk result (λ text. text.items ≡ text_in_front (offered offer.value) (file_at d path.now))) }
    ensures looks { OnOk result (Changes [] (F.asked files.old) (F.asked files.new)) }
    ensures reads { ReadsOnly F.holds F.moment F.left_since F.images F.faults files.old files.new result }
{
    let earlier = stored(alloc, files, path)?;
    let text = text_with(alloc, earlier, offer)?;
    Ok(text)
}

// The text of a file with an offer in front of the first of these entries.
fn text_with(alloc: Global, earlier: Vec<Offer>, offer: Box<Offer>) -> Result<Vec<u8>, OutOfMemory>
    requires earlier { All IsKeptOffer earlier.items }
    requires offer { IsKept (offered offer.value) }
    ensures { IfOk result (λ text. text.items ≡ enc_cache (offered offer.value ∷ take 3 (map offered earlier.items))) }
{
    let mut entries = earlier;
    entries.truncate(EARLIER);
    entries.insert(0, Box::into_inner(offer))?;
    encode_entries(alloc, entries.as_slice())
}
