//! The manifest of a directory, put into place.
ghost use Rattle.std.specs.Prelude.{◌≡◌, true, All, Some, IfOk, IfSome, OnOk};
ghost use Rattle.pie_commit.specs.Outcomes.{HasBrought};
ghost use Rattle.pie_commit.specs.inner.Plans.{wanted_by};
ghost use Rattle.pie_files.specs.Reading.{ReadsOnly};
ghost use Rattle.pie_files.specs.Streams.{Counted};
ghost use Rattle.pie_listing.specs.Held.{hash_in, store_path};
ghost use Rattle.pie_listing.specs.inner.Steps.{AreOrdered};
ghost use Rattle.pie_scan.specs.Entries.{AreInOrder};
ghost use Rattle.pie_scan.specs.Scanned.{AreScanned};
ghost use Rattle.pie_scan.specs.Texts.{HasMark};
ghost use Rattle.pie_auto.specs.Kept.{KeepsAllButManifest, Wrote};
ghost use Rattle.pie_auto.specs.inner.Drafts.{AreSeen, HoldsText, IsTextOf, StandsThere, WritesManifest, WritesOne};

use pie_base::{OutOfMemory, Path};
use pie_commit::{Pending, Plan, commit};
use pie_files::{Files, FilesError};
use pie_listing::rescan;
use pie_scan::{Entries, Entry, Manifest, Tops, in_path_order, scan, write_manifest};
use std::alloc::Global;

/// Sees to it that the directory holds its own manifest, of the sources at or below these tops and of the files under `out/`, and answers whether it
/// does: without a store there is none. Where the entries of the sources were seen before, and no source has changed since, no source is read. The
/// manifest is made whole before the first write, and where it stands there already nothing is written. Rule: docs/FORMATS.md, "The manifest".
#[tactic(auto, using(crate::proofs::Keeping::all_but))]
pub fn keep_manifest<F: Files>(
    alloc: Global,
    files: &mut F,
    tops: &[Path],
    seen: Option<Vec<Entry>>,
) -> Result<bool, FilesError>
    requires { AreOrdered seen }
    ensures wrote { IfSome (F.holds files.old) (λ d. AreSeen d tops.now seen → IfOk result (λ wrote. Wrote wrote tops.now d (F.holds files.new))) }
    ensures rest { KeepsAllButManifest (F.holds files.old) (F.holds files.new) }
    ensures counted { Counted F.faults FilesError.Failed files.old files.new result }
{
    match store_hash(alloc, files)? {
        Some(store) => {
            put_manifest(alloc, files, tops, store, seen)?;
            Ok(true)
        }
        None => Ok(false),
    }
}

// The hash of the store, if there is one.
#[tactic(auto, using(pie_files::proofs::Reading::reads))]
fn store_hash<F: Files>(alloc: Global, files: &mut F) -> Result<Option<[u8; 32]>, FilesError>
    ensures hash { IfSome (F.holds files.old) (λ d. IfOk result (λ hash. hash ≡ hash_in d store_path)) }
    ensures reads { ReadsOnly F.holds F.moment F.left_since F.images F.faults files.old files.new result }
{
    let path = Path::known(alloc, ".pie/store")?;
    let hash = files.digest(&path)?;
    Ok(hash)
}

// Sees to the manifest of a directory with this store.
#[tactic(auto, using(crate::proofs::Keeping::all_but))]
fn put_manifest<F: Files>(
    alloc: Global,
    files: &mut F,
    tops: &[Path],
    store: [u8; 32],
    seen: Option<Vec<Entry>>,
) -> Result<(), FilesError>
    requires { AreOrdered seen }
    ensures kept { IfSome (F.holds files.old) (λ d. AreSeen d tops.now seen → hash_in d store_path ≡ Some store → OnOk result (Wrote true tops.now d (F.holds files.new))) }
    ensures rest { KeepsAllButManifest (F.holds files.old) (F.holds files.new) }
    ensures counted { Counted F.faults FilesError.Failed files.old files.new result }
{
    let entries = entries_now(alloc, files, tops, seen)?;
    let text = text_of(alloc, tops, store, entries)?;
    put_text(alloc, files, text)
}

// The entries of what is scanned: those of sources as they were seen, if they were.
#[tactic(auto, using(pie_files::proofs::Reading::reads))]
fn entries_now<F: Files>(
    alloc: Global,
    files: &mut F,
    tops: &[Path],
    seen: Option<Vec<Entry>>,
) -> Result<Vec<Entry>, FilesError>
    requires { AreOrdered seen }
    ensures scanned { IfSome (F.holds files.old) (λ d. AreSeen d tops.now seen → IfOk result (λ entries. AreScanned d tops.now entries.items)) }
    ensures ordered { IfOk result (λ entries. AreInOrder entries.items) }
    ensures marks { IfOk result (λ entries. All HasMark entries.items) }
    ensures reads { ReadsOnly F.holds F.moment F.left_since F.images F.faults files.old files.new result }
{
    match seen {
        Some(seen) => rescan(alloc, files, seen.as_slice()),
        None => scan(alloc, files, tops),
    }
}

// Sees to it that this text stands at the place of the manifest, and no marker stands.
#[tactic(auto, using(crate::proofs::Keeping::all_but))]
fn put_text<F: Files>(alloc: Global, files: &mut F, text: Vec<u8>) -> Result<(), FilesError>
    ensures held { IfSome (F.holds files.old) (λ d. OnOk result (HoldsText text.items d (F.holds files.new))) }
    ensures rest { KeepsAllButManifest (F.holds files.old) (F.holds files.new) }
    ensures counted { Counted F.faults FilesError.Failed files.old files.new result }
{
    if stands(alloc, files, text.as_slice())? {
        return Ok(());
    }
    let plan = plan_with(alloc, text)?;
    put(files, &plan)
}

// Whether this text stands there already, and no marker does.
#[tactic(auto, using(pie_files::proofs::Reading::reads))]
fn stands<F: Files>(alloc: Global, files: &mut F, text: &[u8]) -> Result<bool, FilesError>
    ensures there { IfSome (F.holds files.old) (λ d. IfOk result (λ there. there ≡ true → StandsThere d text.now)) }
    ensures reads { ReadsOnly F.holds F.moment F.left_since F.images F.faults files.old files.new result }
{
    let marker = Path::known(alloc, ".pie/open")?;
    if files.exists(&marker)? {
        return Ok(false);
    }
    let place = Path::known(alloc, ".pie/manifest")?;
    match files.read(&place)? {
        Some(found) => Ok(found.bytes.as_slice() == text),
        None => Ok(false),
    }
}

// Does what such a plan says.
fn put<F: Files>(files: &mut F, plan: &Plan) -> Result<(), FilesError>
    requires { WritesManifest plan.now }
    ensures done { OnOk result (HasBrought (wanted_by plan.now) (F.holds files.old) (F.holds files.new)) }
    ensures rest { KeepsAllButManifest (F.holds files.old) (F.holds files.new) }
    ensures counted { Counted F.faults FilesError.Failed files.old files.new result }
{
    commit(files, plan)
}

// The text of the manifest. Where the number of tops has more than 32 bits, it is out of memory.
fn text_of(
    alloc: Global,
    tops: &[Path],
    store: [u8; 32],
    entries: Vec<Entry>,
) -> Result<Vec<u8>, OutOfMemory>
    requires ordered { AreInOrder entries.items }
    requires marks { All HasMark entries.items }
    ensures { IfOk result (λ text. IsTextOf tops.now store entries.items text.items) }
{
    let sorted = in_path_order(alloc, tops)?;
    if sorted.len() > u32::MAX as usize {
        return Err(OutOfMemory);
    }
    let manifest = Manifest {
        store,
        tops: Tops::new(sorted),
        entries: Entries::new(entries),
    };
    let text = write_manifest(alloc, &manifest)?;
    Ok(text)
}

// The plan that writes a file with these bytes at the place of the manifest, and changes nothing else.
fn plan_with(alloc: Global, text: Vec<u8>) -> Result<Plan, OutOfMemory>
    ensures { IfOk result (WritesOne text) }
{
    let path = Path::known(alloc, ".pie/manifest")?;
    let mut writes = Vec::new(alloc);
    writes.push((path, text))?;
    let plan = Plan::new(alloc, Vec::new(alloc), writes, Pending::Keep, None)?;
    Ok(plan)
}
