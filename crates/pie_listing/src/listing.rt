//! The change list that is found by scanning, or why there is none. Rule: docs/FORMATS.md, "The manifest".
ghost use Rattle.std.specs.Prelude.{◌≡◌, ◌&&◌, ℕ, List, None, IfSome, IfOk};
ghost use Rattle.pie_files.specs.Directory.{Directory, in_path_order};
ghost use Rattle.pie_files.specs.Reading.{ReadsOnly};
ghost use Rattle.pie_scan.specs.Covering.{IsSeparate, DiffersBelow, Covers};
ghost use Rattle.pie_scan.specs.Texts.{IsManifest};
ghost use Rattle.pie_listing.specs.Held.{hash_in, is_hash, same_paths, store_path};
ghost use Rattle.pie_listing.specs.Listings.{IsListing, IsManifestOf, OnListed, IsExactlyChanged};
ghost use Rattle.pie_listing.specs.inner.Steps.{AreOrdered, FollowsFrom, HasSeen};

use crate::kept::{Kept, find_manifest};
use pie_base::{OutOfMemory, Path};
use pie_files::{Files, FilesError};
use pie_scan::{Entry, Manifest, ManifestFault, changed, in_path_order as distinct, scan};
use std::alloc::Global;

/// What scanning finds.
#[derive(Drop)]
pub enum Listing {
    /// The paths at which the directory differs from that of the manifest, in path order.
    Listed(Vec<Path>),
    /// There is no manifest to go by.
    Unlisted(Reason),
}

/// Why there is no manifest to go by: the first of these that holds.
#[derive(Clone, Copy, Debug, PartialEq, Eq)]
pub enum Reason {
    /// There is no file `.pie/manifest`.
    NoManifest,
    /// It is no manifest.
    BadManifest(ManifestFault),
    /// There is no file `.pie/store`, or it isn't the one that the manifest was written with.
    OtherStore,
    /// The manifest was written for other tops.
    OtherTops,
}

/// What scanning finds, and what it saw.
#[derive(Drop)]
pub struct Scan {
    pub listing: Listing,
    /// The entries of all scanned files in path order, or `None` where nothing was scanned, since there is no manifest to go by.
    pub entries: Option<Vec<Entry>>,
}

/// The paths at which the directory differs from the one that the manifest was written for, where it was written for these tops and
/// the store is the one that it was written with; else why not.
#[tactic(auto, using(pie_files::proofs::Reading::reads))]
pub fn list<F: Files>(alloc: Global, files: &mut F, tops: &[Path]) -> Result<Listing, FilesError>
    ensures listing { IfSome (F.holds files.old) (λ d. IfOk result (λ l. IsListing d tops.now l)) }
    ensures exactly { IfSome (F.holds files.old) (λ d. IfOk result (λ l. (before : Directory) → IsManifestOf before tops.now d → OnListed l (IsExactlyChanged before d tops.now))) }
    ensures covers { IfSome (F.holds files.old) (λ d. IfOk result (λ l. (before : Directory) → IsManifestOf before tops.now d → IsSeparate before d → DiffersBelow tops.now before d → OnListed l (Covers before d))) }
    ensures reads { ReadsOnly F.holds F.moment F.left_since F.images F.faults files.old files.new result }
{
    let found = list_scanned(alloc, files, tops)?;
    Ok(found.listing)
}

/// As `list`, with the entries that were scanned: what the next manifest of the same sources needs of them.
#[tactic(auto, using(pie_files::proofs::Reading::reads))]
pub fn list_scanned<F: Files>(
    alloc: Global,
    files: &mut F,
    tops: &[Path],
) -> Result<Scan, FilesError>
    ensures found { IfSome (F.holds files.old) (λ d. IfOk result (λ s. IsListing d tops.now s.listing)) }
    ensures seen { IfSome (F.holds files.old) (λ d. IfOk result (HasSeen d tops.now)) }
    ensures sorted { IfOk result (λ s. AreOrdered s.entries) }
    ensures reads { ReadsOnly F.holds F.moment F.left_since F.images F.faults files.old files.new result }
{
    match find_manifest(alloc, files)? {
        Kept::Good(manifest) => {
            let scan = by_manifest(alloc, files, tops, &manifest)?;
            Ok(scan)
        }
        Kept::Bad(reason) => Ok(unlisted(reason)),
    }
}

fn unlisted(reason: Reason) -> Scan
    ensures listing { result.listing ≡ Listing.Unlisted reason }
    ensures entries { result.entries ≡ None }
{
    Scan {
        listing: Listing::Unlisted(reason),
        entries: None,
    }
}

// What scanning finds by a manifest.
#[tactic(auto, using(pie_files::proofs::Reading::reads))]
fn by_manifest<F: Files>(
    alloc: Global,
    files: &mut F,
    tops: &[Path],
    manifest: &Manifest,
) -> Result<Scan, FilesError>
    requires { IsManifest manifest.now }
    ensures found { IfSome (F.holds files.old) (λ d. IfOk result (λ s. FollowsFrom d tops.now manifest.now s.listing)) }
    ensures seen { IfSome (F.holds files.old) (λ d. IfOk result (HasSeen d tops.now)) }
    ensures sorted { IfOk result (λ s. AreOrdered s.entries) }
    ensures reads { ReadsOnly F.holds F.moment F.left_since F.images F.faults files.old files.new result }
{
    if !has_store(alloc, files, manifest)? {
        return Ok(unlisted(Reason::OtherStore));
    }
    if !has_tops(alloc, tops, manifest)? {
        return Ok(unlisted(Reason::OtherTops));
    }
    let now = scan(alloc, files, tops)?;
    let paths = changed(alloc, manifest.entries.as_slice(), now.as_slice())?;
    Ok(Scan {
        listing: Listing::Listed(paths),
        entries: Some(now),
    })
}

// Whether the store is the one that the manifest was written with.
#[tactic(auto, using(pie_files::proofs::Reading::reads))]
fn has_store<F: Files>(
    alloc: Global,
    files: &mut F,
    manifest: &Manifest,
) -> Result<bool, FilesError>
    ensures same { IfSome (F.holds files.old) (λ d. IfOk result (λ b. b ≡ is_hash (hash_in d store_path) manifest.now.store)) }
    ensures reads { ReadsOnly F.holds F.moment F.left_since F.images F.faults files.old files.new result }
{
    let path = Path::known(alloc, ".pie/store")?;
    match files.digest(&path)? {
        Some(hash) => Ok(hash == manifest.store),
        None => Ok(false),
    }
}

// Whether the manifest was written for these tops.
fn has_tops(alloc: Global, tops: &[Path], manifest: &Manifest) -> Result<bool, OutOfMemory>
    ensures { IfOk result (λ b. b ≡ same_paths (in_path_order tops.now) manifest.now.tops) }
{
    let sorted = distinct(alloc, tops)?;
    Ok(sorted.as_slice() == manifest.tops.as_slice())
}
