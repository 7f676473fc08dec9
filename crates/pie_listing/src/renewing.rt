//! The entries of a directory of which no source has changed since it was scanned.
ghost use Rattle.std.specs.Prelude.{◌≡◌, ◌++◌, [], ◌∷◌, ℕ, List, All, IfSome, IfOk, OnOk};
ghost use Rattle.std.specs.List.{filter};
ghost use Rattle.pie_files.specs.Reading.{ReadsOnly};
ghost use Rattle.pie_scan.specs.Entries.{AreInOrder};
ghost use Rattle.pie_scan.specs.Scanned.{AreScanned};
ghost use Rattle.pie_scan.specs.Texts.{HasMark};
ghost use Rattle.pie_listing.specs.inner.Sources.{AreSources, joined as specs_joined, place_of as specs_place_of, stands};

use pie_base::{OutOfMemory, Path};
use pie_files::{Files, FilesError};
use pie_scan::{Entry, scan};
use std::alloc::Global;
use std::cmp::Ordering;

/// The entries of the scanned files in path order, where no source has changed since these entries were seen: those of sources as they were
/// seen, and those under `out/` as they are now. No source is read.
#[tactic(auto, using(pie_files::proofs::Reading::reads))]
pub fn rescan<F: Files>(
    alloc: Global,
    files: &mut F,
    seen: &[Entry],
) -> Result<Vec<Entry>, FilesError>
    requires in_order { AreInOrder seen.now }
    requires marked { All HasMark seen.now }
    ensures scanned { IfSome (F.holds files.old) (λ d. IfOk result (λ entries. (tops : List (List ℕ)) → AreSources d tops seen.now → AreScanned d tops entries.items)) }
    ensures ordered { IfOk result (λ entries. AreInOrder entries.items) }
    ensures marks { IfOk result (λ entries. All HasMark entries.items) }
    ensures reads { ReadsOnly F.holds F.moment F.left_since F.images F.faults files.old files.new result }
{
    let out = scan(alloc, files, &[])?;
    let entries = joined(alloc, seen, out.as_slice())?;
    Ok(entries)
}

// What was seen before the paths under `out/`, what is found there, and what was seen behind them.
fn joined(alloc: Global, seen: &[Entry], out: &[Entry]) -> Result<Vec<Entry>, OutOfMemory>
    ensures { IfOk result (λ entries. entries.items ≡ specs_joined seen.now out.now) }
{
    let mut entries = Vec::new(alloc);
    put_all(&mut entries, seen, Ordering::Less)?;
    put_all(&mut entries, out, Ordering::Equal)?;
    put_all(&mut entries, seen, Ordering::Greater)?;
    Ok(entries)
}

// Puts the entries that stand at this place.
fn put_all(entries: &mut Vec<Entry>, from: &[Entry], place: Ordering) -> Result<(), OutOfMemory>
    ensures { OnOk result (entries.new.items ≡ entries.old.items ++ filter (stands place) from.now) }
{
    for entry in from {
        put(entries, entry, place)?;
    }
    Ok(())
}

// Puts an entry where it stands at this place.
fn put(entries: &mut Vec<Entry>, entry: &Entry, place: Ordering) -> Result<(), OutOfMemory>
    ensures { OnOk result (entries.new.items ≡ entries.old.items ++ filter (stands place) (entry.now ∷ [])) }
{
    if place_of(&entry.path) == place {
        entries.push(copy(entry)?)?;
    }
    Ok(())
}

fn copy(entry: &Entry) -> Result<Entry, OutOfMemory>
    ensures { IfOk result (λ copy. copy ≡ entry.now) }
{
    let path = entry.path.copy()?;
    Ok(Entry {
        path,
        mark: entry.mark,
        hash: entry.hash,
    })
}

// Where a path stands: before those under `out/`, among them, or behind them.
fn place_of(path: &Path) -> Ordering
    ensures { result ≡ specs_place_of path.now }
{
    if path.under_out() {
        return Ordering::Equal;
    }
    path.as_str().as_bytes().cmp(b"out/".as_slice())
}
