//! The entries of one file of the cache.
ghost use Rattle.std.specs.Prelude.{◌≡◌, ◌≤◌, length, map, All, IfSome, IfOk, [], ◌∷◌, OnOk};
ghost use Rattle.pie_files.specs.Images.{MayLeave, Stays};
ghost use Rattle.pie_files.specs.Streams.{Counted};
ghost use Rattle.pie_files.specs.Directory.{file_at};
ghost use Rattle.pie_store.specs.inner.Offers.{offered, LooksAtOnly};
ghost use Rattle.pie_cache.specs.inner.Texts.{IsEntry};
ghost use Rattle.pie_cache.specs.inner.Reading.{cache_says};
ghost use Rattle.pie_cache.specs.inner.Steps.{Changes};
ghost use Rattle.pie_cache.specs.inner.Stored.{or_none, entries_of, entries_found};

use crate::{CacheFault, decode_entries};
use pie_base::{MAX_CACHE_BYTES, OutOfMemory, Path};
use pie_files::{Files, FilesError, Within};
use pie_store::Offer;
use std::alloc::Global;

/// The entries of the file at a path, newest first. There are none where there is no file, where it is too long, or where it is no
/// cache file. It changes no file.
pub(crate) fn stored<F: Files>(
    alloc: Global,
    files: &mut F,
    path: &Path,
) -> Result<Vec<Offer>, FilesError>
    ensures entries { IfSome (F.holds files.old) (λ d. IfOk result (λ es. map offered es.items ≡ entries_of (file_at d path.now))) }
    ensures good { IfOk result (λ es. All IsEntry (map offered es.items)) }
    ensures looks { OnOk result (Changes [] (F.asked files.old) (F.asked files.new)) }
    ensures place { LooksAtOnly (path.now ∷ []) (F.asked files.old) (F.asked files.new) }
    ensures same { F.holds files.new ≡ F.holds files.old }
    ensures crash { MayLeave F.holds F.moment F.left_since F.images Stays files.old files.new }
    ensures counted { Counted F.faults FilesError.Failed files.old files.new result }
{
    let found = files.read_within(path, MAX_CACHE_BYTES)?;
    let entries = entries_in(alloc, &found)?;
    Ok(entries)
}

fn entries_in(alloc: Global, found: &Within) -> Result<Vec<Offer>, OutOfMemory>
    ensures entries { IfOk result (λ es. map offered es.items ≡ entries_found found.now) }
    ensures good { IfOk result (λ es. All IsEntry (map offered es.items)) }
{
    match found {
        Within::Whole(found) => said(alloc, found.bytes.as_slice()),
        Within::Absent | Within::Long => Ok(Vec::new(alloc)),
    }
}

// The entries that bytes say, or none where they are no cache file.
fn said(alloc: Global, bytes: &[u8]) -> Result<Vec<Offer>, OutOfMemory>
    ensures entries { IfOk result (λ es. map offered es.items ≡ or_none (cache_says bytes.now)) }
    ensures good { IfOk result (λ es. All IsEntry (map offered es.items)) }
{
    match decode_entries(alloc, bytes) {
        Ok(entries) => Ok(entries),
        Err(CacheFault::OutOfMemory) => Err(OutOfMemory),
        Err(_) => Ok(Vec::new(alloc)),
    }
}
