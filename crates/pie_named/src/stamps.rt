//! Stamps of files and listings, by their paths.
ghost use Rattle.std.specs.Prelude.{◌≡◌, ℕ, List, None, OnOk};
ghost use Rattle.pie_named.specs.inner.Stamps.{stamp_at, Puts};
ghost use Rattle.pie_named.specs.inner.Stamped.{is_stamp};

use pie_base::{OutOfMemory, Path};
use pie_value::Stamp;
use std::alloc::Global;
use std::collections::BTreeMap;

/// A stamp of a file or of a listing.
#[derive(Clone, Copy)]
pub(crate) enum FileStamp {
    Absent,
    Present,
    Hash([u8; 32]),
    Mark(u64),
}

/// Stamps by paths; `None` at a path where nothing that is there now could be observed. Contracts see them by `stamp_at`.
#[derive(Drop)]
pub(crate) struct Stamps {
    stamps: BTreeMap<Path, Option<FileStamp>>,
}

impl FileStamp {
    /// Whether a recorded stamp is this one.
    pub(crate) fn is(self, recorded: &Stamp) -> bool
        ensures { result ≡ is_stamp self recorded.now }
    {
        match (self, recorded) {
            (FileStamp::Absent, Stamp::Absent) => true,
            (FileStamp::Present, Stamp::Present) => true,
            (FileStamp::Hash(one), Stamp::Hash(other)) => one == *other,
            (FileStamp::Mark(one), Stamp::Mark(other)) => one == *other,
            _ => false,
        }
    }
}

impl Stamps {
    /// No stamps.
    pub(crate) fn new(alloc: Global) -> Stamps
        ensures { (p : List ℕ) → stamp_at result p ≡ None }
    {
        Stamps {
            stamps: BTreeMap::new(alloc),
        }
    }

    /// The stamp at a path.
    pub(crate) fn get(&self, path: &Path) -> Option<Option<FileStamp>>
        ensures { result ≡ stamp_at self.now path.now }
    {
        match self.stamps.get(path) {
            Some(stamp) => Some(*stamp),
            None => None,
        }
    }

    /// Keeps the stamp at a path.
    pub(crate) fn put(&mut self, path: Path, stamp: Option<FileStamp>) -> Result<(), OutOfMemory>
        ensures { OnOk result (Puts self.old self.new path stamp) }
    {
        self.stamps.insert(path, stamp)?;
        Ok(())
    }
}
