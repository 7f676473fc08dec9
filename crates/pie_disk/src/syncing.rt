//! Syncs: which files and directories are to last, and that they do.

use crate::disk::{Disk, dir_at, is_absent};
use pie_base::{OutOfMemory, Path};
use pie_files::FilesError;
use std::alloc::Global;
use std::collections::BTreeSet;
use std::fs::File;
use std::io::ErrorKind;

// How many directories are known at most as those whose entries last.
const MOST_LASTING: usize = 4_096;

/// What the next sync is to make last.
#[derive(Drop)]
pub(crate) struct Unsynced {
    files: BTreeSet<String>,
    dirs: BTreeSet<String>,
    // Directories that were synced, and in which this program has made, renamed and removed nothing since.
    lasting: BTreeSet<String>,
}

impl Unsynced {
    pub(crate) fn new(alloc: Global) -> Unsynced {
        Unsynced {
            files: BTreeSet::new(alloc),
            dirs: BTreeSet::new(alloc),
            lasting: BTreeSet::new(alloc),
        }
    }

    // Notes a directory in which something changes.
    fn note_dir(&mut self, dir: String) -> Result<(), OutOfMemory> {
        let _was = self.lasting.remove(dir.as_str());
        let _new = self.dirs.insert(dir)?;
        Ok(())
    }

    /// Notes that all this lasts now. Where there is no memory, fewer directories are known to.
    pub(crate) fn settle(&mut self, alloc: Global) {
        for dir in self.dirs.iter() {
            if self.lasting.len() >= MOST_LASTING {
                break;
            }
            let Ok(dir) = String::from_str(alloc, dir.as_str()) else {
                break;
            };
            let _new = self.lasting.insert(dir);
        }
        self.files.clear();
        self.dirs.clear();
    }
}

impl Disk {
    /// Notes that a file and its directory are to be synced, and each directory above in which an entry on the way is yet to be made or isn't
    /// known to last: an earlier build may have been stopped before it synced.
    pub(crate) fn note_unsynced(
        &self,
        unsynced: &mut Unsynced,
        path: &Path,
    ) -> Result<(), FilesError> {
        let place = self.place(path)?;
        let mut above = self.top_place()?;
        for end in self.root.len()..place.len() {
            if let Some(dir) = dir_at(place.as_str(), end) {
                let below = String::from_str(self.alloc(), dir)?;
                if !unsynced.lasting.contains(above.as_str()) || !self.is_dir(dir)? {
                    unsynced.note_dir(above)?;
                }
                above = below;
            }
        }
        unsynced.note_dir(above)?;
        let _new = unsynced.files.insert(place)?;
        Ok(())
    }

    /// Notes the directories out of which a removal at a path has taken those that it left empty.
    pub(crate) fn note_gone(&self, unsynced: &mut Unsynced, path: &Path) -> Result<(), FilesError> {
        let place = self.place(path)?;
        let mut above = self.top_place()?;
        for end in self.root.len()..place.len() {
            if let Some(dir) = dir_at(place.as_str(), end) {
                let below = String::from_str(self.alloc(), dir)?;
                if !self.is_dir(dir)? {
                    return Ok(unsynced.note_dir(above)?);
                }
                above = below;
            }
        }
        Ok(())
    }

    // Whether a directory stands at a place, and not a link to one.
    fn is_dir(&self, place: &str) -> Result<bool, FilesError> {
        let seen = self.seen("sync", place, false)?;
        Ok(seen.is_some_and(|s| s.is_dir()))
    }

    /// Makes these files and directories last. What has gone meanwhile needs none.
    pub(crate) fn sync(&self, unsynced: &Unsynced) -> Result<(), FilesError> {
        self.sync_each(&unsynced.files)?;
        self.sync_each(&unsynced.dirs)
    }

    fn sync_each(&self, places: &BTreeSet<String>) -> Result<(), FilesError> {
        for place in places.iter() {
            self.sync_at(place.as_str())?;
        }
        Ok(())
    }

    // Syncs what stands at a place, if it is a file or a directory. Nothing else is opened.
    fn sync_at(&self, place: &str) -> Result<(), FilesError> {
        let Some(seen) = self.seen("sync", place, false)? else {
            return Ok(());
        };
        if !seen.is_file() && !seen.is_dir() {
            return Ok(());
        }
        let synced = match File::open(&self.rt, place) {
            Ok(file) => file.sync_all(),
            Err(e) => Err(e),
        };
        match synced {
            Ok(()) => Ok(()),
            Err(e) if is_absent(&e) => Ok(()),
            // Some file systems know no sync of a directory.
            Err(e) if seen.is_dir() && e.kind() == ErrorKind::InvalidInput => Ok(()),
            Err(e) => Err(self.failed("sync", place, &e)),
        }
    }
}
