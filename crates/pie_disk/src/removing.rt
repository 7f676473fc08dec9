//! A removal of a file, and of the directories that it leaves empty.
ghost use Rattle.pie_disk.specs.Locks.{MayCall};

use crate::disk::{Disk, is_absent, is_own};
use crate::lock::Lock;
use pie_base::Path;
use pie_files::FilesError;
use std::fs;
use std::io::ErrorKind;

impl Disk {
    /// Takes away the entry at a path: a link itself, and not what it leads to. A directory stays.
    pub(crate) fn remove(&self, _lock: &Lock, path: &Path) -> Result<(), FilesError>
        requires { MayCall _lock.now }
    {
        let place = self.place(path)?;
        if is_own(path) && !self.has_entry(path)? {
            return Ok(());
        }
        match fs::remove_file(&self.rt, place.as_str()) {
            Ok(()) => {
                self.remove_empty(place.as_str());
                Ok(())
            }
            Err(e) if is_absent(&e) || e.kind() == ErrorKind::IsADirectory => Ok(()),
            Err(e) => Err(self.failed("remove", place.as_str(), &e)),
        }
    }

    // Whether something else than a directory stands at an own path, with no link above it.
    fn has_entry(&self, path: &Path) -> Result<bool, FilesError> {
        let seen = self.look("remove", path)?;
        Ok(seen.is_some_and(|s| !s.is_dir()))
    }

    // Takes away the directories above a place, the nearest first, up to the first that isn't empty.
    fn remove_empty(&self, place: &str) {
        let mut below = place;
        for _ in 0..place.len() {
            let Some((dir, _)) = below.rsplit_once('/') else {
                return;
            };
            if dir.len() < self.root.len() || fs::remove_dir(&self.rt, dir).is_err() {
                return;
            }
            below = dir;
        }
    }
}
