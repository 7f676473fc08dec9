//! The files of a real directory: the trusted edge.
ghost use Rattle.std.specs.Prelude.{◌≡◌, ◌≤◌, OnOk, IsErrOf};
ghost use Rattle.pie_files.specs.Faults.{Rose};
ghost use Rattle.pie_disk.specs.Locks.{MayCall};

use crate::disk::{Disk, is_own};
use crate::listings::{Listings, paths_of};
use crate::lock::Lock;
use crate::syncing::Unsynced;
use pie_base::{OutOfMemory, Path};
use pie_files::{Files, FilesError, Found, Within};

/// The files of a directory on a disk. It tells no contents: that the directory holds what was
/// written, and that a sync makes it last, is trusted.
/// Rule: docs/BUILDING.md, "Over a real directory".
#[derive(Drop)]
pub struct DirFiles {
    disk: Disk,
    lock: Lock,
    unsynced: Unsynced,
    listed: Listings,
    faults: u64,
}

impl DirFiles {
    /// The files of the current directory.
    pub fn new(rt: HostRuntime) -> DirFiles {
        DirFiles::over(rt, Disk::new(rt), Lock::Free)
    }

    /// The files of the current directory, for a build. The first call takes the lock of the directory,
    /// and takes away the new files that a stop has left; where another build has it, every call fails.
    pub fn for_build(rt: HostRuntime) -> DirFiles {
        DirFiles::over(rt, Disk::new(rt), Lock::Wanted)
    }

    /// The files of the directory with this name.
    pub fn under(rt: HostRuntime, root: &str) -> Result<DirFiles, OutOfMemory> {
        Ok(DirFiles::over(rt, Disk::under(rt, root)?, Lock::Free))
    }

    /// The files of the directory with this name, for a build.
    pub fn for_build_under(rt: HostRuntime, root: &str) -> Result<DirFiles, OutOfMemory> {
        Ok(DirFiles::over(rt, Disk::under(rt, root)?, Lock::Wanted))
    }

    fn over(rt: HostRuntime, disk: Disk, lock: Lock) -> DirFiles {
        DirFiles {
            disk,
            lock,
            unsynced: Unsynced::new(rt.alloc()),
            listed: Listings::new(rt.alloc()),
            faults: 0,
        }
    }

    // Comes before each call: a build takes the lock first.
    fn enter(&mut self) -> Result<(), FilesError>
        ensures may { OnOk result (MayCall self.new.lock) }
        ensures later { self.old.faults ≤ self.new.faults }
        ensures steady { OnOk result (self.new.faults ≡ self.old.faults) }
        ensures cause { IsErrOf result FilesError.Failed → Rose self.old.faults self.new.faults }
    {
        let answer = self.locked();
        self.counted(answer)
    }

    // Takes the lock where it is wanted and not taken yet.
    fn locked(&mut self) -> Result<(), FilesError>
        ensures may { OnOk result (MayCall self.new.lock) }
        ensures same { self.new.faults ≡ self.old.faults }
    {
        match self.lock {
            Lock::Free | Lock::Taken(_) => return Ok(()),
            Lock::Wanted => {}
            Lock::Refused => return Err(FilesError::Failed),
        }
        self.lock = self.disk.lock()?;
        match self.lock {
            Lock::Taken(_) => self.disk.remove_fresh(&self.lock),
            _ => Err(self.disk.refused_lock()),
        }
    }

    // Counts a fault of the disk.
    fn counted<T: Drop>(&mut self, answer: Result<T, FilesError>) -> Result<T, FilesError>
        ensures answer { result ≡ answer }
        ensures lock { self.new.lock ≡ self.old.lock }
        ensures later { self.old.faults ≤ self.new.faults }
        ensures steady { OnOk answer (self.new.faults ≡ self.old.faults) }
        ensures cause { IsErrOf answer FilesError.Failed → Rose self.old.faults self.new.faults }
    {
        if let Err(FilesError::Failed) = answer {
            self.faults = self.faults.saturating_add(1);
        }
        answer
    }
}

impl Files for DirFiles {
    ghost use Rattle.std.specs.Prelude.{None};

    ghost holds = { λ _. None };

    ghost asked = { λ _. None };

    ghost faults = { λ s. s.faults };

    ghost images = { λ _ _. Unit {0} };

    ghost moment = { λ _. 0 };

    ghost left_since = { λ _ _ _. Unit {0} };

    ghost counts_now = { λ files t c le now. now };

    ghost only_now = { λ files c left. left };

    ghost holds_now = { λ files d is. tt };

    fn read(&mut self, path: &Path) -> Result<Option<Found>, FilesError> {
        self.enter()?;
        let answer = self.disk.read(&self.listed, path);
        self.counted(answer)
    }

    fn read_within(&mut self, path: &Path, most: usize) -> Result<Within, FilesError> {
        self.enter()?;
        let answer = self.disk.read_within(&self.listed, path, most);
        self.counted(answer)
    }

    fn exists(&mut self, path: &Path) -> Result<bool, FilesError> {
        self.enter()?;
        let answer = self.disk.exists(&self.listed, path);
        self.counted(answer)
    }

    fn digest(&mut self, path: &Path) -> Result<Option<[u8; 32]>, FilesError> {
        self.enter()?;
        let answer = self.disk.digest(&self.listed, path);
        self.counted(answer)
    }

    fn mark(&mut self, path: &Path) -> Result<Option<u64>, FilesError> {
        self.enter()?;
        let answer = self.disk.mark(&self.listed, path);
        self.counted(answer)
    }

    fn names(&mut self, dir: &Path) -> Result<Vec<Path>, FilesError> {
        self.enter()?;
        let alloc = self.disk.alloc();
        if let Some(entries) = self.listed.get(dir) {
            return Ok(paths_of(alloc, entries)?);
        }
        let answer = self.disk.entries_of(&self.listed, dir);
        let entries = self.counted(answer)?;
        let names = paths_of(alloc, entries.as_slice())?;
        self.listed.keep(alloc, dir, entries)?;
        Ok(names)
    }

    fn all_under(&mut self, dir: &Path) -> Result<Vec<Path>, FilesError> {
        self.enter()?;
        let alloc = self.disk.alloc();
        let answer = self.disk.all_under(dir);
        let files = self.counted(answer)?;
        let paths = paths_of(alloc, files.as_slice())?;
        if !is_own(dir) {
            self.listed.keep_below(alloc, dir, files)?;
        }
        Ok(paths)
    }

    fn write(&mut self, path: &Path, bytes: &[u8]) -> Result<(), FilesError> {
        self.enter()?;
        self.listed.clear();
        let noted = self.disk.note_unsynced(&mut self.unsynced, path);
        self.counted(noted)?;
        let answer = self.disk.write(&self.lock, path, bytes);
        self.counted(answer)
    }

    fn remove(&mut self, path: &Path) -> Result<(), FilesError> {
        self.enter()?;
        self.listed.clear();
        let noted = self.disk.note_unsynced(&mut self.unsynced, path);
        self.counted(noted)?;
        let answer = self.disk.remove(&self.lock, path);
        self.counted(answer)?;
        let gone = self.disk.note_gone(&mut self.unsynced, path);
        self.counted(gone)
    }

    fn sync(&mut self) -> Result<(), FilesError> {
        self.enter()?;
        let alloc = self.disk.alloc();
        let answer = self.disk.sync(&self.unsynced);
        if answer.is_ok() {
            self.unsynced.settle(alloc);
        }
        self.counted(answer)
    }
}
