//! The lock of a project's directory: one build at a time.

use crate::disk::Disk;
use crate::told::explain;
use pie_files::FilesError;
use std::fs::{File, TryLockError};

/// How a process stands to the lock of the directory. The system gives the lock up with the process.
#[derive(Drop)]
pub(crate) enum Lock {
    /// None is wanted.
    Free,
    /// It is to be taken at the first call.
    Wanted,
    /// It was taken; with no file where the file system knows no locks.
    Taken(Option<File>),
    /// Another process had it at the first call.
    Refused,
}

impl Disk {
    /// Tries to take the lock, and waits for nobody.
    pub(crate) fn lock(&self) -> Result<Lock, FilesError> {
        let top = self.top_place()?;
        let file = match File::open(&self.rt, top.as_str()) {
            Ok(file) => file,
            Err(e) => return Err(self.fault("lock", top.as_str(), &e)),
        };
        match file.try_lock() {
            Ok(()) => Ok(Lock::Taken(Some(file))),
            Err(TryLockError::WouldBlock) => Ok(Lock::Refused),
            Err(TryLockError::Error(_)) => Ok(Lock::Taken(None)),
        }
    }

    /// Tells that another process has the lock.
    pub(crate) fn refused_lock(&self) -> FilesError {
        explain(self.rt, "another build is at work here");
        FilesError::Failed
    }
}
