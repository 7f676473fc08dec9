//! A directory on a disk, and the names that the system knows its files by.

use crate::told::{explain_reason, explain_refusal};
use pie_base::{OutOfMemory, Path};
use pie_files::FilesError;
use std::alloc::Global;
use std::io::{self, ErrorKind};

/// The largest file, and the most names of a listing; more is a fault.
pub(crate) const MOST: usize = 4_294_967_295;

/// A directory on a disk. The name that the system knows a file by is its *place*.
#[derive(Drop)]
pub(crate) struct Disk {
    pub(crate) rt: HostRuntime,
    // Stands before each path: nothing, or a name and a slash.
    pub(crate) root: String,
}

impl Disk {
    pub(crate) fn new(rt: HostRuntime) -> Disk {
        Disk {
            rt,
            root: String::new(rt.alloc()),
        }
    }

    pub(crate) fn under(rt: HostRuntime, root: &str) -> Result<Disk, OutOfMemory> {
        Ok(Disk {
            rt,
            root: format!(in rt.alloc(); "{root}/")?,
        })
    }

    pub(crate) fn alloc(&self) -> Global {
        self.rt.alloc()
    }

    /// The place of a file.
    pub(crate) fn place(&self, path: &Path) -> Result<String, OutOfMemory> {
        let mut place = self.root.clone()?;
        place.push_str(path.as_str())?;
        Ok(place)
    }

    /// The place of the directory itself.
    pub(crate) fn top_place(&self) -> Result<String, OutOfMemory> {
        Ok(format!(in self.alloc(); "{}.", self.root)?)
    }

    /// What a refusal of the system is, at a call that looks.
    pub(crate) fn fault(&self, call: &str, place: &str, error: &io::Error) -> FilesError {
        match error.kind() {
            ErrorKind::OutOfMemory => FilesError::OutOfMemory,
            _ => self.failed(call, place, error),
        }
    }

    /// What it is at a call that may have changed something: a fault, even where the system has no memory.
    pub(crate) fn failed(&self, call: &str, place: &str, error: &io::Error) -> FilesError {
        explain_refusal(self.rt, call, place, error);
        FilesError::Failed
    }

    /// What is refused by this crate itself.
    pub(crate) fn refused(&self, call: &str, place: &str, reason: &str) -> FilesError {
        explain_reason(self.rt, call, place, reason);
        FilesError::Failed
    }
}

/// Whether a path belongs to the program: it is `out`, `.pie` or below one of them. No link is followed there.
pub(crate) fn is_own(path: &Path) -> bool {
    path.under_out() || path.under_store() || path.as_str() == "out"
}

/// Whether nothing stands at a place. Where a name is too long, or links lead round in a cycle, no file can stand.
pub(crate) fn is_absent(error: &io::Error) -> bool {
    matches!(
        error.kind(),
        ErrorKind::NotFound
            | ErrorKind::NotADirectory
            | ErrorKind::FilesystemLoop
            | ErrorKind::InvalidFilename
    )
}

/// The directory above that ends at this byte of a place, where a slash stands there.
pub(crate) fn dir_at(place: &str, end: usize) -> Option<&str> {
    match place.split_at_checked(end) {
        Some((dir, rest)) if rest.starts_with('/') => Some(dir),
        _ => None,
    }
}
