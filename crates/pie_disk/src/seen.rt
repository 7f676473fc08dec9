//! What stands at a place, by a look that opens nothing.

use crate::disk::{Disk, dir_at, is_absent, is_own};
use pie_base::Path;
use pie_files::FilesError;
use std::fs::{self, Metadata};
use std::os::unix::fs::{MetadataExt, PermissionsExt};
use std::time::UNIX_EPOCH;

/// Why nothing is done below a link at `out` or `.pie`.
pub(crate) const A_LINK: &str = "a link, which is not followed here";

/// What kind of entry stands at a place.
#[derive(Clone, Copy, PartialEq, Eq)]
pub(crate) enum Kind {
    File,
    Dir,
    Link,
    /// A pipe, a socket or a device.
    Other,
}

/// An entry of a directory, as a look finds it.
#[derive(Clone, Copy)]
pub(crate) struct Seen {
    pub(crate) kind: Kind,
    pub(crate) len: u64,
    /// The time of modification, in nanoseconds since 1970 modulo 2^64, or 0 where there is none.
    pub(crate) mark: u64,
    pub(crate) mode: u32,
    /// The numbers of the file system and of the entry in it: two names of one entry have the same.
    pub(crate) identity: (u64, u64),
}

/// What is known of a file that isn't opened.
#[derive(Clone, Copy)]
pub(crate) struct Look {
    pub(crate) len: u64,
    /// As that of `Seen`.
    pub(crate) mark: u64,
}

impl Seen {
    fn of(found: &Metadata) -> Seen {
        Seen {
            kind: kind_of(found),
            len: found.len(),
            mark: mark_of(found),
            mode: found.permissions().mode(),
            identity: (found.dev(), found.ino()),
        }
    }

    pub(crate) fn is_dir(&self) -> bool {
        self.kind == Kind::Dir
    }

    pub(crate) fn is_file(&self) -> bool {
        self.kind == Kind::File
    }

    /// The file that was found, unless it is another entry.
    pub(crate) fn file(&self) -> Option<Look> {
        if !self.is_file() {
            return None;
        }
        Some(Look {
            len: self.len,
            mark: self.mark,
        })
    }

    pub(crate) fn is_link(&self) -> bool {
        self.kind == Kind::Link
    }
}

impl Disk {
    /// What stands at a place, if anything does. A link at its end is followed or not.
    pub(crate) fn seen(
        &self,
        call: &str,
        place: &str,
        follows: bool,
    ) -> Result<Option<Seen>, FilesError> {
        let found = if follows {
            fs::metadata(&self.rt, place)
        } else {
            fs::symlink_metadata(&self.rt, place)
        };
        match found {
            Ok(found) => Ok(Some(Seen::of(&found))),
            Err(e) if is_absent(&e) => Ok(None),
            Err(e) => Err(self.fault(call, place, &e)),
        }
    }

    /// What stands at a path. Below `out` and `.pie` no link is followed, and a link in the place of
    /// one of these two is a fault.
    pub(crate) fn look(&self, call: &str, path: &Path) -> Result<Option<Seen>, FilesError> {
        let place = self.place(path)?;
        if !is_own(path) {
            return self.seen(call, place.as_str(), true);
        }
        if !self.is_way_free(call, place.as_str())? {
            return Ok(None);
        }
        let seen = self.seen(call, place.as_str(), false)?;
        if path.as_str().contains('/') {
            return Ok(seen);
        }
        self.no_link(call, place.as_str(), seen)
    }

    // Whether the entries above an own place are directories, and not links to some.
    fn is_way_free(&self, call: &str, place: &str) -> Result<bool, FilesError> {
        let mut top = true;
        for end in self.root.len()..place.len() {
            if let Some(dir) = dir_at(place, end) {
                if !self.is_own_dir(call, dir, top)? {
                    return Ok(false);
                }
                top = false;
            }
        }
        Ok(true)
    }

    // Whether a directory stands at an own place, and not a link to one.
    fn is_own_dir(&self, call: &str, place: &str, top: bool) -> Result<bool, FilesError> {
        let mut seen = self.seen(call, place, false)?;
        if top {
            seen = self.no_link(call, place, seen)?;
        }
        Ok(seen.is_some_and(|s| s.is_dir()))
    }

    // What was seen, unless it is a link.
    fn no_link(
        &self,
        call: &str,
        place: &str,
        seen: Option<Seen>,
    ) -> Result<Option<Seen>, FilesError> {
        match seen {
            Some(entry) if entry.is_link() => Err(self.refused(call, place, A_LINK)),
            _ => Ok(seen),
        }
    }
}

fn kind_of(found: &Metadata) -> Kind {
    if found.is_file() {
        Kind::File
    } else if found.is_dir() {
        Kind::Dir
    } else if found.is_symlink() {
        Kind::Link
    } else {
        Kind::Other
    }
}

fn mark_of(found: &Metadata) -> u64 {
    let Ok(time) = found.modified() else {
        return 0;
    };
    let Ok(since) = time.duration_since(UNIX_EPOCH) else {
        return 0;
    };
    since
        .as_secs()
        .wrapping_mul(1_000_000_000)
        .wrapping_add(u64::from(since.subsec_nanos()))
}
