//! Looks at the current folder: the trusted edge. No call here writes, makes or removes anything.
ghost use Rattle.std.specs.Prelude.{◌≤◌, length, IfOk};

use crate::judging::{Rights, User};
use crate::look::{Entry, Judged, Kind, Look, LookError, Names};
use pie_base::OutOfMemory;
use std::fs::{self, File, Metadata, ReadDir};
use std::io::{self, ErrorKind, Read};
use std::os::unix::fs::{MetadataExt, PermissionsExt};

// Where Linux tells who the user of this process is, and how much of it is read.
const STATUS: &str = "/proc/self/status";

const STATUS_BYTES: usize = 65_536;

/// The current folder, by looks that change nothing: what the system tells of entries, what links lead to, the names in folders, and files that are opened to be read and
/// closed again.
#[derive(Drop)]
pub struct DirLook {
    rt: HostRuntime,
    user: User,
}

impl DirLook {
    /// The current folder. Who the user is tells `/proc/self/status`; where it can't be read, rights aren't judged.
    pub fn new(rt: HostRuntime) -> Result<DirLook, OutOfMemory> {
        let user = user_of(rt)?;
        Ok(DirLook { rt, user })
    }

    fn entry_of(&self, found: &Metadata) -> Entry {
        Entry {
            kind: kind_of(found),
            is_usable: self.judged(found),
            system: found.dev(),
        }
    }

    fn judged(&self, found: &Metadata) -> Judged {
        self.user.judge(Rights {
            mode: found.permissions().mode(),
            owner: found.uid(),
            group: found.gid(),
        })
    }
}

impl Look for DirLook {
    fn entry(&self, place: &str) -> Result<Entry, LookError> {
        match fs::symlink_metadata(&self.rt, place) {
            Ok(found) => Ok(self.entry_of(&found)),
            Err(e) => Err(reason(&e)),
        }
    }

    fn beyond(&self, place: &str) -> Result<Entry, LookError> {
        match fs::metadata(&self.rt, place) {
            Ok(found) => Ok(self.entry_of(&found)),
            Err(e) => Err(reason(&e)),
        }
    }

    fn names(&self, place: &str) -> Result<Names, LookError> {
        match fs::read_dir(&self.rt, place) {
            Ok(listing) => names_of(self.rt, listing),
            Err(e) => Err(reason(&e)),
        }
    }

    fn open(&self, place: &str) -> Result<(), LookError> {
        match File::open(&self.rt, place) {
            Ok(_) => Ok(()),
            Err(e) => Err(reason(&e)),
        }
    }
}

fn names_of(rt: HostRuntime, mut listing: ReadDir) -> Result<Names, LookError> {
    let mut found = Names {
        names: Vec::new(rt.alloc()),
        odd: 0,
    };
    for _ in 0..u64::MAX {
        match listing.next() {
            None => break,
            Some(Ok(entry)) => {
                let name = String::from_str(rt.alloc(), entry.file_name())?;
                found.names.push(name)?;
            }
            Some(Err(e)) if e.kind() == ErrorKind::InvalidFilename => {
                found.odd = found.odd.saturating_add(1);
            }
            Some(Err(e)) => return Err(reason(&e)),
        }
    }
    Ok(found)
}

fn kind_of(found: &Metadata) -> Kind {
    if found.is_file() {
        Kind::File
    } else if found.is_dir() {
        Kind::Dir
    } else if found.is_symlink() {
        Kind::Link
    } else {
        Kind::Other
    }
}

// What a refusal of the system says of what is looked at.
fn reason(error: &io::Error) -> LookError {
    match error.kind() {
        ErrorKind::NotFound
        | ErrorKind::NotADirectory
        | ErrorKind::FilesystemLoop
        | ErrorKind::InvalidFilename => LookError::Absent,
        ErrorKind::PermissionDenied => LookError::Denied,
        ErrorKind::OutOfMemory => LookError::OutOfMemory,
        _ => LookError::Failed,
    }
}

fn user_of(rt: HostRuntime) -> Result<User, OutOfMemory> {
    let mut room = vec![in rt.alloc(); 0u8; STATUS_BYTES]?;
    let Ok(mut file) = File::open(&rt, STATUS) else {
        return Ok(User::unknown(rt.alloc()));
    };
    let Ok(taken) = take_some(&mut file, room.as_mut_slice()) else {
        return Ok(User::unknown(rt.alloc()));
    };
    match str::from_utf8(&room[..taken]) {
        Ok(status) => User::of_status(rt.alloc(), status),
        Err(_) => Ok(User::unknown(rt.alloc())),
    }
}

// Reads once; again where a signal came between. The system gives its text in one piece.
fn take_some(file: &mut File, into: &mut [u8]) -> io::Result<usize>
    ensures { IfOk result (λ n. n ≤ length into.new) }
{
    for _ in 0..u64::MAX {
        match file.read(into) {
            Err(e) if e.kind() == ErrorKind::Interrupted => {}
            answer => return answer,
        }
    }
    Ok(0)
}
