//! Calls that ask for a file: its bytes, its digest, its mark, or whether it is there.
ghost use Rattle.std.specs.Prelude.{◌≤◌, length, IfOk};

use crate::disk::{Disk, MOST, is_absent};
use crate::listings::Listings;
use crate::seen::Look;
use pie_base::{OutOfMemory, Path};
use pie_files::{FilesError, Found, Within};
use sha2::{Digest, Sha256};
use std::fs::File;
use std::io::{self, ErrorKind, Read};

// How many bytes are read at a time where a file isn't kept.
const PIECE: usize = 65_536;

impl Disk {
    /// The file at a path. One that is too long is a fault by its size, before it is read.
    pub(crate) fn read(&self, listed: &Listings, path: &Path) -> Result<Option<Found>, FilesError> {
        match self.read_within(listed, path, MOST)? {
            Within::Absent => Ok(None),
            Within::Whole(found) => Ok(Some(found)),
            Within::Long => Err(self.too_long(path)?),
        }
    }

    /// The file at a path, where it has at most so many bytes. A longer one isn't opened.
    pub(crate) fn read_within(
        &self,
        listed: &Listings,
        path: &Path,
        most: usize,
    ) -> Result<Within, FilesError> {
        let Some(seen) = self.file_at(listed, path)? else {
            return Ok(Within::Absent);
        };
        if seen.len > most as u64 {
            return Ok(Within::Long);
        }
        if seen.len > MOST as u64 {
            return Err(self.too_long(path)?);
        }
        self.load(path, &seen, most.min(MOST))
    }

    /// Whether a file is at a path. It isn't opened.
    pub(crate) fn exists(&self, listed: &Listings, path: &Path) -> Result<bool, FilesError> {
        Ok(self.file_at(listed, path)?.is_some())
    }

    /// The SHA-256 of the file at a path. A piece of it is in memory at a time.
    pub(crate) fn digest(
        &self,
        listed: &Listings,
        path: &Path,
    ) -> Result<Option<[u8; 32]>, FilesError> {
        let Some(seen) = self.file_at(listed, path)? else {
            return Ok(None);
        };
        let place = self.place(path)?;
        let mut piece = vec![in self.alloc(); 0u8; room_for(seen.len).min(PIECE)]?;
        let Some(mut file) = self.open(place.as_str())? else {
            return Ok(None);
        };
        match hashed(&mut file, piece.as_mut_slice(), seen.len) {
            Ok(digest) => Ok(Some(digest)),
            Err(e) => Err(self.fault("read", place.as_str(), &e)),
        }
    }

    /// The mark of the file at a path. It isn't opened.
    pub(crate) fn mark(&self, listed: &Listings, path: &Path) -> Result<Option<u64>, FilesError> {
        match self.file_at(listed, path)? {
            Some(seen) => Ok(Some(seen.mark)),
            None => Ok(None),
        }
    }

    // The file at a path: a directory, a pipe, a socket, a device or a link that isn't followed is none. Where its directory was
    // listed, that found it.
    fn file_at(&self, listed: &Listings, path: &Path) -> Result<Option<Look>, FilesError> {
        if let Some(found) = listed.file(path) {
            return Ok(Some(found));
        }
        let seen = self.look("read", path)?;
        Ok(seen.and_then(|s| s.file()))
    }

    fn too_long(&self, path: &Path) -> Result<FilesError, OutOfMemory> {
        let place = self.place(path)?;
        Ok(self.refused("read", place.as_str(), "file too large"))
    }

    // Opens a file, unless it has gone meanwhile.
    fn open(&self, place: &str) -> Result<Option<File>, FilesError> {
        match File::open(&self.rt, place) {
            Ok(file) => Ok(Some(file)),
            Err(e) if is_absent(&e) => Ok(None),
            Err(e) => Err(self.fault("read", place, &e)),
        }
    }

    // The bytes and the mark of a file, where it has at most so many bytes when it is read.
    fn load(&self, path: &Path, seen: &Look, most: usize) -> Result<Within, FilesError> {
        let place = self.place(path)?;
        let mut bytes = vec![in self.alloc(); 0u8; room_for(seen.len)]?;
        let Some(mut file) = self.open(place.as_str())? else {
            return Ok(Within::Absent);
        };
        match take_all(&mut file, &mut bytes, seen.len, most) {
            Ok(true) => Ok(Within::Whole(Found {
                bytes,
                mark: seen.mark,
            })),
            Ok(false) => Ok(Within::Long),
            Err(e) => Err(self.fault("read", place.as_str(), &e)),
        }
    }
}

// The room for a file of this length and one byte more, by which its end is met.
fn room_for(len: u64) -> usize {
    usize::try_from(len)
        .unwrap_or(MOST)
        .min(MOST)
        .saturating_add(1)
}

// Takes a file that was seen with this length to its end into a vector that has room, or answers that it has more than so many
// bytes. Where it has grown, the room grows.
fn take_all(file: &mut File, bytes: &mut Vec<u8>, len: u64, most: usize) -> io::Result<bool> {
    let mut taken = 0;
    for _ in 0..u64::MAX {
        let room = bytes.len().saturating_sub(taken);
        let n = take_some(file, &mut bytes[taken..])?;
        taken = taken.saturating_add(n);
        if is_end(n, room, taken as u64, len) {
            bytes.truncate(taken);
            return Ok(bytes.len() <= most);
        }
        if taken > most {
            break;
        }
        if taken >= bytes.len() {
            taken = bytes.len();
            bytes.resize(taken.saturating_add(PIECE), 0)?;
        }
    }
    Ok(false)
}

// The SHA-256 of the rest of a file that was seen with this length.
fn hashed(file: &mut File, piece: &mut [u8], len: u64) -> io::Result<[u8; 32]> {
    let mut hasher = Sha256::new();
    let mut taken: u64 = 0;
    for _ in 0..u64::MAX {
        let n = take_some(file, piece)?;
        hasher.update(&piece[..n]);
        taken = taken.saturating_add(n as u64);
        if is_end(n, piece.len(), taken, len) {
            break;
        }
    }
    Ok(hasher.finalize())
}

// Whether a read met the end of a file: it gave nothing, or less than it had room for where as much was taken by then as the file
// was seen to have. So a file that stays as it was seen takes one read.
fn is_end(n: usize, room: usize, taken: u64, len: u64) -> bool {
    n == 0 || (n < room && taken == len)
}

// Reads once; again where a signal came between.
fn take_some(file: &mut File, into: &mut [u8]) -> io::Result<usize>
    ensures { IfOk result (λ n. n ≤ length into.new) }
{
    for _ in 0..u64::MAX {
        match file.read(into) {
            Err(e) if e.kind() == ErrorKind::Interrupted => {}
            answer => return answer,
        }
    }
    Ok(0)
}
