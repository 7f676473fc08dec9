//! Listings: the entries of a directory, and the files below it.

use crate::disk::{Disk, MOST, dir_at, is_absent, is_own};
use crate::listings::{Listed, Listings};
use crate::seen::{Look, Seen};
use pie_base::{OutOfMemory, Path, PathError};
use pie_files::FilesError;
use std::alloc::Global;
use std::collections::BTreeSet;
use std::fs::{self, ReadDir};
use std::io::ErrorKind;

// An entry of a directory: a file with what a look found there, or none below `out` and `.pie`.
#[derive(Drop)]
enum Entry {
    File(Path, Option<Look>),
    Dir(Path),
}

impl Disk {
    /// The entries of a directory at which or below which a file is, in order. Into directories that were listed it looks no more.
    pub(crate) fn entries_of(
        &self,
        listed: &Listings,
        dir: &Path,
    ) -> Result<Vec<Listed>, FilesError> {
        let mut found = Vec::new(self.alloc());
        for entry in self.entries_now(listed, dir)? {
            match entry {
                Entry::File(path, file) => found.push(Listed { path, file })?,
                Entry::Dir(path) => {
                    if self.counts(listed, &path)? {
                        found.push(Listed { path, file: None })?;
                    }
                }
            }
        }
        found.sort_by(|a, b| a.path.cmp(&b.path))?;
        Ok(found)
    }

    // The entries of a directory that count, in the disk's order. One among the sources that was listed itself takes no look.
    fn entries_now(&self, listed: &Listings, dir: &Path) -> Result<Vec<Entry>, FilesError> {
        match listed.entry(dir) {
            Some(entry) if entry.file.is_none() && !is_own(dir) => self.entries_in(dir),
            _ => self.entries(dir),
        }
    }

    // Whether a directory that stands there counts: a file is below it.
    fn counts(&self, listed: &Listings, dir: &Path) -> Result<bool, FilesError> {
        match listed.get(dir) {
            Some(entries) => Ok(!entries.is_empty()),
            None => self.holds_file(dir),
        }
    }

    /// The files below a directory, in order. Below `out` and `.pie` each entry that is no directory counts.
    pub(crate) fn all_under(&self, dir: &Path) -> Result<Vec<Listed>, FilesError> {
        let mut files = Vec::new(self.alloc());
        let mut dirs = Vec::new(self.alloc());
        dirs.push(dir.copy()?)?;
        for _ in 0..u64::MAX {
            let Some(dir) = dirs.pop() else {
                break;
            };
            sort_out(self.entries(&dir)?, &mut files, &mut dirs)?;
            if files.len() > MOST {
                return Err(self.refused("list", dir.as_str(), "too many files"));
            }
        }
        files.sort_by(|a, b| a.path.cmp(&b.path))?;
        Ok(files)
    }

    /// Whether a file is below a directory that stands there. It stops at the first, and looks into no directory twice.
    pub(crate) fn holds_file(&self, dir: &Path) -> Result<bool, FilesError> {
        let mut dirs = Vec::new(self.alloc());
        if self.has_file(dir, &mut dirs)? {
            return Ok(true);
        }
        self.hold_file(dirs)
    }

    // Whether a file is below one of some directories.
    fn hold_file(&self, mut dirs: Vec<Path>) -> Result<bool, FilesError> {
        let mut looked = BTreeSet::new(self.alloc());
        for _ in 0..u64::MAX {
            let Some(dir) = dirs.pop() else {
                break;
            };
            if self.is_new(&dir, &mut looked)? && self.has_file(&dir, &mut dirs)? {
                return Ok(true);
            }
        }
        Ok(false)
    }

    // Whether a directory stands there that wasn't looked into yet.
    fn is_new(&self, dir: &Path, looked: &mut BTreeSet<(u64, u64)>) -> Result<bool, FilesError> {
        match self.look("list", dir)? {
            Some(seen) => Ok(looked.insert(seen.identity)?),
            None => Ok(false),
        }
    }

    // Whether a file is right below a directory; if not, adds the directories below it.
    fn has_file(&self, dir: &Path, dirs: &mut Vec<Path>) -> Result<bool, FilesError> {
        let Some(mut listing) = self.listing(dir)? else {
            return Ok(false);
        };
        for _ in 0..u64::MAX {
            match self.next_entry(dir, &mut listing)? {
                None => break,
                Some(None) => {}
                Some(Some(Entry::File(_, _))) => return Ok(true),
                Some(Some(Entry::Dir(path))) => dirs.push(path)?,
            }
        }
        Ok(false)
    }

    // The entries of a directory that count, in the disk's order; none where it is no directory.
    fn entries(&self, dir: &Path) -> Result<Vec<Entry>, FilesError> {
        let seen = self.look("list", dir)?;
        if seen.is_some_and(|s| s.is_dir()) {
            return self.entries_in(dir);
        }
        Ok(Vec::new(self.alloc()))
    }

    // The same of a directory that was looked at.
    fn entries_in(&self, dir: &Path) -> Result<Vec<Entry>, FilesError> {
        let mut entries = Vec::new(self.alloc());
        let Some(mut listing) = self.listing(dir)? else {
            return Ok(entries);
        };
        for _ in 0..u64::MAX {
            match self.next_entry(dir, &mut listing)? {
                None => break,
                Some(None) => {}
                Some(Some(entry)) => entries.push(entry)?,
            }
        }
        Ok(entries)
    }

    // Opens a directory that was looked at, unless it has gone meanwhile.
    fn listing(&self, dir: &Path) -> Result<Option<ReadDir>, FilesError> {
        let place = self.place(dir)?;
        match fs::read_dir(&self.rt, place.as_str()) {
            Ok(listing) => Ok(Some(listing)),
            Err(e) if is_absent(&e) => Ok(None),
            Err(e) => Err(self.fault("list", place.as_str(), &e)),
        }
    }

    // The next entry of a directory, where there is one: none inside is one that doesn't count.
    fn next_entry(
        &self,
        dir: &Path,
        listing: &mut ReadDir,
    ) -> Result<Option<Option<Entry>>, FilesError> {
        match listing.next() {
            None => Ok(None),
            Some(Ok(entry)) => Ok(Some(self.entry(dir, entry.file_name())?)),
            Some(Err(e)) if e.kind() == ErrorKind::InvalidFilename => Ok(Some(None)),
            Some(Err(e)) => {
                let place = self.place(dir)?;
                Err(self.fault("list", place.as_str(), &e))
            }
        }
    }

    // The entry of this name, where it spells a path of a file or of a directory.
    fn entry(&self, dir: &Path, name: &str) -> Result<Option<Entry>, FilesError> {
        let Some(path) = child(self.alloc(), dir, name)? else {
            return Ok(None);
        };
        let place = self.place(&path)?;
        let Some(seen) = self.seen("list", place.as_str(), false)? else {
            return Ok(None);
        };
        if is_own(&path) {
            return Ok(Some(own_entry(path, &seen)));
        }
        if seen.is_link() {
            return self.linked(path, place.as_str());
        }
        Ok(source_entry(path, &seen))
    }

    // The entry of a source that is a link, by what it leads to.
    fn linked(&self, path: Path, place: &str) -> Result<Option<Entry>, FilesError> {
        let Some(seen) = self.seen("list", place, true)? else {
            return Ok(None);
        };
        if seen.is_dir() && self.leads_back(place, &seen)? {
            return Ok(None);
        }
        Ok(source_entry(path, &seen))
    }

    // Whether a directory to which a link leads stands above that link: so the listing would go round in a cycle.
    fn leads_back(&self, place: &str, seen: &Seen) -> Result<bool, FilesError> {
        let top = self.top_place()?;
        if self.is_same(top.as_str(), seen)? {
            return Ok(true);
        }
        self.is_above(place, seen)
    }

    // Whether a directory stands above a place.
    fn is_above(&self, place: &str, seen: &Seen) -> Result<bool, FilesError> {
        for end in self.root.len()..place.len() {
            if let Some(dir) = dir_at(place, end) {
                if self.is_same(dir, seen)? {
                    return Ok(true);
                }
            }
        }
        Ok(false)
    }

    fn is_same(&self, place: &str, seen: &Seen) -> Result<bool, FilesError> {
        let other = self.seen("list", place, true)?;
        Ok(other.is_some_and(|o| o.identity == seen.identity))
    }
}

// An entry below `out` or `.pie`: each that is no directory counts.
fn own_entry(path: Path, seen: &Seen) -> Entry {
    if seen.is_dir() {
        Entry::Dir(path)
    } else {
        Entry::File(path, None)
    }
}

// An entry elsewhere, where it is a directory or a file.
fn source_entry(path: Path, seen: &Seen) -> Option<Entry> {
    if seen.is_dir() {
        return Some(Entry::Dir(path));
    }
    let file = seen.file()?;
    Some(Entry::File(path, Some(file)))
}

// The path of a directory's entry, or none where its name spells no path.
fn child(alloc: Global, dir: &Path, name: &str) -> Result<Option<Path>, OutOfMemory> {
    let text = format!(in alloc; "{}/{name}", dir.as_str())?;
    match Path::read(alloc, text.as_str()) {
        Ok(path) => Ok(Some(path)),
        Err(PathError::OutOfMemory) => Err(OutOfMemory),
        Err(_) => Ok(None),
    }
}

// Parts entries into files and directories.
fn sort_out(
    entries: Vec<Entry>,
    files: &mut Vec<Listed>,
    dirs: &mut Vec<Path>,
) -> Result<(), OutOfMemory> {
    for entry in entries {
        match entry {
            Entry::File(path, file) => files.push(Listed { path, file })?,
            Entry::Dir(path) => dirs.push(path)?,
        }
    }
    Ok(())
}
