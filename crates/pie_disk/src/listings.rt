//! What was listed since the last change.

use crate::disk::dir_at;
use crate::seen::Look;
use pie_base::{OutOfMemory, Path};
use std::alloc::Global;
use std::collections::BTreeMap;

// How many entries are kept. Listings beyond are made anew each time.
const MOST_KEPT: usize = 65_536;

/// An entry of a directory that was listed, with what a look found where it is a file among the sources.
#[derive(Drop)]
pub(crate) struct Listed {
    pub(crate) path: Path,
    pub(crate) file: Option<Look>,
}

/// The entries of each directory that was listed since the last change through this adapter: a build meets each directory in one state.
/// Rule: docs/BUILDING.md, "Over a real directory".
#[derive(Drop)]
pub(crate) struct Listings {
    given: BTreeMap<String, Vec<Listed>>,
    // All files below a directory among the sources.
    below: BTreeMap<String, Vec<Listed>>,
    // How many entries all these have together.
    entries: usize,
}

impl Listings {
    pub(crate) fn new(alloc: Global) -> Listings {
        Listings {
            given: BTreeMap::new(alloc),
            below: BTreeMap::new(alloc),
            entries: 0,
        }
    }

    /// The entries of a directory that was listed, in order.
    pub(crate) fn get(&self, dir: &Path) -> Option<&[Listed]> {
        match self.given.get(dir.as_str()) {
            Some(entries) => Some(entries.as_slice()),
            None => None,
        }
    }

    /// What a look found at the file of a source, where its directory was listed, or all files below one above it.
    pub(crate) fn file(&self, path: &Path) -> Option<Look> {
        match self.entry(path) {
            Some(entry) => entry.file,
            None => self.file_below(path),
        }
    }

    /// The entry that was listed at a path.
    pub(crate) fn entry(&self, path: &Path) -> Option<&Listed> {
        let (dir, _) = path.as_str().rsplit_once('/')?;
        let entries = self.given.get(dir)?;
        at(entries.as_slice(), path)
    }

    fn file_below(&self, path: &Path) -> Option<Look> {
        if self.below.is_empty() {
            return None;
        }
        let text = path.as_str();
        for end in 0..text.len() {
            if let Some(dir) = dir_at(text, end) {
                if let Some(files) = self.below.get(dir) {
                    return at(files.as_slice(), path)?.file;
                }
            }
        }
        None
    }

    /// Keeps the entries of a directory, which are in order, where there is room.
    pub(crate) fn keep(
        &mut self,
        alloc: Global,
        dir: &Path,
        entries: Vec<Listed>,
    ) -> Result<(), OutOfMemory> {
        if self.takes(entries.len()) {
            let dir = String::from_str(alloc, dir.as_str())?;
            self.given.insert(dir, entries)?;
        }
        Ok(())
    }

    /// Keeps all files below a directory among the sources, which are in order, where there is room.
    pub(crate) fn keep_below(
        &mut self,
        alloc: Global,
        dir: &Path,
        files: Vec<Listed>,
    ) -> Result<(), OutOfMemory> {
        if self.takes(files.len()) {
            let dir = String::from_str(alloc, dir.as_str())?;
            self.below.insert(dir, files)?;
        }
        Ok(())
    }

    // Whether there is room for so many entries more; then they count.
    fn takes(&mut self, more: usize) -> bool {
        let many = self.entries.saturating_add(more);
        if many > MOST_KEPT {
            return false;
        }
        self.entries = many;
        true
    }

    /// Forgets all, since something changes.
    pub(crate) fn clear(&mut self) {
        self.given.clear();
        self.below.clear();
        self.entries = 0;
    }
}

// The entry at a path among some that are in order.
fn at<'a>(entries: &'a [Listed], path: &Path) -> Option<&'a Listed> {
    let place = entries.binary_search_by(|entry| entry.path.cmp(path));
    match place {
        Ok(place) => entries.get(place),
        Err(_) => None,
    }
}

/// Copies of the paths of some entries, in a list of their own.
pub(crate) fn paths_of(alloc: Global, entries: &[Listed]) -> Result<Vec<Path>, OutOfMemory> {
    let mut paths = Vec::with_capacity(alloc, entries.len())?;
    for entry in entries {
        paths.push(entry.path.copy()?)?;
    }
    Ok(paths)
}
