//! The files of a directory in memory.
ghost use Rattle.std.specs.Prelude.{◌≡◌, [], ◌∷◌, ◌++◌, if◌then◌else◌, OnOk, OnErr, IfOk, is_some};
ghost use Rattle.std.specs.Option.{option_map, option_copied};
ghost use Rattle.std.specs.FinMap as fin;
ghost use Rattle.pie_files.specs.Directory.{file_at, with_file, without_file, files_under, entries_of, in_path_order};
ghost use Rattle.pie_files.specs.inner.Held.{content_of, with_same, Gains};
ghost use Rattle.pie_base.specs.Path.{is_below, entry_on_way};

use crate::Found;
use pie_base::{OutOfMemory, Path};
use std::alloc::Global;
use std::collections::{BTreeMap, BTreeSet};
use std::marker::Model;

/// Files by their paths. Contracts see the directory.
#[derive(Drop)]
pub(crate) struct Held {
    files: BTreeMap<Path, Found>,
}

impl Model for Held {
    ghost use Rattle.std.specs.Ordering.{nat_cmp};
    ghost use Rattle.std.specs.Cmp.Lexicographic.{slice_cmp};
    ghost use Rattle.std.specs.BTreeMap.{IsOrdered};
    ghost use Rattle.pie_files.specs.Directory.{Directory};

    ghost Value = { Directory };

    ghost use Rattle.pie_files.specs.inner.Held.{directory_of, directory_code};

    ghost coded = { directory_code };

    ghost view = { λ h. directory_of h.files.entries };

    ghost invariant = { λ h. IsOrdered (slice_cmp nat_cmp) h.files };
}

impl Held {
    /// No files.
    pub(crate) fn new(alloc: Global) -> Held
        ensures { result ≡ fin.empty }
    {
        Held {
            files: BTreeMap::new(alloc),
        }
    }

    /// The same files.
    pub(crate) fn copy(&self, alloc: Global) -> Result<Held, OutOfMemory>
        ensures { IfOk result (λ copy. copy ≡ self.now) }
    {
        let mut copy = Held::new(alloc);
        for path in self.files.keys() {
            copy_file(alloc, self, &mut copy, path)?;
        }
        Ok(copy)
    }

    /// The file at a path.
    pub(crate) fn get(&self, path: &Path) -> Option<&Found>
        ensures { option_map content_of (option_copied result) ≡ file_at self.now path.now }
    {
        self.files.get(path)
    }

    /// Whether a file is at a path.
    pub(crate) fn has(&self, path: &Path) -> bool
        ensures { result ≡ is_some (file_at self.now path.now) }
    {
        self.get(path).is_some()
    }

    /// Sets a file.
    pub(crate) fn insert(&mut self, path: Path, found: Found) -> Result<(), OutOfMemory>
        ensures set { OnOk result (self.new ≡ with_file self.old path found.bytes.items found.mark) }
        ensures unchanged { OnErr result (self.new ≡ self.old) }
    {
        let _old = self.files.insert(path, found)?;
        Ok(())
    }

    /// Takes a file away.
    pub(crate) fn remove(&mut self, path: &Path)
        ensures { self.new ≡ without_file self.old path.now }
    {
        let _old = self.files.remove(path);
    }

    /// The files below a directory, in path order.
    pub(crate) fn all_under(&self, alloc: Global, dir: &Path) -> Result<Vec<Path>, OutOfMemory>
        ensures { IfOk result (λ paths. paths.items ≡ files_under self.now dir.now) }
    {
        let mut found = Vec::new(alloc);
        for path in self.files.keys() {
            note_below(&mut found, dir, path)?;
        }
        Ok(found)
    }

    /// The entries of a directory, in path order.
    pub(crate) fn names(&self, alloc: Global, dir: &Path) -> Result<Vec<Path>, OutOfMemory>
        ensures { IfOk result (λ paths. paths.items ≡ entries_of self.now dir.now) }
    {
        let mut entries = BTreeSet::new(alloc);
        for path in self.files.keys() {
            note_entry(alloc, &mut entries, dir, path)?;
        }
        listed(alloc, &entries)
    }
}

// Makes a path hold in a copy what it holds.
fn copy_file(alloc: Global, from: &Held, copy: &mut Held, path: &Path) -> Result<(), OutOfMemory>
    ensures { OnOk result (copy.new ≡ with_same from.now copy.old path.now) }
{
    match from.get(path) {
        Some(found) => {
            let bytes = found.bytes.to_vec(alloc)?;
            let mark = found.mark;
            let path = path.copy()?;
            copy.insert(path, Found { bytes, mark })
        }
        None => {
            copy.remove(path);
            Ok(())
        }
    }
}

// Notes a path where it lies below the directory.
fn note_below(found: &mut Vec<Path>, dir: &Path, path: &Path) -> Result<(), OutOfMemory>
    ensures { OnOk result (found.new.items ≡ (if is_below dir.now path.now then found.old.items ++ path.now ∷ [] else found.old.items)) }
{
    if path.is_below(dir) {
        found.push(path.copy()?)?;
    }
    Ok(())
}

// Notes the entry of the directory on the way to a path, where there is one.
fn note_entry(
    alloc: Global,
    entries: &mut BTreeSet<Path>,
    dir: &Path,
    path: &Path,
) -> Result<(), OutOfMemory>
    ensures { OnOk result (Gains entries.old.keys (entry_on_way dir.now path.now) entries.new.keys) }
{
    if let Some(entry) = path.entry_of(alloc, dir)? {
        let _new = entries.insert(entry)?;
    }
    Ok(())
}

// The paths of a set, in path order.
fn listed(alloc: Global, paths: &BTreeSet<Path>) -> Result<Vec<Path>, OutOfMemory>
    ensures { IfOk result (λ list. list.items ≡ in_path_order paths.now.keys) }
{
    let mut list = Vec::new(alloc);
    for path in paths.iter() {
        list.push(path.copy()?)?;
    }
    Ok(list)
}
