//! The names of a build.

use pie_base::{OutOfMemory, Path};
use pie_named::Named;
use std::alloc::Global;
use std::collections::BTreeSet;

/// The names of the list and the pending names together, each once, in path order.
pub(crate) fn joined_names(
    alloc: Global,
    named: &[Path],
    pending: &[Path],
) -> Result<Vec<Path>, OutOfMemory> {
    let mut set = BTreeSet::new(alloc);
    add_all(&mut set, named)?;
    add_all(&mut set, pending)?;
    list_of(alloc, &set)
}

fn add_all(set: &mut BTreeSet<Path>, paths: &[Path]) -> Result<(), OutOfMemory> {
    for path in paths {
        let copy = path.copy()?;
        set.insert(copy)?;
    }
    Ok(())
}

fn list_of(alloc: Global, set: &BTreeSet<Path>) -> Result<Vec<Path>, OutOfMemory> {
    let mut list = Vec::new(alloc);
    for path in set {
        let copy = path.copy()?;
        list.push(copy)?;
    }
    Ok(list)
}

/// These names, of which nothing is known yet.
pub(crate) fn named_of(alloc: Global, names: &[Path]) -> Result<Named, OutOfMemory> {
    let mut named = Named::new(alloc);
    for path in names {
        named.name(path)?;
    }
    Ok(named)
}

/// The first of these names in path order that lies below a directory, and how many more do.
pub(crate) fn below<'a>(names: &'a [Path], dir: &Path) -> (Option<&'a Path>, usize) {
    let dir = dir.as_str().as_bytes();
    let from = place_of(names, dir, b'/');
    let count = place_of(names, dir, b'0').saturating_sub(from);
    if count == 0 {
        return (None, 0);
    }
    (names.get(from), count - 1)
}

// How many names, of a list in path order, come before a directory with this byte behind it.
fn place_of(names: &[Path], dir: &[u8], byte: u8) -> usize {
    let mut from = 0;
    let mut to = names.len();
    while from < to {
        let middle = from + (to - from) / 2;
        if is_before(names[middle].as_str().as_bytes(), dir, byte) {
            from = middle + 1;
        } else {
            to = middle;
        }
    }
    from
}

// Whether a name comes before a directory with this byte behind it.
fn is_before(name: &[u8], dir: &[u8], byte: u8) -> bool {
    if name.len() <= dir.len() {
        return name <= dir;
    }
    let (front, rest) = name.split_at(dir.len());
    front < dir || (front == dir && rest[0] < byte)
}
