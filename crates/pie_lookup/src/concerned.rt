//! The tasks that a path concerns.

use crate::text::put;
use pie_base::{OutOfMemory, Path};
use pie_record::{Dep, DepKind, DepOn, TaskRecord};
use pie_value::{Task, show_task};
use std::alloc::Global;

/// The tasks of these records that wrote a path, that read it or asked whether it is there, and that listed a directory above it: a line each, in the order of the
/// records. Rule: docs/INSPECT.md.
pub fn who(alloc: Global, rows: &[TaskRecord], path: &Path) -> Result<String, OutOfMemory> {
    let mut out = String::new(alloc);
    for rec in rows {
        put_ways(alloc, &mut out, rec, path)?;
    }
    Ok(out)
}

fn put_ways(
    alloc: Global,
    out: &mut String,
    rec: &TaskRecord,
    path: &Path,
) -> Result<(), OutOfMemory> {
    if has_written(rec.writes.as_slice(), path) {
        put_way(alloc, out, "writes ", &rec.task)?;
    }
    if has_read(rec.deps.as_slice(), path) {
        put_way(alloc, out, "reads ", &rec.task)?;
    }
    if has_listed(rec.deps.as_slice(), path) {
        put_way(alloc, out, "lists ", &rec.task)?;
    }
    Ok(())
}

fn put_way(alloc: Global, out: &mut String, way: &str, task: &Task) -> Result<(), OutOfMemory> {
    let shown = show_task(alloc, task)?;
    put(out, way)?;
    put(out, shown.as_str())?;
    put(out, "\n")
}

fn has_written(writes: &[(Path, [u8; 32])], path: &Path) -> bool {
    for (at, _) in writes {
        if *at == *path {
            return true;
        }
    }
    false
}

fn has_read(deps: &[Dep], path: &Path) -> bool {
    for dep in deps {
        if let Some(at) = read_path(dep) {
            if *at == *path {
                return true;
            }
        }
    }
    false
}

/// The path of a file that was read, or of which was asked whether it is there.
pub(crate) fn read_path(dep: &Dep) -> Option<&Path> {
    match (dep.kind, &dep.what) {
        (DepKind::List, _) => None,
        (_, DepOn::File(path)) => Some(path),
        (_, DepOn::Called(_)) => None,
    }
}

fn has_listed(deps: &[Dep], path: &Path) -> bool {
    for dep in deps {
        if let Some(dir) = listed_path(dep) {
            if path.is_below(dir) {
                return true;
            }
        }
    }
    false
}

/// The directory that was listed.
pub(crate) fn listed_path(dep: &Dep) -> Option<&Path> {
    match (dep.kind, &dep.what) {
        (DepKind::List, DepOn::File(path)) => Some(path),
        _ => None,
    }
}
