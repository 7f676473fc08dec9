//! The graph of the last build.

use crate::concerned::{listed_path, read_path};
use crate::text::{put, put_quoted};
use pie_base::{OutOfMemory, Path};
use pie_record::{Dep, DepOn, TaskRecord};
use pie_value::show_task;
use std::alloc::Global;

/// The tasks of these records and their files as a graph that Graphviz reads: a task points to each that it requires and to each file that it wrote; a file or
/// folder points to each task that read or listed it, dashed. Rule: docs/INSPECT.md.
pub fn graph(alloc: Global, rows: &[TaskRecord]) -> Result<String, OutOfMemory> {
    let mut out = String::new(alloc);
    put(
        &mut out,
        "digraph pie {\n  rankdir=LR;\n  node [shape=box, fontname=monospace];\n",
    )?;
    for rec in rows {
        put_record(alloc, &mut out, rec)?;
    }
    put(&mut out, "}\n")?;
    Ok(out)
}

fn put_record(alloc: Global, out: &mut String, rec: &TaskRecord) -> Result<(), OutOfMemory> {
    let task = show_task(alloc, &rec.task)?;
    put(out, "  ")?;
    put_quoted(out, task.as_str())?;
    put(out, " [style=filled];\n")?;
    put_deps(alloc, out, task.as_str(), rec.deps.as_slice())?;
    put_writes(out, task.as_str(), rec.writes.as_slice())
}

fn put_deps(alloc: Global, out: &mut String, task: &str, deps: &[Dep]) -> Result<(), OutOfMemory> {
    for dep in deps {
        put_dep(alloc, out, task, dep)?;
    }
    Ok(())
}

fn put_dep(alloc: Global, out: &mut String, task: &str, dep: &Dep) -> Result<(), OutOfMemory> {
    if let DepOn::Called(required) = &dep.what {
        let required = show_task(alloc, required)?;
        return put_edge(out, task, required.as_str(), "");
    }
    if let Some(path) = read_path(dep) {
        return put_edge(out, path.as_str(), task, " [style=dashed]");
    }
    match listed_path(dep) {
        Some(dir) => put_edge(out, dir.as_str(), task, " [style=dashed, label=list]"),
        None => Ok(()),
    }
}

fn put_writes(
    out: &mut String,
    task: &str,
    writes: &[(Path, [u8; 32])],
) -> Result<(), OutOfMemory> {
    for (path, _) in writes {
        put_edge(out, task, path.as_str(), "")?;
    }
    Ok(())
}

fn put_edge(out: &mut String, from: &str, to: &str, style: &str) -> Result<(), OutOfMemory> {
    put(out, "  ")?;
    put_quoted(out, from)?;
    put(out, " -> ")?;
    put_quoted(out, to)?;
    put(out, style)?;
    put(out, ";\n")
}
