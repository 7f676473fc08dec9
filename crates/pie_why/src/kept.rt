//! The observations and the writes of one record, held against what is there now.
ghost use Rattle.std.specs.Prelude.{◌≡◌};

use crate::text::{put, put_task};
use crate::words::{put_file, put_wrote};
use pie_base::{OutOfMemory, Path};
use pie_files::{Files, FilesError};
use pie_graph::TaskNo;
use pie_named::Named;
use pie_record::{Dep, DepKind, DepOn};
use pie_tables::Tables;
use pie_value::{Stamp, Task};
use std::alloc::Global;

/// Adds what the task with this number observed and required, in order, and what it wrote.
pub(crate) fn put_kept<F: Files>(
    alloc: Global,
    out: &mut String,
    files: &mut F,
    named: &mut Named,
    tables: &Tables,
    no: TaskNo,
) -> Result<(), FilesError>
    ensures same { F.holds files.new ≡ F.holds files.old }
{
    match tables.records.get(no) {
        Some(rec) => {
            put_deps(alloc, out, files, named, rec.deps.as_slice())?;
            put_writes(out, files, named, rec.writes.as_slice())
        }
        None => Ok(()),
    }
}

fn put_deps<F: Files>(
    alloc: Global,
    out: &mut String,
    files: &mut F,
    named: &mut Named,
    deps: &[Dep],
) -> Result<(), FilesError>
    ensures same { F.holds files.new ≡ F.holds files.old }
{
    for dep in deps {
        put_dep(alloc, out, files, named, dep)?;
    }
    Ok(())
}

fn put_dep<F: Files>(
    alloc: Global,
    out: &mut String,
    files: &mut F,
    named: &mut Named,
    dep: &Dep,
) -> Result<(), FilesError>
    ensures same { F.holds files.new ≡ F.holds files.old }
{
    match &dep.what {
        DepOn::File(path) => {
            let differs = sight_differs(files, named, dep.kind, path, &dep.stamp)?;
            put_file(out, dep.kind, path, file_tail(dep.kind, differs))?;
            Ok(())
        }
        DepOn::Called(task) => {
            put_called(alloc, out, dep.kind, task)?;
            Ok(())
        }
    }
}

fn file_tail(kind: DepKind, differs: bool) -> &'static str {
    match (kind, differs) {
        (DepKind::List, true) => ", whose entries changed\n",
        _ => tail_of(differs),
    }
}

fn tail_of(differs: bool) -> &'static str {
    if differs { ", which changed\n" } else { "\n" }
}

// Whether an observation of a source isn't now as it was. Other paths aren't asked of the files.
fn sight_differs<F: Files>(
    files: &mut F,
    named: &mut Named,
    kind: DepKind,
    path: &Path,
    stamp: &Stamp,
) -> Result<bool, FilesError>
    ensures same { F.holds files.new ≡ F.holds files.old }
{
    if !path.is_source() {
        return Ok(false);
    }
    let differs = named.differs(kind, path, stamp, files)?;
    Ok(differs)
}

fn put_called(
    alloc: Global,
    out: &mut String,
    kind: DepKind,
    task: &Task,
) -> Result<(), OutOfMemory> {
    put(
        out,
        match kind {
            DepKind::Run => "  ran ",
            _ => "  required ",
        },
    )?;
    put_task(alloc, out, task)?;
    put(out, "\n")
}

fn put_writes<F: Files>(
    out: &mut String,
    files: &mut F,
    named: &mut Named,
    writes: &[(Path, [u8; 32])],
) -> Result<(), FilesError>
    ensures same { F.holds files.new ≡ F.holds files.old }
{
    for (path, hash) in writes {
        let is_another = named.write_differs(path, *hash, files)?;
        put_wrote(out, path, is_another)?;
    }
    Ok(())
}
