//! The files that live tasks wrote in this build.
ghost use Rattle.std.specs.Prelude.{◌≡◌, ◌<◌, ℕ, List, [], All, IsTrue, length, IfOk, OnOk};
ghost use Rattle.std.specs.List.{Contains};
ghost use Rattle.std.specs.BTreeMap.{IsOrdered};
ghost use Rattle.std.specs.Cmp.Lexicographic.{slice_cmp};
ghost use Rattle.std.specs.Ordering.{nat_cmp};
ghost use Rattle.pie_base.specs.Path.{is_out};
ghost use Rattle.pie_graph.specs.Numbers.{numbers, AllBelow};
ghost use Rattle.pie_record.specs.Canonical.{IsStorableWrite};
ghost use Rattle.pie_tables.specs.Tabled.{IsTables};
ghost use Rattle.pie_tables.specs.declared.tables.Tables.{Tables};
ghost use Rattle.pie_results.specs.inner.Files.{AreFiles, AreOfTasks, HasStaged, HasWritten, InPathOrder, KeepsPaths, OnlyOut, Wrote, contents_in};

use crate::places::is_done;
use pie_base::{OutOfMemory, Path};
use pie_graph::TaskNo;
use pie_tables::Tables;
use pie_view::Stage;
use std::alloc::Global;
use std::collections::BTreeMap;

/// What live tasks that ran staged at the paths that they wrote, in path order.
pub(crate) fn files_of(
    tables: &Tables,
    stage: &Stage,
    live: &[TaskNo],
) -> Result<Vec<(Path, Vec<u8>)>, OutOfMemory>
    requires tables { IsTables tables.now }
    requires live { AllBelow (length tables.now.names) (numbers live.now) }
    ensures order { IfOk result (λ files. InPathOrder files.items) }
    ensures files { IfOk result (λ files. AreFiles tables.now stage.now (numbers live.now) (contents_in files.items)) }
{
    let mut files = BTreeMap::new(tables.alloc);
    for no in live {
        put_files(tables, stage, *no, &mut files)?;
    }
    let list = listed(tables.alloc, files)?;
    Ok(list)
}

// Adds what a task staged at the paths that it wrote, if it ran and is done.
fn put_files(
    tables: &Tables,
    stage: &Stage,
    no: TaskNo,
    files: &mut BTreeMap<Path, Vec<u8>>,
) -> Result<(), OutOfMemory>
    requires tables { IsTables tables.now }
    requires number { no.0 < length tables.now.names }
    requires out { OnlyOut files.old }
    ensures out { OnOk result (OnlyOut files.new) }
    ensures of_tasks { (live : List ℕ) → Contains live no.0 → AreOfTasks tables.now stage.now live files.old
        → OnOk result (AreOfTasks tables.now stage.now live files.new) }
    ensures keeps { OnOk result (KeepsPaths files.old files.new) }
    ensures written { OnOk result (HasWritten tables.now stage.now no.0 files.new) }
{
    if !tables.ran[no.0 as usize] {
        return Ok(());
    }
    match tables.records.get(no) {
        Some(rec) => {
            if is_done(rec) {
                put_all(tables.alloc, stage, no, rec.writes.as_slice(), files)?;
            }
            Ok(())
        }
        None => Ok(()),
    }
}

// Adds what a task staged at these paths.
fn put_all(
    alloc: Global,
    stage: &Stage,
    no: TaskNo,
    writes: &[(Path, [u8; 32])],
    files: &mut BTreeMap<Path, Vec<u8>>,
) -> Result<(), OutOfMemory>
    requires writes { All IsStorableWrite writes.now }
    requires out { OnlyOut files.old }
    ensures out { OnOk result (OnlyOut files.new) }
    ensures of_tasks { (t : Tables) (live : List ℕ) → Contains live no.0 → All (λ w. Wrote t no.0 w.0) writes.now
        → AreOfTasks t stage.now live files.old → OnOk result (AreOfTasks t stage.now live files.new) }
    ensures keeps { OnOk result (KeepsPaths files.old files.new) }
    ensures each { OnOk result (All (λ w. HasStaged stage.now no.0 files.new w.0) writes.now) }
{
    for (path, _) in writes {
        put_file(alloc, stage, no, path, files)?;
    }
    Ok(())
}

// Adds what a task staged at a path.
fn put_file(
    alloc: Global,
    stage: &Stage,
    no: TaskNo,
    path: &Path,
    files: &mut BTreeMap<Path, Vec<u8>>,
) -> Result<(), OutOfMemory>
    requires path { IsTrue (is_out path.now) }
    requires out { OnlyOut files.old }
    ensures out { OnOk result (OnlyOut files.new) }
    ensures of_tasks { (t : Tables) (live : List ℕ) → Contains live no.0 → Wrote t no.0 path.now → AreOfTasks t stage.now live files.old
        → OnOk result (AreOfTasks t stage.now live files.new) }
    ensures keeps { OnOk result (KeepsPaths files.old files.new) }
    ensures staged { OnOk result (HasStaged stage.now no.0 files.new path.now) }
{
    match stage.get(no, path) {
        Some(content) => {
            let content = content.to_vec(alloc)?;
            files.insert(path.copy()?, content)?;
            Ok(())
        }
        None => Ok(()),
    }
}

// The files of a map in order.
fn listed(
    alloc: Global,
    files: BTreeMap<Path, Vec<u8>>,
) -> Result<Vec<(Path, Vec<u8>)>, OutOfMemory>
    requires { OnlyOut files }
    ensures order { IfOk result (λ list. InPathOrder list.items) }
    ensures entries { IfOk result (λ list. list.items ≡ files.entries) }
    ensures ordered { IsOrdered (slice_cmp nat_cmp) files }
{
    let _count = files.len();
    let list = emptied(alloc, files)?;
    Ok(list)
}

fn emptied(
    alloc: Global,
    files: BTreeMap<Path, Vec<u8>>,
) -> Result<Vec<(Path, Vec<u8>)>, OutOfMemory>
    ensures { IfOk result (λ list. list.items ≡ files.entries) }
{
    let mut files = files;
    let mut list = Vec::new(alloc);
    'files: loop {
        match files.pop_first() {
            Some(file) => list.push(file)?,
            None => return Ok(list),
        }
    }
}
