//! What is held, written and removed. Paths are told as one text.
use crate::texts::path;
use pie_base::{Path, Text};
use pie_diff::{Held, held_by, removals, writes};
use pie_files::MemFiles;
use pie_record::{Deps, Outcome, TaskRecord, Writes};
use pie_stamp::hash_of;
use pie_value::{Items, Task, Value};
use std::alloc::Global;
use std::test::Fail;

// An empty file at each path.
fn empty_files(alloc: Global, texts: &[&str]) -> Result<Vec<(Path, [u8; 32])>, Fail> {
    let mut list = Vec::new(alloc);
    for text in texts {
        list.push((path(alloc, *text)?, hash_of(b"")))?;
    }
    Ok(list)
}

fn record(alloc: Global, func: Text, writes: Vec<(Path, [u8; 32])>) -> TaskRecord {
    TaskRecord {
        task: Task {
            func,
            args: Items::new(),
        },
        deps: Deps::new(Vec::new(alloc)),
        writes: Writes::new(writes),
        outcome: Outcome::Done(Value::Unit),
    }
}

// The record of a task that wrote an empty file at each path joins.
fn push_row(alloc: Global, rows: &mut Vec<TaskRecord>, texts: &[&str]) -> Result<(), Fail> {
    let writes = empty_files(alloc, texts)?;
    let func = Text::new(alloc, "f")?;
    rows.push(record(alloc, func, writes))?;
    Ok(())
}

fn wrote(alloc: Global, held: &mut Held, at: &str, bytes: &[u8]) -> Result<(), Fail> {
    let at = path(alloc, at)?;
    held.wrote(&at, hash_of(bytes))?;
    Ok(())
}

// Held by records: `a`, `b` and `c` below `out`, with their own names; and a source, which isn't held.
fn hold(alloc: Global, held: &mut Held) -> Result<(), Fail> {
    for (at, text) in [
        ("out/c", "c"),
        ("out/a", "a"),
        ("out/b", "b"),
        ("out/b", "later"),
        ("src/d", "d"),
    ] {
        wrote(alloc, held, at, text.as_bytes())?;
    }
    Ok(())
}

fn put(alloc: Global, files: &mut MemFiles, at: &str, bytes: &[u8], mark: u64) -> Result<(), Fail> {
    let at = path(alloc, at)?;
    files.put(&at, bytes, mark)?;
    Ok(())
}

// `out/b` was written over, and `out/c` was removed by hand; `out/e` was put there.
fn fill(alloc: Global, files: &mut MemFiles) -> Result<(), Fail> {
    put(alloc, files, "out/b", b"other", 1)?;
    put(alloc, files, "out/e", b"e", 2)?;
    put(alloc, files, "src/d", b"d", 3)
}

fn look(alloc: Global, held: &mut Held, files: &mut MemFiles) -> Result<(), Fail> {
    for text in ["out/b", "out/c", "out/e", "src/d"] {
        let named = path(alloc, text)?;
        if held.look(&named, files).is_err() {
            return Err("files")?;
        }
    }
    Ok(())
}

fn told(alloc: Global, paths: &[Path]) -> Result<String, Fail> {
    let mut said = String::new(alloc);
    for path in paths {
        said.push_str(path.as_str())?;
        said.push_str(" ")?;
    }
    Ok(said)
}

// What is removed where the live tasks write these paths.
fn gone(alloc: Global, held: &Held, texts: &[&str]) -> Result<String, Fail> {
    let mut rows = Vec::new(alloc);
    push_row(alloc, &mut rows, texts)?;
    push_row(alloc, &mut rows, &[])?;
    let found = removals(alloc, held, rows.as_slice())?;
    told(alloc, found.as_slice())
}

fn gone_of_held(alloc: Global, held: &mut Held, texts: &[&str]) -> Result<String, Fail> {
    hold(alloc, held)?;
    gone(alloc, &*held, texts)
}

#[test]
fn a_held_file_that_no_live_task_writes_is_removed(rt: HostRuntime) -> Result<(), Fail> {
    let alloc = rt.alloc();
    let said = gone_of_held(alloc, &mut Held::new(alloc), &["out/b", "out/z"])?;
    assert!(rt; said.as_str() == "out/a out/c ");
    Ok(())
}

fn gone_of_looked(alloc: Global, held: &mut Held, files: &mut MemFiles) -> Result<String, Fail> {
    hold(alloc, held)?;
    fill(alloc, files)?;
    look(alloc, held, files)?;
    gone(alloc, &*held, &["out/a"])
}

#[test]
fn named_paths_are_held_as_the_files_have_them(rt: HostRuntime) -> Result<(), Fail> {
    let alloc = rt.alloc();
    let mut files = MemFiles::new(alloc);
    let said = gone_of_looked(alloc, &mut Held::new(alloc), &mut files)?;
    // Three files were put, and three paths were asked for: not the source.
    assert!(rt; said.as_str() == "out/b out/e " && files.log().len() == 6);
    Ok(())
}

// A file with this text at this path joins.
fn push_file(
    alloc: Global,
    list: &mut Vec<(Path, Vec<u8>)>,
    at: &str,
    text: &str,
) -> Result<(), Fail> {
    let bytes = Vec::from_slice(alloc, text.as_bytes())?;
    list.push((path(alloc, at)?, bytes))?;
    Ok(())
}

// Files with these texts at these paths.
fn contents(alloc: Global, rows: &[(&str, &str)]) -> Result<Vec<(Path, Vec<u8>)>, Fail> {
    let mut list = Vec::new(alloc);
    for (at, text) in rows {
        push_file(alloc, &mut list, *at, *text)?;
    }
    Ok(list)
}

fn told_files(alloc: Global, files: &[(Path, Vec<u8>)]) -> Result<String, Fail> {
    let mut said = String::new(alloc);
    for (path, _) in files {
        said.push_str(path.as_str())?;
        said.push_str(" ")?;
    }
    Ok(said)
}

fn written(alloc: Global, held: &mut Held, rows: &[(&str, &str)]) -> Result<String, Fail> {
    hold(alloc, held)?;
    let files = writes(&*held, contents(alloc, rows)?);
    told_files(alloc, files.as_slice())
}

#[test]
fn a_file_is_written_where_another_content_or_none_is_held(rt: HostRuntime) -> Result<(), Fail> {
    let alloc = rt.alloc();
    let rows = [
        ("out/a", "a"),
        ("out/b", "later"),
        ("out/c", "c"),
        ("out/e", "e"),
    ];
    let said = written(alloc, &mut Held::new(alloc), &rows)?;
    assert!(rt; said.as_str() == "out/b out/e ");
    Ok(())
}

fn paths(alloc: Global, names: &[&str]) -> Result<Vec<Path>, Fail> {
    let mut paths = Vec::new(alloc);
    for name in names {
        paths.push(path(alloc, *name)?)?;
    }
    Ok(paths)
}

// What is held by a record of `out/a` and `out/b`, where these paths are named.
fn held_where(alloc: Global, files: &mut MemFiles, names: &[Path]) -> Result<Held, Fail> {
    let mut rows = Vec::new(alloc);
    push_row(alloc, &mut rows, &["out/a", "out/b"])?;
    match held_by(alloc, files, rows.as_slice(), names) {
        Ok(held) => Ok(held),
        Err(_) => Err("files")?,
    }
}

// Which of it goes.
fn by_records(alloc: Global, files: &mut MemFiles, names: &[&str]) -> Result<String, Fail> {
    let names = paths(alloc, names)?;
    let held = held_where(alloc, files, names.as_slice())?;
    gone(alloc, &held, &[])
}

fn by_records_twice(alloc: Global, files: &mut MemFiles) -> Result<(String, String), Fail> {
    fill(alloc, files)?;
    let none_named = by_records(alloc, files, &[])?;
    let three_named = by_records(alloc, files, &["out/a", "out/e", "src/d"])?;
    Ok((none_named, three_named))
}

#[test]
fn the_records_tell_what_isnt_named(rt: HostRuntime) -> Result<(), Fail> {
    let (none, three) = by_records_twice(rt.alloc(), &mut MemFiles::new(rt.alloc()))?;
    assert!(rt; none.as_str() == "out/a out/b " && three.as_str() == "out/b out/e ");
    Ok(())
}
