//! Records from lines like `read s one, run a done`, and the tables of a build with them.
ghost use Rattle.std.specs.Prelude.{◌≡◌, ◌+◌, length, slice_get, Some, IfOk, OnOk};
ghost use Rattle.pie_graph.specs.Numbers.{numbers, AllBelow};
ghost use Rattle.pie_value.specs.Canonical.{IsEncodableTask};
ghost use Rattle.pie_record.specs.Canonical.{IsStorable};
ghost use Rattle.pie_tables.specs.Tabled.{IsTables};

use pie_base::{MAX_TASKS, Path};
use pie_graph::{Edges, PlainRows, TaskNo, TaskRows};
use pie_record::{TaskRecord, decode_record};
use pie_stamp::hash_of;
use pie_tables::Tables;
use pie_value::Task;
use std::alloc::Global;
use std::test::Fail;

/// The kinds of observation in the order of their bytes.
const KINDS: [&str; 8] = [
    "exists", "read", "mark", "digest", "list", "require", "hashed", "run",
];

// A text behind its length.
fn put_text(out: &mut Vec<u8>, text: &str) -> Result<(), Fail> {
    put_len(out, text.len())?;
    out.extend_from_slice(text.as_bytes())?;
    Ok(())
}

// A length below 256.
fn put_len(out: &mut Vec<u8>, len: usize) -> Result<(), Fail> {
    out.extend_from_slice(&[0, 0, 0, (len % 256) as u8])?;
    Ok(())
}

// The byte of a kind.
fn kind_of(word: &str) -> u8 {
    for i in 0..KINDS.len() {
        if KINDS[i] == word {
            return i as u8 + 1;
        }
    }
    0
}

// A stamp that has no hash, by its word.
fn plain_stamp(word: &str) -> &'static [u8] {
    if word == "absent" {
        return &[0];
    }
    if word == "present" {
        return &[1];
    }
    if word == "seven" {
        return &[3, 0, 0, 0, 0, 0, 0, 0, 7];
    }
    if word == "true" {
        return &[4, 1, 1];
    }
    if word == "false" {
        return &[4, 1, 0];
    }
    if word == "done" {
        return &[5];
    }
    &[]
}

// A stamp: one without a hash, or the hash of what the word spells.
fn put_stamp(out: &mut Vec<u8>, word: &str) -> Result<(), Fail> {
    let plain = plain_stamp(word);
    out.extend_from_slice(plain)?;
    if plain.is_empty() {
        out.push(2)?;
        put_hash(out, word)?;
    }
    Ok(())
}

// The hash of what the word spells, or of the output `true`.
fn put_hash(out: &mut Vec<u8>, word: &str) -> Result<(), Fail> {
    let hash = if word == "#true" {
        hash_of(&[1, 1])
    } else {
        hash_of(word.as_bytes())
    };
    out.extend_from_slice(&hash)?;
    Ok(())
}

// An observation, as `read s one`.
fn put_dep(out: &mut Vec<u8>, text: &str) -> Result<(), Fail> {
    let (kind, rest) = text.split_once(' ').ok_or("kind")?;
    let (what, stamp) = rest.split_once(' ').ok_or("stamp")?;
    let kind = kind_of(kind);
    out.push(kind)?;
    put_text(out, what)?;
    if kind >= 6 {
        put_len(out, 0)?;
    }
    put_stamp(out, stamp)
}

// A write, as `out/a one`.
fn put_write(out: &mut Vec<u8>, text: &str) -> Result<(), Fail> {
    let (path, content) = text.split_once(' ').ok_or("content")?;
    put_text(out, path)?;
    put_hash(out, content)
}

fn count_of(text: &str) -> usize {
    if text.is_empty() {
        return 0;
    }
    let mut count = 0usize;
    for _part in text.split(',') {
        count = count.saturating_add(1);
    }
    count
}

fn put_deps(out: &mut Vec<u8>, text: &str) -> Result<(), Fail> {
    put_len(out, count_of(text))?;
    if !text.is_empty() {
        for part in text.split(',') {
            put_dep(out, part)?;
        }
    }
    Ok(())
}

fn put_writes(out: &mut Vec<u8>, text: &str) -> Result<(), Fail> {
    put_len(out, count_of(text))?;
    if !text.is_empty() {
        for part in text.split(',') {
            put_write(out, part)?;
        }
    }
    Ok(())
}

/// The record of a task without arguments that gave the output `true`.
pub(crate) fn record(
    alloc: Global,
    func: &str,
    deps: &str,
    writes: &str,
) -> Result<TaskRecord, Fail>
    ensures { IfOk result IsStorable }
{
    let mut bytes = Vec::new(alloc);
    put_text(&mut bytes, func)?;
    put_len(&mut bytes, 0)?;
    put_deps(&mut bytes, deps)?;
    put_writes(&mut bytes, writes)?;
    bytes.extend_from_slice(&[1, 1])?;
    let (rec, _) = decode_record(alloc, bytes.as_slice())?;
    Ok(rec)
}

// The number of a task that is required, if there is one.
fn needs_of(alloc: Global, needs: Option<u32>, count: u32) -> Result<Vec<TaskNo>, Fail>
    ensures { IfOk result (λ nos. AllBelow count (numbers nos.items)) }
{
    let mut nos = Vec::new(alloc);
    if let Some(no) = needs {
        if no < count {
            nos.push(TaskNo(no))?;
        }
    }
    Ok(nos)
}

fn paths_of(alloc: Global, writes: &[(Path, [u8; 32])]) -> Result<Vec<Path>, Fail> {
    let mut paths = Vec::new(alloc);
    for (path, _) in writes {
        paths.push(path.copy()?)?;
    }
    Ok(paths)
}

// A row with these requires, and the paths that the record says were written.
fn add_row(
    alloc: Global,
    rows: &mut PlainRows,
    rec: &TaskRecord,
    needs: Option<u32>,
) -> Result<(), Fail>
    ensures { OnOk result (length rows.new ≡ length rows.old + 1) }
{
    let count = rows.count();
    if count >= MAX_TASKS {
        return Err("rows")?;
    }
    let no = rows.add()?;
    let mut edges = Edges::new(alloc);
    edges.needs = needs_of(alloc, needs, count)?;
    edges.writes = paths_of(alloc, rec.writes.as_slice())?;
    rows.set_edges(no, edges)?;
    Ok(())
}

fn add_task(tables: &mut Tables, task: &Task) -> Result<TaskNo, Fail>
    requires tables { IsTables tables.old }
    requires task { IsEncodableTask task.now }
    ensures tables { OnOk result (IsTables tables.new) }
    ensures rows { OnOk result (length tables.new.names ≡ length tables.old.names + 1) }
    ensures number { IfOk result (λ no. slice_get tables.new.names no.0 ≡ Some task.now) }
{
    if tables.names.as_slice().len() >= MAX_TASKS as usize || tables.names.number(task)?.is_some() {
        return Err("names")?;
    }
    let no = tables.add(task.copy()?)?;
    Ok(no)
}

// Adds a record and its row.
fn add_record(
    alloc: Global,
    tables: &mut Tables,
    rows: &mut PlainRows,
    needs: Option<u32>,
    rec: TaskRecord,
) -> Result<(), Fail>
    requires tables { IsTables tables.old }
    requires rows { length tables.old.names ≡ length rows.old }
    requires record { IsStorable rec }
    ensures tables { OnOk result (IsTables tables.new) }
    ensures rows { OnOk result (length tables.new.names ≡ length rows.new) }
{
    add_row(alloc, rows, &rec, needs)?;
    let no = add_task(tables, &rec.task)?;
    tables.put(no, rec)?;
    Ok(())
}

/// Adds the record of a task that requires the one with this number, if there is one.
pub(crate) fn add(
    alloc: Global,
    tables: &mut Tables,
    rows: &mut PlainRows,
    needs: Option<u32>,
    func: &str,
    deps: &str,
    writes: &str,
) -> Result<(), Fail>
    requires tables { IsTables tables.old }
    requires rows { length tables.old.names ≡ length rows.old }
    ensures tables { OnOk result (IsTables tables.new) }
    ensures rows { OnOk result (length tables.new.names ≡ length rows.new) }
{
    let rec = record(alloc, func, deps, writes)?;
    add_record(alloc, tables, rows, needs, rec)
}
