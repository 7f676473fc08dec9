//! Own writes, the one writer that is reached, clashes, and thousands of rows.
ghost use Rattle.std.specs.Prelude.{IfOk, OnOk};
ghost use Rattle.pie_graph.specs.Numbers.{numbers, AllBelow};

use crate::rows::{grow, push_below};
use pie_base::{OutOfMemory, Path};
use pie_graph::{Edges, IndexedRows, PlainRows, TaskNo, TaskRows};
use pie_view::{Seen, view};
use std::alloc::Global;
use std::process::Abort;
use std::test::Fail;

fn needs_below(alloc: Global, need: Option<u32>, count: u32) -> Result<Vec<TaskNo>, OutOfMemory>
    ensures { IfOk result (λ needs. AllBelow count (numbers needs.items)) }
{
    let mut needs = Vec::new(alloc);
    match need {
        Some(no) if no < count => needs.push(TaskNo(no))?,
        _ => {}
    }
    Ok(needs)
}

// Gives a task the task that it requires and the path that it wrote, if any.
fn set<R: TaskRows>(
    alloc: Global,
    rows: &mut R,
    no: u32,
    need: Option<u32>,
    write: &str,
) -> Result<(), Fail> {
    let count = rows.count();
    let needs = needs_below(alloc, need, count)?;
    let mut edges = Edges::new(alloc);
    edges.needs = needs;
    if !write.is_empty() {
        edges.writes.push(Path::read(alloc, write)?)?;
    }
    if no < count {
        rows.set_edges(TaskNo(no), edges)?;
    }
    Ok(())
}

// Those of the numbers that are below a bound.
fn below(alloc: Global, nos: &[u32], bound: u32) -> Result<Vec<TaskNo>, OutOfMemory>
    ensures { IfOk result (λ found. AllBelow bound (numbers found.items)) }
{
    let mut found = Vec::new(alloc);
    for no in nos {
        push_below(&mut found, *no, bound)?;
    }
    Ok(found)
}

// What the first task sees, with no writes of its own.
fn sees<R: TaskRows>(alloc: Global, rows: &R, required: &[u32], path: &str) -> Result<Seen, Fail> {
    let path = Path::read(alloc, path)?;
    let count = rows.count();
    let required = below(alloc, required, count)?;
    let seen = view(alloc, rows, TaskNo(0), &[], &required, &path)?;
    Ok(seen)
}

// 1 wrote `out/p`, 2 requires it; 3 and 4 wrote `out/a`; 5 wrote `out/a` and requires 3.
fn small<R: TaskRows>(alloc: Global, rows: &mut R) -> Result<(), Fail> {
    grow(rows, 6)?;
    set(alloc, rows, 1, None, "out/p")?;
    set(alloc, rows, 2, Some(1), "")?;
    set(alloc, rows, 3, None, "out/a")?;
    set(alloc, rows, 4, None, "out/a")?;
    set(alloc, rows, 5, Some(3), "out/a")?;
    Ok(())
}

fn is_seen<R: TaskRows>(
    rt: &impl Abort,
    alloc: Global,
    rows: &R,
    required: &[u32],
    path: &str,
    wanted: Seen,
) -> Result<(), Fail> {
    let seen = sees(alloc, rows, required, path)?;
    assert_eq!(rt; seen, wanted, "at {path}");
    Ok(())
}

fn small_is_seen<R: TaskRows>(rt: &impl Abort, alloc: Global, rows: &R) -> Result<(), Fail> {
    is_seen(rt, alloc, rows, &[], "out/p", Seen::Absent)?;
    is_seen(rt, alloc, rows, &[2], "out/p", Seen::By(TaskNo(1)))?;
    is_seen(rt, alloc, rows, &[3, 4], "out/a", Seen::Clash)?;
    is_seen(rt, alloc, rows, &[3], "out/a", Seen::By(TaskNo(3)))?;
    is_seen(rt, alloc, rows, &[3], "out/p", Seen::Absent)?;
    is_seen(rt, alloc, rows, &[2], "out/a", Seen::Absent)?;
    is_seen(rt, alloc, rows, &[5], "out/a", Seen::Clash)?;
    is_seen(rt, alloc, rows, &[3, 4], "out/q", Seen::Absent)
}

#[test]
fn the_writes_of_required_tasks_are_seen(rt: HostRuntime) -> Result<(), Fail> {
    let alloc = rt.alloc();
    let mut plain = PlainRows::new(alloc);
    small(alloc, &mut plain)?;
    small_is_seen(&rt, alloc, &plain)?;
    let mut indexed = IndexedRows::new(alloc);
    small(alloc, &mut indexed)?;
    small_is_seen(&rt, alloc, &indexed)
}

fn push_write(alloc: Global, own: &mut Vec<(Path, [u8; 32])>, path: &str) -> Result<(), Fail> {
    let path = Path::read(alloc, path)?;
    own.push((path, [0; 32]))?;
    Ok(())
}

// What the first task sees at a path after these writes of its own.
fn sees_after(
    alloc: Global,
    rows: &IndexedRows,
    own: &[(Path, [u8; 32])],
    path: &str,
) -> Result<Seen, Fail> {
    let path = Path::read(alloc, path)?;
    let count = rows.count();
    let required = below(alloc, &[2, 3, 4], count)?;
    let seen = view(alloc, rows, TaskNo(0), own, &required, &path)?;
    Ok(seen)
}

// What it sees where it wrote `out/b` and `out/a`.
fn own_is_seen(rt: &impl Abort, alloc: Global, rows: &IndexedRows) -> Result<(), Fail> {
    let mut own = Vec::new(alloc);
    push_write(alloc, &mut own, "out/b")?;
    push_write(alloc, &mut own, "out/a")?;
    for (path, wanted) in [("out/a", 0), ("out/b", 0), ("out/p", 1)] {
        let seen = sees_after(alloc, rows, own.as_slice(), path)?;
        assert_eq!(rt; seen, Seen::By(TaskNo(wanted)), "at {path}");
    }
    Ok(())
}

#[test]
fn an_own_write_comes_first(rt: HostRuntime) -> Result<(), Fail> {
    let alloc = rt.alloc();
    let mut rows = IndexedRows::new(alloc);
    small(alloc, &mut rows)?;
    own_is_seen(&rt, alloc, &rows)
}

// Each task requires the next one.
fn chain(alloc: Global, rows: &mut IndexedRows, count: u32) -> Result<(), Fail> {
    grow(rows, count)?;
    for no in 1..count {
        set(alloc, rows, no - 1, Some(no), "")?;
    }
    Ok(())
}

fn chain_is_walked(rt: &impl Abort, alloc: Global, rows: &mut IndexedRows) -> Result<(), Fail> {
    chain(alloc, rows, 5000)?;
    set(alloc, rows, 2500, Some(2501), "out/m")?;
    set(alloc, rows, 4998, Some(4999), "out/z")?;
    is_seen(rt, alloc, rows, &[1], "out/z", Seen::By(TaskNo(4998)))?;
    is_seen(rt, alloc, rows, &[1], "out/m", Seen::By(TaskNo(2500)))?;
    is_seen(rt, alloc, rows, &[2501], "out/m", Seen::Absent)?;
    set(alloc, rows, 4999, None, "out/z")?;
    is_seen(rt, alloc, rows, &[1], "out/z", Seen::Clash)?;
    is_seen(rt, alloc, rows, &[4999], "out/z", Seen::By(TaskNo(4999)))
}

#[test]
fn a_chain_of_thousands_is_walked(rt: HostRuntime) -> Result<(), Fail> {
    let alloc = rt.alloc();
    let mut rows = IndexedRows::new(alloc);
    chain_is_walked(&rt, alloc, &mut rows)
}
