//! Rows of three, a chain and a fan.
ghost use Rattle.std.specs.Prelude.{◌≡◌, ◌<◌, ◌∷◌, [], length, IfOk, OnOk};
ghost use Rattle.pie_graph.specs.Numbers.{numbers, AllBelow};

use crate::rows::{grow, push_below};
use pie_base::{MAX_TASKS, OutOfMemory};
use pie_graph::{Edges, IndexedRows, PlainRows, TaskNo, TaskRows};
use pie_reach::{heights, is_acyclic, lowest, reaches, upstream};
use pie_union::UnionRows;
use std::alloc::Global;
use std::process::Abort;
use std::test::Fail;

fn calls<R: TaskRows>(
    alloc: Global,
    rows: &mut R,
    from: u32,
    first: u32,
    end: u32,
) -> Result<(), Fail> {
    let count = rows.count();
    let mut needs = Vec::new(alloc);
    for no in first..end {
        push_below(&mut needs, no, count)?;
    }
    if from < count {
        let mut edges = Edges::new(alloc);
        edges.needs = needs;
        rows.set_edges(TaskNo(from), edges)?;
    }
    Ok(())
}

fn chain<R: TaskRows>(alloc: Global, rows: &mut R, count: u32) -> Result<(), Fail> {
    grow(rows, count)?;
    for no in 1..count {
        calls(alloc, rows, no - 1, no, no.saturating_add(1))?;
    }
    Ok(())
}

// The tasks that reach a task are these.
fn is_upstream<R: TaskRows>(
    rt: &impl Abort,
    alloc: Global,
    rows: &R,
    no: u32,
    wanted: &[TaskNo],
) -> Result<(), Fail> {
    assert!(rt; no < rows.count());
    assert_eq!(rt; upstream(alloc, rows, TaskNo(no))?.as_slice(), wanted);
    Ok(())
}

// Whether a task reaches another one.
fn goes(
    rt: &impl Abort,
    alloc: Global,
    rows: &impl TaskRows,
    from: u32,
    to: u32,
) -> Result<bool, OutOfMemory> {
    assert!(rt; from < rows.count() && to < rows.count());
    reaches(alloc, rows, TaskNo(from), TaskNo(to))
}

// The heights of rows without a cycle are these.
fn heights_are<R: TaskRows>(
    rt: &impl Abort,
    alloc: Global,
    rows: &R,
    wanted: &[u32],
) -> Result<(), Fail> {
    let acyclic = is_acyclic(alloc, rows)?;
    assert!(rt; acyclic);
    assert_eq!(rt; heights(alloc, rows)?.as_slice(), wanted);
    Ok(())
}

// The greatest height of rows without a cycle, which their first one has, is this.
fn first_height_is<R: TaskRows>(
    rt: &impl Abort,
    alloc: Global,
    rows: &R,
    wanted: u32,
) -> Result<(), Fail> {
    let acyclic = is_acyclic(alloc, rows)?;
    assert!(rt; acyclic);
    assert_eq!(rt; heights(alloc, rows)?.first().copied(), Some(wanted));
    Ok(())
}

// Of three in a row, the lowest of the first two above the first is the second, and none is above the last.
fn lowest_are<R: TaskRows>(rt: &impl Abort, alloc: Global, rows: &R) -> Result<(), Fail> {
    assert_eq!(rt; rows.count(), 3);
    let acyclic = is_acyclic(alloc, rows)?;
    assert!(rt; acyclic);
    let one = lowest(alloc, rows, &[TaskNo(0), TaskNo(1)], TaskNo(0))?;
    assert_eq!(rt; one, Some(TaskNo(1)));
    let none = lowest(alloc, rows, &[TaskNo(0)], TaskNo(2))?;
    assert_eq!(rt; none, None);
    Ok(())
}

fn three_in_a_row<R: TaskRows>(rt: &impl Abort, alloc: Global, rows: &R) -> Result<(), Fail> {
    assert_eq!(rt; rows.count(), 3);
    assert_eq!(rt; rows.callers(TaskNo(1))?.as_slice(), [TaskNo(0)].as_slice());
    is_upstream(rt, alloc, rows, 2, &[TaskNo(0), TaskNo(1)])?;
    for (from, to, wanted) in [(0, 2, true), (0, 0, true), (2, 0, false), (1, 0, false)] {
        assert_eq!(rt; goes(rt, alloc, rows, from, to)?, wanted);
    }
    heights_are(rt, alloc, rows, &[2, 1, 0])?;
    lowest_are(rt, alloc, rows)
}

// A chain of three, of rows that were empty.
fn chain_of_three<R: TaskRows>(rt: &impl Abort, alloc: Global, rows: &mut R) -> Result<(), Fail> {
    chain(alloc, rows, 3)?;
    three_in_a_row(rt, alloc, rows)
}

#[test]
fn a_chain_of_three_is_seen_alike_in_both_rows(rt: HostRuntime) -> Result<(), Fail> {
    let alloc = rt.alloc();
    chain_of_three(&rt, alloc, &mut PlainRows::new(alloc))?;
    chain_of_three(&rt, alloc, &mut IndexedRows::new(alloc))
}

// A chain of three whose last one requires the first.
fn ring(rt: &impl Abort, alloc: Global, rows: &mut IndexedRows) -> Result<(), Fail> {
    chain(alloc, rows, 3)?;
    calls(alloc, rows, 2, 0, 1)?;
    assert!(rt; !is_acyclic(alloc, &*rows)?);
    is_upstream(rt, alloc, &*rows, 2, &[TaskNo(0), TaskNo(1)])?;
    assert!(rt; goes(rt, alloc, &*rows, 2, 1)?);
    Ok(())
}

#[test]
fn a_cycle_is_seen(rt: HostRuntime) -> Result<(), Fail> {
    let alloc = rt.alloc();
    ring(&rt, alloc, &mut IndexedRows::new(alloc))
}

fn long_chain(rt: &impl Abort, alloc: Global, rows: &mut UnionRows) -> Result<(), Fail> {
    chain(alloc, rows, MAX_TASKS)?;
    first_height_is(rt, alloc, &*rows, 49_999)?;
    assert_eq!(rt; rows.count(), 50_000);
    assert_eq!(rt; upstream(alloc, &*rows, TaskNo(49_999))?.len(), 49_999);
    Ok(())
}

fn wide_fan(rt: &impl Abort, alloc: Global, rows: &mut IndexedRows) -> Result<(), Fail> {
    grow(rows, MAX_TASKS)?;
    calls(alloc, rows, 0, 1, MAX_TASKS)?;
    first_height_is(rt, alloc, &*rows, 1)?;
    assert_eq!(rt; rows.count(), 50_000);
    assert!(rt; goes(rt, alloc, &*rows, 0, 49_999)?);
    Ok(())
}

#[test]
fn a_long_chain_and_a_wide_fan_are_walked(rt: HostRuntime) -> Result<(), Fail> {
    let alloc = rt.alloc();
    long_chain(&rt, alloc, &mut UnionRows::new(alloc))?;
    wide_fan(&rt, alloc, &mut IndexedRows::new(alloc))
}
