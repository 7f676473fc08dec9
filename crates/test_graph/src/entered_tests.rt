//! Rows of entered tasks beside plain ones: they answer alike, and what is seen is the same.
ghost use Rattle.std.specs.Prelude.{IfOk};
ghost use Rattle.pie_graph.specs.Numbers.{numbers, AllBelow};

use crate::drawn::{Draws, path, paths};
use crate::rows::{compare, grow, push_below};
use pie_base::OutOfMemory;
use pie_graph::{Edges, PlainRows, TaskNo, TaskRows};
use pie_view::{EnteredRows, view};
use std::alloc::Global;
use std::process::Abort;
use std::test::Fail;

// Of the tasks behind one the next, or one near it, or both.
fn behind(alloc: Global, draws: &mut Draws, no: u32, count: u32) -> Result<Vec<TaskNo>, OutOfMemory>
    ensures { IfOk result (λ needs. AllBelow count (numbers needs.items)) }
{
    let mut needs = Vec::new(alloc);
    push_below(&mut needs, no.saturating_add(1 + draws.below(4)), count)?;
    push_below(&mut needs, no.saturating_add(1 + draws.below(2)), count)?;
    Ok(needs)
}

// A task ends, or ends again with other edges.
fn end<R: TaskRows>(alloc: Global, rows: &mut R, no: u32, mut draws: Draws) -> Result<(), Fail> {
    let count = rows.count();
    let mut edges = Edges::new(alloc);
    edges.needs = behind(alloc, &mut draws, no, count)?;
    edges.writes = paths(alloc, &mut draws)?;
    if no < count {
        rows.set_edges(TaskNo(no), edges)?;
    }
    Ok(())
}

// What a task sees at a path that requires two of the tasks is the same in both.
fn same_seen(
    rt: &impl Abort,
    alloc: Global,
    plain: &PlainRows,
    entered: &EnteredRows,
    draws: &mut Draws,
) -> Result<(), Fail> {
    let count = plain.count();
    assert_eq!(rt; count, entered.count());
    if count == 0 {
        return Ok(());
    }
    let from = draws.below(count);
    let required = behind(alloc, draws, from, count)?;
    for which in 0..4 {
        let path = path(alloc, which)?;
        let seen = view(alloc, plain, TaskNo(0), &[], &required, &path)?;
        assert_eq!(rt;
            entered.seen(alloc, &required, &path)?,
            seen,
            "at path {which}"
        );
    }
    Ok(())
}

// A task of both ends, and then both are compared.
fn step(
    rt: &impl Abort,
    alloc: Global,
    plain: &mut PlainRows,
    entered: &mut EnteredRows,
    no: u32,
    draws: &mut Draws,
) -> Result<(), Fail> {
    draws.below(2);
    end(alloc, plain, no, *draws)?;
    end(alloc, entered, no, *draws)?;
    compare(rt, alloc, plain, entered)?;
    same_seen(rt, alloc, plain, entered, draws)
}

#[test]
fn what_is_seen_needs_no_walk(rt: HostRuntime) -> Result<(), Fail> {
    let alloc = rt.alloc();
    let mut plain = PlainRows::new(alloc);
    let mut entered = EnteredRows::new(alloc);
    grow(&mut plain, 24)?;
    grow(&mut entered, 24)?;
    let mut draws = Draws { state: 11 };
    for i in 0..24u32 {
        step(&rt, alloc, &mut plain, &mut entered, 23 - i, &mut draws)?;
    }
    for _ in 0..12 {
        let no = draws.below(24);
        step(&rt, alloc, &mut plain, &mut entered, no, &mut draws)?;
    }
    Ok(())
}
