//! Plain and indexed rows side by side.
ghost use Rattle.std.specs.Prelude.{◌<◌, length, IfOk};
ghost use Rattle.pie_graph.specs.Numbers.{numbers, AllBelow};

use crate::drawn::{Draws, paths};
use crate::rows::{compare, push_below};
use pie_base::OutOfMemory;
use pie_graph::{Edges, IndexedRows, PlainRows, TaskNo, TaskRows};
use std::alloc::Global;
use std::process::Abort;
use std::test::Fail;

// Two tasks.
fn needs(alloc: Global, draws: &mut Draws, count: u32) -> Result<Vec<TaskNo>, OutOfMemory>
    requires { 0 < count }
    ensures { IfOk result (λ needs. AllBelow count (numbers needs.items)) }
{
    let mut needs = Vec::new(alloc);
    push_below(&mut needs, draws.below(count), count)?;
    push_below(&mut needs, draws.below(count), count)?;
    Ok(needs)
}

fn set<R: TaskRows>(rows: &mut R, alloc: Global, mut draws: Draws) -> Result<(), Fail> {
    let count = rows.count();
    if count == 0 {
        return Ok(());
    }
    let no = TaskNo(draws.below(count));
    let needs = needs(alloc, &mut draws, count)?;
    let reads = paths(alloc, &mut draws)?;
    let lists = paths(alloc, &mut draws)?;
    let writes = paths(alloc, &mut draws)?;
    let edges = Edges {
        needs,
        reads,
        lists,
        writes,
    };
    rows.set_edges(no, edges)?;
    Ok(())
}

// A row is added to both, or one of both gets other edges.
fn step(
    rt: &impl Abort,
    alloc: Global,
    plain: &mut PlainRows,
    indexed: &mut IndexedRows,
    draws: &mut Draws,
) -> Result<(), Fail> {
    if draws.below(8) == 0 && plain.count() < 1000 && indexed.count() < 1000 {
        assert_eq!(rt; plain.add()?, indexed.add()?);
    } else {
        set(plain, alloc, *draws)?;
        set(indexed, alloc, *draws)?;
    }
    Ok(())
}

#[test]
fn both_rows_give_the_same_answers(rt: HostRuntime) -> Result<(), Fail> {
    let alloc = rt.alloc();
    let mut plain = PlainRows::new(alloc);
    let mut indexed = IndexedRows::new(alloc);
    let mut draws = Draws { state: 7 };
    for _ in 0..200 {
        step(&rt, alloc, &mut plain, &mut indexed, &mut draws)?;
        compare(&rt, alloc, &plain, &indexed)?;
    }
    Ok(())
}
