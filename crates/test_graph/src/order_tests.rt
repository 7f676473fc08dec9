//! Three tasks, a cycle, chains, and tasks that come later.

use crate::rows::grow;
use pie_graph::{Edges, PlainRows, TaskNo, TaskRows};
use pie_order::Order;
use std::alloc::Global;
use std::process::Abort;
use std::test::Fail;

// The order gets a third task.
fn one_more(rt: &impl Abort, order: &mut Order) -> Result<(), Fail> {
    assert!(rt; order.places().len() < 3);
    order.grow()?;
    Ok(())
}

// Two tasks get a third.
fn numbers_stand(rt: &impl Abort, order: &mut Order) -> Result<(), Fail> {
    assert_eq!(rt; order.places(), [0, 1].as_slice());
    one_more(rt, order)?;
    assert_eq!(rt; order.places(), [0, 1, 2].as_slice());
    assert!(rt; order.before(TaskNo(0), TaskNo(2)));
    assert!(rt; !order.before(TaskNo(2), TaskNo(2)));
    Ok(())
}

#[test]
fn numbers_stand_in_their_order_at_first(rt: HostRuntime) -> Result<(), Fail> {
    numbers_stand(&rt, &mut Order::new(rt.alloc(), 2)?)
}

// Rows of so many tasks without edges.
fn tasks(alloc: Global, count: u32) -> Result<PlainRows, Fail> {
    let mut rows = PlainRows::new(alloc);
    grow(&mut rows, count)?;
    Ok(rows)
}

// A task without edges requires another one.
fn require(
    rt: &impl Abort,
    alloc: Global,
    rows: &mut PlainRows,
    from: u32,
    to: u32,
) -> Result<(), Fail> {
    assert!(rt; from < rows.count() && to < rows.count());
    let mut edges = Edges::new(alloc);
    edges.needs.push(TaskNo(to))?;
    rows.set_edges(TaskNo(from), edges)?;
    Ok(())
}

// An edge goes into the order, and then into the rows. The cycle comes back that it would close.
fn insert(
    rt: &impl Abort,
    alloc: Global,
    order: &mut Order,
    rows: &mut PlainRows,
    from: u32,
    to: u32,
) -> Result<Option<Vec<TaskNo>>, Fail> {
    assert!(rt; order.agrees(&*rows));
    assert!(rt; from < rows.count() && to < rows.count());
    let cycle = order.insert(alloc, &*rows, TaskNo(from), TaskNo(to))?;
    if cycle.is_none() {
        require(rt, alloc, rows, from, to)?;
    }
    Ok(cycle)
}

// An edge goes in, unless it would close a cycle.
fn goes_in(
    rt: &impl Abort,
    alloc: Global,
    order: &mut Order,
    rows: &mut PlainRows,
    from: u32,
    to: u32,
) -> Result<bool, Fail> {
    Ok(insert(rt, alloc, order, rows, from, to)?.is_none())
}

fn stands_before(order: &Order, a: u32, b: u32) -> bool {
    let many = order.places().len();
    (a as usize) < many && (b as usize) < many && order.before(TaskNo(a), TaskNo(b))
}

fn is_cycle(cycle: &Option<Vec<TaskNo>>, wanted: &[TaskNo]) -> bool {
    matches!(cycle, Some(tasks) if tasks.as_slice() == wanted)
}

// A ring of three tasks.
fn ring(
    rt: &impl Abort,
    alloc: Global,
    order: &mut Order,
    rows: &mut PlainRows,
) -> Result<(), Fail> {
    assert!(rt; goes_in(rt, alloc, order, rows, 0, 1)?);
    assert!(rt; goes_in(rt, alloc, order, rows, 1, 2)?);
    assert!(rt; stands_before(&*order, 2, 1) && stands_before(&*order, 1, 0));
    let cycle = insert(rt, alloc, order, rows, 2, 0)?;
    assert!(rt; is_cycle(&cycle, &[TaskNo(0), TaskNo(1), TaskNo(2)]));
    Ok(())
}

#[test]
fn the_last_edge_of_a_ring_is_told_as_a_cycle(rt: HostRuntime) -> Result<(), Fail> {
    let alloc = rt.alloc();
    let mut order = Order::new(alloc, 3)?;
    ring(&rt, alloc, &mut order, &mut tasks(alloc, 3)?)
}

// A chain of six tasks, whose edges go in from either end.
fn chain(
    rt: &impl Abort,
    alloc: Global,
    order: &mut Order,
    rows: &mut PlainRows,
    from_the_end: bool,
) -> Result<(), Fail> {
    for k in 0..5 {
        let caller = if from_the_end { 4 - k } else { k };
        assert!(rt; goes_in(rt, alloc, order, rows, caller, caller + 1)?);
    }
    assert!(rt; order.agrees(&*rows));
    assert!(rt; !goes_in(rt, alloc, order, rows, 5, 0)?);
    Ok(())
}

#[test]
fn a_chain_is_kept_from_either_end(rt: HostRuntime) -> Result<(), Fail> {
    let alloc = rt.alloc();
    for from_the_end in [false, true] {
        let mut order = Order::new(alloc, 6)?;
        chain(&rt, alloc, &mut order, &mut tasks(alloc, 6)?, from_the_end)?;
    }
    Ok(())
}

// Both get one more task, the third.
fn grow_both(rt: &impl Abort, order: &mut Order, rows: &mut PlainRows) -> Result<(), Fail> {
    assert!(rt; rows.count() < 3);
    one_more(rt, order)?;
    rows.add()?;
    Ok(())
}

// A third task comes after an edge between two.
fn later(
    rt: &impl Abort,
    alloc: Global,
    order: &mut Order,
    rows: &mut PlainRows,
) -> Result<(), Fail> {
    assert!(rt; goes_in(rt, alloc, order, rows, 0, 1)?);
    grow_both(rt, order, rows)?;
    assert!(rt; matches!(order.places().get(2), Some(place) if *place == 2));
    assert!(rt; goes_in(rt, alloc, order, rows, 2, 0)?);
    assert!(rt; !goes_in(rt, alloc, order, rows, 1, 2)?);
    assert!(rt; order.agrees(&*rows));
    Ok(())
}

#[test]
fn a_task_that_comes_later_is_let_in(rt: HostRuntime) -> Result<(), Fail> {
    let alloc = rt.alloc();
    let mut order = Order::new(alloc, 2)?;
    later(&rt, alloc, &mut order, &mut tasks(alloc, 2)?)
}
