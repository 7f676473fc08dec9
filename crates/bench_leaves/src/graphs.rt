//! Graphs of tasks in the two shapes, and what is measured of them.
ghost use Rattle.std.specs.Prelude.{◌≡◌, ◌≤◌, ◌<◌, ◌∷◌, [], length, IfOk, OnOk};
ghost use Rattle.pie_graph.specs.Numbers.{numbers, AllBelow};
ghost use Rattle.pie_order.specs.Places.{PlacesAgree};

use crate::job::Shape;
use pie_base::{MAX_TASKS, OutOfMemory};
use pie_graph::{Edges, TaskNo, TaskRows};
use pie_order::Order;
use pie_reach::{heights, is_acyclic, live};
use pie_union::UnionRows;
use std::alloc::Global;

/// How many tasks have a height.
pub(crate) fn height_count(alloc: Global, shape: Shape, count: u32) -> Result<usize, OutOfMemory>
    requires { count ≤ MAX_TASKS }
{
    let rows = shaped(alloc, shape, count)?;
    if !is_acyclic(alloc, &rows)? {
        return Ok(0);
    }
    Ok(heights(alloc, &rows)?.len())
}

/// How many tasks the last one reaches.
pub(crate) fn live_count(alloc: Global, shape: Shape, count: u32) -> Result<usize, OutOfMemory>
    requires { count ≤ MAX_TASKS }
{
    let rows = shaped(alloc, shape, count)?;
    let tasks = rows.count();
    if tasks == 0 {
        return Ok(0);
    }
    Ok(live(alloc, &rows, &[TaskNo(tasks - 1)])?.len())
}

/// How many edges of a chain go into the order, along it or against it.
pub(crate) fn inserted_count(alloc: Global, count: u32, agrees: bool) -> Result<usize, OutOfMemory>
    requires { count ≤ MAX_TASKS }
{
    let mut rows = alone(alloc, count)?;
    let mut order = Order::new(alloc, count)?;
    if !order.agrees(&rows) {
        return Ok(0);
    }
    insert_all(alloc, &mut rows, &mut order, agrees)
}

fn insert_all(
    alloc: Global,
    rows: &mut UnionRows,
    order: &mut Order,
    agrees: bool,
) -> Result<usize, OutOfMemory>
    requires { PlacesAgree rows.old order.old }
{
    let count = rows.count();
    for i in 1..count {
        if agrees {
            insert(alloc, rows, order, i, i - 1)?;
        } else {
            insert(alloc, rows, order, i - 1, i)?;
        }
    }
    Ok(count as usize)
}

// An edge goes into the order, and then into the rows.
fn insert(
    alloc: Global,
    rows: &mut UnionRows,
    order: &mut Order,
    from: u32,
    to: u32,
) -> Result<(), OutOfMemory>
    requires agrees { PlacesAgree rows.old order.old }
    requires from { from < length rows.old }
    requires to { to < length rows.old }
    ensures agrees { OnOk result (PlacesAgree rows.new order.new) }
    ensures as_many { OnOk result (length rows.new ≡ length rows.old) }
{
    if let Some(_cycle) = order.insert(alloc, rows, TaskNo(from), TaskNo(to))? {
        return Ok(());
    }
    let edges = one_edge(alloc, to)?;
    rows.set_edges(TaskNo(from), edges)?;
    Ok(())
}

fn one_edge(alloc: Global, to: u32) -> Result<Edges, OutOfMemory>
    ensures { IfOk result (λ edges. numbers edges.needs.items ≡ to ∷ []) }
{
    let mut edges = Edges::new(alloc);
    edges.needs.push(TaskNo(to))?;
    Ok(edges)
}

// So many tasks of this shape.
fn shaped(alloc: Global, shape: Shape, count: u32) -> Result<UnionRows, OutOfMemory>
    requires { count ≤ MAX_TASKS }
{
    let mut rows = alone(alloc, count)?;
    match shape {
        Shape::Chain => chain(alloc, &mut rows)?,
        Shape::Fan => fan(alloc, &mut rows)?,
    }
    Ok(rows)
}

// So many tasks without edges.
fn alone(alloc: Global, count: u32) -> Result<UnionRows, OutOfMemory>
    requires { count ≤ MAX_TASKS }
{
    let mut rows = UnionRows::new(alloc);
    for _ in 0..count {
        rows.add()?;
    }
    Ok(rows)
}

fn chain(alloc: Global, rows: &mut UnionRows) -> Result<(), OutOfMemory> {
    for i in 1..rows.count() {
        let edges = edges_to(alloc, i - 1, i)?;
        rows.set_edges(TaskNo(i), edges)?;
    }
    Ok(())
}

fn fan(alloc: Global, rows: &mut UnionRows) -> Result<(), OutOfMemory> {
    let count = rows.count();
    if count > 0 {
        let edges = edges_to(alloc, 0, count - 1)?;
        rows.set_edges(TaskNo(count - 1), edges)?;
    }
    Ok(())
}

// Edges to the tasks from one number to before another.
fn edges_to(alloc: Global, from: u32, to: u32) -> Result<Edges, OutOfMemory>
    ensures { IfOk result (λ edges. AllBelow to (numbers edges.needs.items)) }
{
    let mut edges = Edges::new(alloc);
    for i in from..to {
        edges.needs.push(TaskNo(i))?;
    }
    Ok(edges)
}
