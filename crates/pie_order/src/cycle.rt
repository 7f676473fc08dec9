//! The cycle that a new edge would close.
ghost use Rattle.std.specs.Prelude.{◌≡◌, ℕ, ◌<◌, ◌≤◌, ◌↔◌, ◌∷◌, [], ◌++◌, IsTrue, length, take, drop, slice_index, IfOk, MatchOption};
ghost use Rattle.std.specs.List.{Contains};
ghost use Rattle.pie_graph.specs.Numbers.{numbers, IsMarked};
ghost use Rattle.pie_graph.specs.Rows.{Calls};
ghost use Rattle.pie_reach.specs.inner.Reaches.{Reaches};
ghost use Rattle.pie_reach.specs.inner.Walks.{IsClosure};
ghost use Rattle.pie_order.specs.Places.{PlacesAgree};
ghost use Rattle.pie_order.specs.Cycles.{WouldCall, IsCycle, IsLeastAt, IsTrail};

use crate::within::place_in;
use pie_base::OutOfMemory;
use pie_graph::{TaskNo, TaskRows};
use pie_reach::{Up, closure};
use std::alloc::Global;

/// The cycle that an edge would close, the least task first.
pub(crate) fn cycle_of<R: TaskRows>(
    alloc: Global,
    rows: &R,
    places: &[u32],
    from: TaskNo,
    to: TaskNo,
) -> Result<Vec<TaskNo>, OutOfMemory>
    requires agrees { PlacesAgree (R.rows rows.now) places.now }
    requires from { from.0 < length (R.rows rows.now) }
    requires to { to.0 < length (R.rows rows.now) }
    requires reaches { Reaches (R.rows rows.now) to.0 from.0 }
    ensures { IfOk result (λ cycle. IsCycle (WouldCall (R.rows rows.now) from.0 to.0) (numbers cycle.items)) }
{
    let _count = rows.count();
    let marks = closure(alloc, &Up(rows), &[from])?;
    let trail = trail(alloc, rows, places, &marks, from, to)?;
    let least = place_of_least(&trail);
    let cycle = turned(alloc, &trail, least)?;
    Ok(cycle)
}

// The way from a task to the end, by marked tasks. Each marked task reaches the end, and each step goes to an
// earlier place.
fn trail<R: TaskRows>(
    alloc: Global,
    rows: &R,
    places: &[u32],
    marks: &[bool],
    end: TaskNo,
    start: TaskNo,
) -> Result<Vec<TaskNo>, OutOfMemory>
    requires agrees { PlacesAgree (R.rows rows.now) places.now }
    requires start { start.0 < length (R.rows rows.now) }
    requires marks { IsClosure (length (R.rows rows.now)) (λ a b. Calls (R.rows rows.now) b a) (end.0 ∷ []) marks.now }
    requires marked { IsMarked marks.now start.0 }
    ensures { IfOk result (λ trail. IsTrail (R.rows rows.now) start.0 end.0 (numbers trail.items)) }
{
    let mut trail = Vec::new(alloc);
    let mut at = start;
    let turns = place_in(places, start) as usize + 1;
    for _ in 0..turns {
        trail.push(at)?;
        if at == end {
            return Ok(trail);
        }
        match first_marked(rows.callees(at), marks) {
            Some(next) => at = next,
            None => return Ok(trail),
        }
    }
    Ok(trail)
}

// The first of some tasks that has a mark.
fn first_marked(tasks: &[TaskNo], marks: &[bool]) -> Option<TaskNo>
    ensures { MatchOption result ((n : ℕ) → Contains (numbers tasks.now) n → IsMarked marks.now n → ⊥)
        (λ task. Contains (numbers tasks.now) task.0 × IsMarked marks.now task.0) }
{
    for task in tasks {
        if has_mark(marks, *task) {
            return Some(*task);
        }
    }
    None
}

fn has_mark(marks: &[bool], task: TaskNo) -> bool
    ensures { IsTrue result ↔ IsMarked marks.now task.0 }
{
    match marks.get(task.0 as usize) {
        Some(mark) => *mark,
        None => false,
    }
}

// The same tasks from a place on, and then those before it.
fn turned(alloc: Global, tasks: &[TaskNo], at: usize) -> Result<Vec<TaskNo>, OutOfMemory>
    requires { at < length tasks.now }
    ensures { IfOk result (λ turned. turned.items ≡ drop at tasks.now ++ take at tasks.now) }
{
    let mut turned = Vec::from_slice(alloc, &tasks[at..])?;
    turned.extend_from_slice(&tasks[..at])?;
    Ok(turned)
}

// Where the least of some tasks stands.
fn place_of_least(tasks: &[TaskNo]) -> usize
    requires { 0 < length tasks.now }
    ensures within { result < length tasks.now }
    ensures least { IsLeastAt (numbers tasks.now) result }
{
    let mut best = 0;
    for i in 0..tasks.len() {
        best = lesser(tasks, best, i);
    }
    best
}

// Where the lesser of two tasks stands.
fn lesser(tasks: &[TaskNo], a: usize, b: usize) -> usize
    requires a { a < length tasks.now }
    requires b { b < length tasks.now }
    ensures within { result < length tasks.now }
    ensures first { slice_index (numbers tasks.now) result ≤ slice_index (numbers tasks.now) a }
    ensures second { slice_index (numbers tasks.now) result ≤ slice_index (numbers tasks.now) b }
{
    let first = tasks[a];
    let second = tasks[b];
    if second.0 < first.0 { b } else { a }
}
