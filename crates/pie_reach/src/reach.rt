//! Which tasks reach which.
ghost use Rattle.std.specs.Prelude.{◌≡◌, ◌≢◌, ◌<◌, ◌↔◌, length, map, IfOk, IsTrue, MatchOption};
ghost use Rattle.pie_graph.specs.Numbers.{numbers, AllBelow, Exactly};
ghost use Rattle.pie_reach.specs.inner.Reaches.{Reaches, IsAcyclic, AreHeights, ReachesNone, IsLowest};
ghost use Rattle.pie_reach.specs.inner.Descents.{height_of};

use crate::descent::{State, descend};
use crate::{Down, Up, closure, least};
use pie_base::OutOfMemory;
use pie_graph::{TaskNo, TaskRows, marked};
use std::alloc::Global;

/// Whether a task requires another, directly or through others, or is it.
pub fn reaches<R: TaskRows>(
    alloc: Global,
    rows: &R,
    from: TaskNo,
    to: TaskNo,
) -> Result<bool, OutOfMemory>
    requires from { from.0 < length (R.rows rows.now) }
    requires to { to.0 < length (R.rows rows.now) }
    ensures { IfOk result (λ there. IsTrue there ↔ Reaches (R.rows rows.now) from.0 to.0) }
{
    let marks = closure(alloc, &Down(rows), &[from])?;
    let there = marks[to.0 as usize];
    Ok(there)
}

/// All tasks that reach a task, itself excepted, ascending.
pub fn upstream<R: TaskRows>(
    alloc: Global,
    rows: &R,
    no: TaskNo,
) -> Result<Vec<TaskNo>, OutOfMemory>
    requires { no.0 < length (R.rows rows.now) }
    ensures { IfOk result (λ found. Exactly (λ k. Reaches (R.rows rows.now) k no.0 × (k ≢ no.0)) (numbers found.items)) }
{
    let _count = rows.count();
    let mut marks = closure(alloc, &Up(rows), &[no])?;
    marks[no.0 as usize] = false;
    let found = marked(alloc, &marks)?;
    Ok(found)
}

/// Whether no task requires one that reaches it.
pub fn is_acyclic<R: TaskRows>(alloc: Global, rows: &R) -> Result<bool, OutOfMemory>
    ensures { IfOk result (λ acyclic. IsTrue acyclic ↔ IsAcyclic (R.rows rows.now)) }
{
    let _count = rows.count();
    let Some(states) = descend(alloc, rows)? else {
        return Ok(false);
    };
    drop(states);
    Ok(true)
}

/// The height of each task: 0 without requires, else one more than the greatest of a required task.
pub fn heights<R: TaskRows>(alloc: Global, rows: &R) -> Result<Vec<u32>, OutOfMemory>
    requires { IsAcyclic (R.rows rows.now) }
    ensures { IfOk result (λ heights. AreHeights (R.rows rows.now) heights.items) }
{
    let _count = rows.count();
    match descend(alloc, rows)? {
        Some(states) => {
            let heights = heights_in(alloc, &states)?;
            Ok(heights)
        }
        None => unreachable!(),
    }
}

fn heights_in(alloc: Global, states: &[State]) -> Result<Vec<u32>, OutOfMemory>
    ensures { IfOk result (λ heights. heights.items ≡ map height_of states.now) }
{
    Ok(states.iter().map(|state| height_in(*state)).collect(alloc)?)
}

fn height_in(state: State) -> u32
    ensures { result ≡ height_of state }
{
    match state {
        State::Done(height) => height,
        State::New => 0,
        State::Open => 0,
    }
}

/// A member that a task reaches and that reaches no other such member; none where it reaches no member.
pub fn lowest<R: TaskRows>(
    alloc: Global,
    rows: &R,
    among: &[TaskNo],
    under: TaskNo,
) -> Result<Option<TaskNo>, OutOfMemory>
    requires acyclic { IsAcyclic (R.rows rows.now) }
    requires members { AllBelow (length (R.rows rows.now)) (numbers among.now) }
    requires under { under.0 < length (R.rows rows.now) }
    ensures { IfOk result (λ found. MatchOption found (ReachesNone (R.rows rows.now) (numbers among.now) under.0)
        (λ lowest. IsLowest (R.rows rows.now) (numbers among.now) under.0 lowest.0)) }
{
    let _count = rows.count();
    let marks = closure(alloc, &Down(rows), &[under])?;
    let heights = heights(alloc, rows)?;
    let found = least(among, &marks, &heights);
    Ok(found)
}
