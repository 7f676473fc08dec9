//! A search from both ends of a new edge at once, which ends as soon as one of them does.
ghost use Rattle.std.specs.Prelude.{◌≡◌, ◌<◌, ◌≤◌, true, false, length, IfOk, OnOk};
ghost use Rattle.pie_order.specs.Sides.{Bounded, GoesOn};
ghost use Rattle.pie_order.specs.Founds.{IsFound};

use crate::side::Side;
use pie_base::OutOfMemory;
use pie_graph::{TaskNo, TaskRows};
use pie_reach::{Down, Up, Ways};
use std::alloc::Global;

/// What a search from both ends of a new edge finds.
#[derive(Drop)]
pub(crate) enum Found {
    /// The required task and all that it reaches, the other end not among them.
    Below(Vec<TaskNo>),
    /// The task that requires it and all that reach this one, the other end not among them.
    Above(Vec<TaskNo>),
    /// The required task reaches the other end.
    Cycle,
}

/// The two sides of a search.
#[derive(Drop)]
pub(crate) struct Search {
    down: Side,
    up: Side,
}

impl Search {
    /// A search of nothing.
    pub(crate) fn new(alloc: Global) -> Search {
        Search {
            down: Side::new(alloc),
            up: Side::new(alloc),
        }
    }

    /// One of the two sides of a new edge: the one that is complete first when both grow by turns, task by task.
    pub(crate) fn run<R: TaskRows>(
        &mut self,
        alloc: Global,
        rows: &R,
        from: TaskNo,
        to: TaskNo,
    ) -> Result<Found, OutOfMemory>
        requires from { from.0 < length (R.rows rows.now) }
        requires to { to.0 < length (R.rows rows.now) }
        ensures { IfOk result (λ found. IsFound (R.rows rows.now) from.0 to.0 found) }
    {
        let count = rows.count();
        self.down.start(count, to)?;
        self.up.start(count, from)?;
        if race(alloc, &mut self.down, &Down(rows), &mut self.up, &Up(rows))? {
            if self.down.has(from) {
                return Ok(Found::Cycle);
            }
            return Ok(Found::Below(Vec::from_slice(alloc, self.down.tasks())?));
        }
        if self.up.has(to) {
            return Ok(Found::Cycle);
        }
        Ok(Found::Above(Vec::from_slice(alloc, self.up.tasks())?))
    }
}

// Goes on by turns from two ends until one side is complete. Whether it is the first one.
fn race<V: Ways, W: Ways>(
    alloc: Global,
    one: &mut Side,
    ways: &V,
    other: &mut Side,
    other_ways: &W,
) -> Result<bool, OutOfMemory>
    requires one { Bounded (V.size ways.now) one.old }
    requires other { Bounded (W.size other_ways.now) other.old }
    ensures one { OnOk result (GoesOn (V.size ways.now) (V.goes ways.now) one.old one.new) }
    ensures other { OnOk result (GoesOn (W.size other_ways.now) (W.goes other_ways.now) other.old other.new) }
    ensures first { IfOk result (λ first. first ≡ true → length one.new.met ≤ one.new.next) }
    ensures second { IfOk result (λ first. first ≡ false → length other.new.met ≤ other.new.next) }
{
    while one.step(alloc, ways)? {
        if !other.step(alloc, other_ways)? {
            return Ok(false);
        }
    }
    Ok(true)
}
