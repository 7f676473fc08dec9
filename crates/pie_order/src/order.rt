//! An order that is kept under insertion.
ghost use Rattle.std.specs.Prelude.{◌≡◌, ◌+◌, ◌<◌, ◌≤◌, ◌++◌, ◌∷◌, [], ◌↔◌, IsTrue, length, slice_index, IfOk, IfSome, OnOk, OnErr, MatchOption};
ghost use Rattle.pie_graph.specs.Numbers.{numbers};
ghost use Rattle.pie_reach.specs.inner.Reaches.{Reaches};
ghost use Rattle.pie_order.specs.Cycles.{IsCycle, WouldCall};
ghost use Rattle.pie_order.specs.Places.{StandsBefore, AreApart, PlacesAgree, numbers_below};

use crate::agreeing::all_agree;
use crate::cycle::cycle_of;
use crate::placed::Placed;
use crate::search::{Found, Search};
use pie_base::{MAX_TASKS, OutOfMemory};
use pie_graph::{TaskNo, TaskRows};
use std::alloc::Global;
use std::marker::Model;

/// An order of tasks. Contracts see the list of their places: at each number the place of that task.
#[derive(Drop)]
pub struct Order {
    placed: Placed,
    search: Search,
}

impl Model for Order {
    ghost use Rattle.std.specs.Prelude.{List, ℕ};

    ghost Value = { List ℕ };

    ghost use Rattle.pie_order.specs.Standing.{IsStanding};

    ghost view = { λ o. o.placed.places.items };

    ghost invariant = { λ o. IsStanding o.placed };
}

impl Order {
    /// The tasks below a count, in the order of their numbers.
    pub fn new(alloc: Global, count: u32) -> Result<Order, OutOfMemory>
        requires { count ≤ MAX_TASKS }
        ensures { IfOk result (λ order. order ≡ numbers_below count) }
    {
        let mut order = Order {
            placed: Placed::new(alloc),
            search: Search::new(alloc),
        };
        for _ in 0..count {
            order.grow()?;
        }
        Ok(order)
    }

    /// Whether a task stands before another.
    pub fn before(&self, a: TaskNo, b: TaskNo) -> bool
        requires a { a.0 < length self.now }
        requires b { b.0 < length self.now }
        ensures before { IsTrue result ↔ StandsBefore self.now a.0 b.0 }
        ensures apart { AreApart self.now }
    {
        self.placed.places[a.0 as usize] < self.placed.places[b.0 as usize]
    }

    /// The places of all tasks.
    pub fn places(&self) -> &[u32]
        ensures { result.now ≡ self.now }
    {
        self.placed.places.as_slice()
    }

    /// Whether there are as many tasks as rows, and each required task stands before those that require it.
    pub fn agrees<R: TaskRows>(&self, rows: &R) -> bool
        ensures { IsTrue result ↔ PlacesAgree (R.rows rows.now) self.now }
    {
        if self.placed.places.len() != rows.count() as usize {
            return false;
        }
        all_agree(rows, self.placed.places.as_slice())
    }

    /// Appends the next number.
    pub fn grow(&mut self) -> Result<(), OutOfMemory>
        requires { length self.old < MAX_TASKS }
        ensures grown { OnOk result (self.new ≡ self.old ++ length self.old ∷ []) }
        ensures unchanged { OnErr result (self.new ≡ self.old) }
    {
        self.placed.grow()
    }

    /// Makes a required task stand before the task that requires it, with every other edge as it is.
    /// Where the required task reaches the other, the order stays, and the cycle that the new edge would close is
    /// answered, each task once, the least first.
    /// The time grows with the smaller of two sides: what the required task reaches, and what reaches the other.
    pub fn insert<R: TaskRows>(
        &mut self,
        alloc: Global,
        rows: &R,
        from: TaskNo,
        to: TaskNo,
    ) -> Result<Option<Vec<TaskNo>>, OutOfMemory>
        requires agrees { PlacesAgree (R.rows rows.now) self.old }
        requires from { from.0 < length self.old }
        requires to { to.0 < length self.old }
        ensures inserted { IfOk result (λ found. MatchOption found (PlacesAgree (R.rows rows.now) self.new × StandsBefore self.new to.0 from.0)
            (λ cycle. (self.new ≡ self.old) × Reaches (R.rows rows.now) to.0 from.0)) }
        ensures cycle { IfOk result (λ found. IfSome found (λ cycle. IsCycle (WouldCall (R.rows rows.now) from.0 to.0) (numbers cycle.items))) }
        ensures unchanged { OnErr result (self.new ≡ self.old) }
    {
        let _count = rows.count();
        if self.before(to, from) {
            return Ok(None);
        }
        match self.search.run(alloc, rows, from, to)? {
            Found::Below(tasks) => self.placed.sink(alloc, tasks)?,
            Found::Above(tasks) => self.placed.lift(alloc, tasks)?,
            Found::Cycle => {
                let cycle = cycle_of(alloc, rows, self.placed.places.as_slice(), from, to)?;
                return Ok(Some(cycle));
            }
        }
        Ok(None)
    }
}
