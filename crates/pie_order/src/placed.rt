//! Places that leave room before the first task and behind the last one.
ghost use Rattle.std.specs.Prelude.{◌≡◌, ◌+◌, ◌<◌, ◌≤◌, ◌^◌, ◌++◌, ◌∷◌, [], length, OnOk, OnErr};
ghost use Rattle.pie_graph.specs.Numbers.{numbers, AllBelow};
ghost use Rattle.pie_order.specs.Runs.{SameOrder, GoFirst, GoLast};
ghost use Rattle.pie_order.specs.Standing.{IsStanding, HasRoom};

use crate::placing::{place_run, sort_by_place, tasks_between};
use pie_base::{MAX_TASKS, OutOfMemory};
use pie_graph::TaskNo;
use std::alloc::Global;

// The place in the middle of all.
const MIDDLE: u32 = 1 << 31;

/// The places of tasks. The tasks below `settled` stand from `low` up to before `high`. The others, which came later,
/// stand before them, each at the place of its own number.
#[derive(Drop)]
pub(crate) struct Placed {
    pub(crate) places: Vec<u32>,
    pub(crate) settled: u32,
    pub(crate) low: u32,
    pub(crate) high: u32,
}

impl Placed {
    /// No tasks.
    pub(crate) fn new(alloc: Global) -> Placed
        ensures standing { IsStanding result }
        ensures none { result.places.items ≡ [] }
    {
        Placed {
            places: Vec::new(alloc),
            settled: 0,
            low: MIDDLE,
            high: MIDDLE,
        }
    }

    /// The next number comes, at the place of its own.
    pub(crate) fn grow(&mut self) -> Result<(), OutOfMemory>
        requires standing { IsStanding self.old }
        requires few { length self.old.places.items < MAX_TASKS }
        ensures standing { IsStanding self.new }
        ensures grown { OnOk result (self.new.places.items ≡ self.old.places.items ++ length self.old.places.items ∷ []) }
        ensures unchanged { OnErr result (self.new.places.items ≡ self.old.places.items) }
    {
        let next = self.places.len() as u32;
        self.places.push(next)?;
        Ok(())
    }

    // Gives all tasks places in the middle, in the order in which they stand.
    fn spread(&mut self, alloc: Global) -> Result<(), OutOfMemory>
        requires standing { IsStanding self.old }
        ensures standing { IsStanding self.new }
        ensures order { OnOk result (SameOrder self.old.places.items self.new.places.items) }
        ensures room { OnOk result (HasRoom self.new) }
        ensures unchanged { OnErr result (self.new.places.items ≡ self.old.places.items) }
    {
        let count = self.places.len() as u32;
        let mut tasks = tasks_between(alloc, 0, count)?;
        sort_by_place(&mut tasks, self.places.as_slice());
        place_run(&mut self.places, &tasks, MIDDLE);
        self.settled = count;
        self.low = MIDDLE;
        self.high = MIDDLE + count;
        Ok(())
    }

    // Gives the tasks that came later places behind room at the front, in the order in which they stand.
    fn settle(&mut self, alloc: Global) -> Result<(), OutOfMemory>
        requires standing { IsStanding self.old }
        requires low { 150000 ≤ self.old.low }
        requires high { self.old.high + 50000 < 2 ^ 32 }
        ensures standing { IsStanding self.new }
        ensures order { OnOk result (SameOrder self.old.places.items self.new.places.items) }
        ensures room { OnOk result (HasRoom self.new) }
        ensures unchanged { OnErr result (self.new.places.items ≡ self.old.places.items) }
    {
        let count = self.places.len() as u32;
        let tasks = tasks_between(alloc, self.settled, count)?;
        self.low -= count - self.settled;
        place_run(&mut self.places, &tasks, self.low);
        self.settled = count;
        Ok(())
    }

    // Makes room for all tasks once more at both ends.
    fn make_room(&mut self, alloc: Global) -> Result<(), OutOfMemory>
        requires standing { IsStanding self.old }
        ensures standing { IsStanding self.new }
        ensures order { OnOk result (SameOrder self.old.places.items self.new.places.items) }
        ensures room { OnOk result (HasRoom self.new) }
        ensures unchanged { OnErr result (self.new.places.items ≡ self.old.places.items) }
    {
        if self.low < 3 * MAX_TASKS || self.high > u32::MAX - MAX_TASKS {
            self.spread(alloc)
        } else {
            self.settle(alloc)
        }
    }

    /// Puts tasks before all others. Each kind keeps its order.
    pub(crate) fn sink(&mut self, alloc: Global, mut tasks: Vec<TaskNo>) -> Result<(), OutOfMemory>
        requires standing { IsStanding self.old }
        requires below { AllBelow (length self.old.places.items) (numbers tasks.items) }
        requires few { length tasks.items ≤ 50000 }
        ensures standing { IsStanding self.new }
        ensures first { OnOk result (GoFirst (numbers tasks.items) self.old.places.items self.new.places.items) }
        ensures unchanged { OnErr result (self.new.places.items ≡ self.old.places.items) }
    {
        self.make_room(alloc)?;
        sort_by_place(&mut tasks, self.places.as_slice());
        self.low -= tasks.len() as u32;
        place_run(&mut self.places, &tasks, self.low);
        Ok(())
    }

    /// Puts tasks behind all others. Each kind keeps its order.
    pub(crate) fn lift(&mut self, alloc: Global, mut tasks: Vec<TaskNo>) -> Result<(), OutOfMemory>
        requires standing { IsStanding self.old }
        requires below { AllBelow (length self.old.places.items) (numbers tasks.items) }
        requires few { length tasks.items ≤ 50000 }
        ensures standing { IsStanding self.new }
        ensures last { OnOk result (GoLast (numbers tasks.items) self.old.places.items self.new.places.items) }
        ensures unchanged { OnErr result (self.new.places.items ≡ self.old.places.items) }
    {
        self.make_room(alloc)?;
        sort_by_place(&mut tasks, self.places.as_slice());
        place_run(&mut self.places, &tasks, self.high);
        self.high += tasks.len() as u32;
        Ok(())
    }
}
