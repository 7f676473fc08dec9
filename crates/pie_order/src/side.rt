//! The tasks to which one task leads, found one after another.
ghost use Rattle.std.specs.Prelude.{◌≡◌, ◌<◌, ◌≤◌, ◌-◌, [], true, false, length, OnOk, IfOk, IsTrue, ◌↔◌};
ghost use Rattle.pie_graph.specs.Numbers.{numbers, AllBelow, IsMarked};
ghost use Rattle.pie_order.specs.Sides.{begun, met_one, met_all, Bounded, GoesOn};

use crate::marks::Marks;
use pie_base::OutOfMemory;
use pie_graph::TaskNo;
use pie_reach::Ways;
use std::alloc::Global;
use std::marker::Model;

/// A search from one task. Contracts see which tasks were met, those in their order, and from how many of them it went on.
#[derive(Drop)]
pub(crate) struct Side {
    marks: Marks,
    met: Vec<TaskNo>,
    next: usize,
}

impl Model for Side {
    ghost use Rattle.pie_graph.specs.Numbers.{numbers};
    ghost use Rattle.pie_order.specs.Sides.{Searched};

    ghost Value = { Searched };

    ghost view = { λ s. record { marks = s.marks; met = numbers s.met.items; next = s.next } };
}

impl Side {
    /// A search of nothing.
    pub(crate) fn new(alloc: Global) -> Side {
        Side {
            marks: Marks::new(alloc),
            met: Vec::new(alloc),
            next: 0,
        }
    }

    // A task is met.
    fn meet(&mut self, no: TaskNo) -> Result<(), OutOfMemory>
        requires { no.0 < length self.old.marks }
        ensures { OnOk result (self.new ≡ met_one no.0 self.old) }
    {
        if !self.marks.has(no) {
            self.marks.set(no);
            self.met.push(no)?;
        }
        Ok(())
    }

    // These tasks are met.
    fn meet_all(&mut self, nos: &[TaskNo]) -> Result<(), OutOfMemory>
        requires { AllBelow (length self.old.marks) (numbers nos.now) }
        ensures { OnOk result (self.new ≡ met_all (numbers nos.now) self.old) }
    {
        for no in nos {
            self.meet(*no)?;
        }
        Ok(())
    }

    /// Begins anew at a task, of so many.
    pub(crate) fn start(&mut self, count: u32, no: TaskNo) -> Result<(), OutOfMemory>
        requires { no.0 < count }
        ensures { OnOk result (self.new ≡ begun count no.0) }
    {
        self.marks.clear(count)?;
        self.met.clear();
        self.next = 0;
        self.meet(no)?;
        Ok(())
    }

    /// Goes on from one task that was met; false where none is left.
    pub(crate) fn step<W: Ways>(&mut self, alloc: Global, ways: &W) -> Result<bool, OutOfMemory>
        requires { Bounded (W.size ways.now) self.old }
        ensures bounded { OnOk result (Bounded (W.size ways.now) self.new) }
        ensures kept { OnOk result (GoesOn (W.size ways.now) (W.goes ways.now) self.old self.new) }
        ensures over { IfOk result (λ went. went ≡ false → length self.new.met ≤ self.new.next) }
        ensures nearer { IfOk result (λ went. went ≡ true → W.size ways.now - self.new.next < W.size ways.now - self.old.next) }
    {
        if self.next >= self.met.len() {
            return Ok(false);
        }
        let found = ways.next(alloc, self.met[self.next])?;
        self.next += 1;
        self.meet_all(&found)?;
        Ok(true)
    }

    /// Whether a task was met.
    pub(crate) fn has(&self, no: TaskNo) -> bool
        requires { no.0 < length self.now.marks }
        ensures { IsTrue result ↔ IsMarked self.now.marks no.0 }
    {
        self.marks.has(no)
    }

    /// The tasks that were met.
    pub(crate) fn tasks(&self) -> &[TaskNo]
        ensures { numbers result.now ≡ self.now.met }
    {
        self.met.as_slice()
    }
}
