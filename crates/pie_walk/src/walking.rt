//! The walk goes on, up to the next thing that it can't do alone.
ghost use Rattle.std.specs.Prelude.{◌≡◌, ◌<◌, length, slice_index, IfOk, OnOk};
ghost use Rattle.pie_walk.specs.declared.stack.Entry.TheVariants.{Visit, Waits};
ghost use Rattle.pie_walk.specs.Marks.{mark_of};
ghost use Rattle.pie_walk.specs.States.{OnTop, visiting, passed, taken, settled};
ghost use Rattle.pie_walk.specs.Standing.{HoldsIn, Stands};
ghost use Rattle.pie_walk.specs.Turns.{Turns};
ghost use Rattle.pie_walk.specs.inner.Steps.{StepsTo, IsReady, IsUnsettledAt};

use crate::scan::next_unsettled;
use crate::stack::Entry;
use crate::{Mark, Walk};
use pie_base::OutOfMemory;
use pie_graph::{TaskNo, TaskRows};

/// Why a walk stops.
#[derive(Clone, Copy, Debug, PartialEq, Eq)]
pub enum Turn {
    /// A scheduled task is taken: it stands on top, and all that it requires is settled.
    Takes(TaskNo),
    /// The running task on top can go on: all that it requires is settled.
    Answers(TaskNo),
    /// The stack is empty.
    Idle,
}

impl Walk {
    /// Goes on until a scheduled task is taken, a running task can go on, or nothing is left.
    pub fn walk(&mut self) -> Result<Turn, OutOfMemory>
        requires { Stands self.old }
        ensures turn { IfOk result (Turns self.old self.new) }
        ensures stands { OnOk result (Stands self.new) }
    {
        loop {
            let step = self.step()?;
            match step {
                Some(turn) => return Ok(turn),
                None => {}
            }
        }
    }

    // One step; none where the walk goes on.
    fn step(&mut self) -> Result<Option<Turn>, OutOfMemory>
        requires { HoldsIn self.old }
        ensures { IfOk result (StepsTo self.old self.new) }
    {
        match self.stack.top() {
            None => Ok(Some(Turn::Idle)),
            Some(Entry::Waits(no)) => Ok(Some(Turn::Answers(no))),
            Some(Entry::Visit(no, next)) => self.visit_on(no, next),
        }
    }

    // The visit on top goes on.
    fn visit_on(&mut self, no: TaskNo, next: usize) -> Result<Option<Turn>, OutOfMemory>
        requires holds { HoldsIn self.old }
        requires top { OnTop self.old (Visit no next) }
        ensures { IfOk result (StepsTo self.old self.new) }
    {
        match next_unsettled(self.rows.callees(no), self.marks.as_slice(), next) {
            Some(at) => {
                self.descend(no, at)?;
                Ok(None)
            }
            None => self.leave(no),
        }
    }

    // From the visit on top down to a required task that wasn't met.
    fn descend(&mut self, no: TaskNo, at: usize) -> Result<(), OutOfMemory>
        requires holds { HoldsIn self.old }
        requires unsettled { IsUnsettledAt self.old no at }
        ensures { OnOk result (StepsTo self.old self.new None) }
    {
        let callee = self.rows.callees(no)[at];
        self.pass(no, at)?;
        self.meet(callee)?;
        Ok(())
    }

    // The visit on top ends: the task is taken where it is scheduled, else it is settled.
    fn leave(&mut self, no: TaskNo) -> Result<Option<Turn>, OutOfMemory>
        requires holds { HoldsIn self.old }
        requires ready { IsReady self.old no }
        ensures { IfOk result (StepsTo self.old self.new) }
    {
        if self.is_scheduled(no) {
            self.take(no)?;
            Ok(Some(Turn::Takes(no)))
        } else {
            self.settle(no);
            Ok(None)
        }
    }

    // The visit on top has come to a place.
    fn pass(&mut self, no: TaskNo, at: usize) -> Result<(), OutOfMemory>
        ensures { OnOk result (self.new ≡ passed self.old no at) }
    {
        self.stack.drop_top();
        self.stack.push(Entry::Visit(no, at))?;
        Ok(())
    }

    // A task that wasn't met is visited.
    pub(crate) fn meet(&mut self, no: TaskNo) -> Result<(), OutOfMemory>
        requires { no.0 < length self.old.marks }
        ensures { OnOk result (self.new ≡ visiting self.old no) }
    {
        self.marks[no.0 as usize] = Mark::Visited;
        self.stack.push(Entry::Visit(no, 0))?;
        Ok(())
    }

    // The task on top is taken.
    fn take(&mut self, no: TaskNo) -> Result<(), OutOfMemory>
        requires marks { no.0 < length self.old.marks }
        requires scheduled { no.0 < length self.old.scheduled }
        ensures { OnOk result (self.new ≡ taken self.old no) }
    {
        self.scheduled[no.0 as usize] = false;
        self.marks[no.0 as usize] = Mark::Runs;
        self.stack.drop_top();
        self.stack.push(Entry::Waits(no))?;
        Ok(())
    }

    // The task on top is settled.
    pub(crate) fn settle(&mut self, no: TaskNo)
        requires { no.0 < length self.old.marks }
        ensures { self.new ≡ settled self.old no.0 }
    {
        self.marks[no.0 as usize] = Mark::Settled;
        self.stack.drop_top();
    }
}
