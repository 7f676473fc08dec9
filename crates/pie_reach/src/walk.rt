//! A walk from some numbers to all to which they lead.
ghost use Rattle.std.specs.Prelude.{◌≡◌, ℕ, ◌+◌, ◌<◌, List, [], true, false, length, IfOk, OnOk, IsTrue, ◌↔◌};
ghost use Rattle.pie_graph.specs.Numbers.{numbers, AllBelow, IsMarked};
ghost use Rattle.pie_reach.specs.inner.Walks.{meet, meet_all, Ready, Walking, IsClosure, unmarked};

use crate::Ways;
use pie_base::OutOfMemory;
use pie_graph::TaskNo;
use std::alloc::Global;
use std::marker::Model;

/// A walk that is under way: which numbers were met, and which of them wait.
#[derive(Drop)]
pub struct Walk {
    marks: Vec<bool>,
    work: Vec<TaskNo>,
}

impl Model for Walk {
    ghost use Rattle.pie_graph.specs.Numbers.{numbers};
    ghost use Rattle.pie_reach.specs.inner.Walks.{Walked};

    ghost Value = { Walked };

    ghost view = { λ w. record { marks = w.marks.items; work = numbers w.work.items } };
}

impl Walk {
    // No number of so many was met.
    fn new(alloc: Global, count: u32) -> Result<Walk, OutOfMemory>
        ensures size { IfOk result (λ w. length w.marks ≡ count) }
        ensures none { IfOk result (λ w. (n : ℕ) → IsMarked w.marks n → ⊥) }
        ensures idle { IfOk result (λ w. w.work ≡ []) }
    {
        let marks = vec![in alloc; false; count as usize]?;
        let work = Vec::new(alloc);
        Ok(Walk { marks, work })
    }

    // A number is met.
    fn meet(&mut self, no: TaskNo) -> Result<(), OutOfMemory>
        requires { no.0 < length self.old.marks }
        ensures { OnOk result (self.new ≡ meet no.0 self.old) }
    {
        let at = no.0 as usize;
        if !self.marks[at] {
            self.marks[at] = true;
            self.work.push(no)?;
        }
        Ok(())
    }

    // These numbers are met.
    fn meet_all(&mut self, nos: &[TaskNo]) -> Result<(), OutOfMemory>
        requires { AllBelow (length self.old.marks) (numbers nos.now) }
        ensures { OnOk result (self.new ≡ meet_all (numbers nos.now) self.old) }
    {
        for no in nos {
            self.meet(*no)?;
        }
        Ok(())
    }

    /// A walk that begins at these numbers.
    pub fn start<W: Ways>(alloc: Global, ways: &W, starts: &[TaskNo]) -> Result<Walk, OutOfMemory>
        requires { AllBelow (W.size ways.now) (numbers starts.now) }
        ensures { IfOk result (λ w. Walking (W.size ways.now) (W.goes ways.now) (numbers starts.now) w) }
    {
        let mut walk = Walk::new(alloc, ways.size())?;
        walk.meet_all(starts)?;
        Ok(walk)
    }

    /// Goes on from one number that waits; false where none does.
    pub fn step<W: Ways>(&mut self, alloc: Global, ways: &W) -> Result<bool, OutOfMemory>
        requires { Ready (W.size ways.now) self.old }
        ensures ready { OnOk result (Ready (W.size ways.now) self.new) }
        ensures kept { OnOk result ((starts : List ℕ) → Walking (W.size ways.now) (W.goes ways.now) starts self.old
            → Walking (W.size ways.now) (W.goes ways.now) starts self.new) }
        ensures over { IfOk result (λ went. went ≡ false → self.new.work ≡ []) }
        ensures nearer { IfOk result (λ went. went ≡ true → unmarked self.new.marks + length self.new.work < unmarked self.old.marks + length self.old.work) }
    {
        let Some(no) = self.work.pop() else {
            return Ok(false);
        };
        let next = ways.next(alloc, no)?;
        self.meet_all(&next)?;
        Ok(true)
    }

    /// Goes on until no number waits.
    pub fn run<W: Ways>(&mut self, alloc: Global, ways: &W) -> Result<(), OutOfMemory>
        requires { Ready (W.size ways.now) self.old }
        ensures ready { OnOk result (Ready (W.size ways.now) self.new) }
        ensures kept { OnOk result ((starts : List ℕ) → Walking (W.size ways.now) (W.goes ways.now) starts self.old
            → Walking (W.size ways.now) (W.goes ways.now) starts self.new) }
        ensures over { OnOk result (self.new.work ≡ []) }
    {
        while self.step(alloc, ways)? {}
        Ok(())
    }

    /// Whether a number was met.
    pub fn met(&self, no: TaskNo) -> bool
        requires { no.0 < length self.now.marks }
        ensures { IsTrue result ↔ IsMarked self.now.marks no.0 }
    {
        self.marks[no.0 as usize]
    }

    /// The marks of all numbers.
    pub fn into_marks(self) -> Vec<bool>
        ensures { result.items ≡ self.marks }
    {
        let Walk { marks, work } = self;
        drop(work);
        marks
    }
}

/// Marks all numbers to which one of these leads.
pub fn closure<W: Ways>(
    alloc: Global,
    ways: &W,
    starts: &[TaskNo],
) -> Result<Vec<bool>, OutOfMemory>
    requires { AllBelow (W.size ways.now) (numbers starts.now) }
    ensures { IfOk result (λ marks. IsClosure (W.size ways.now) (W.goes ways.now) (numbers starts.now) marks.items) }
{
    let mut walk = Walk::start(alloc, ways, starts)?;
    walk.run(alloc, ways)?;
    Ok(walk.into_marks())
}
