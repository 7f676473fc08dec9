//! The state of a walk, and what can be asked of it.
ghost use Rattle.std.specs.Prelude.{◌≡◌, ◌<◌, ◌≤◌, ◌↔◌, List, ◌∷◌, [], length, IsTrue, IfOk, OnOk, OnErr, MatchOption};
ghost use Rattle.pie_graph.specs.Numbers.{numbers, IsMarked};
ghost use Rattle.pie_graph.specs.Rows.{row_at};
ghost use Rattle.pie_walk.specs.declared.stack.Entry.{Entry};
ghost use Rattle.pie_walk.specs.Marks.{mark_of, IsIdle};
ghost use Rattle.pie_walk.specs.States.{NeedsAreEarlier, at_start, with_scheduled, with_one_more};
ghost use Rattle.pie_walk.specs.Standing.{Stands};
ghost use Rattle.pie_walk.specs.Counts.{Counts};

use crate::Mark;
use crate::flags::flag_of;
use crate::stack::{Entry, Stack};
use pie_base::{MAX_TASKS, OutOfMemory};
use pie_graph::{TaskNo, TaskRows};
use pie_order::Order;
use pie_union::UnionRows;
use std::alloc::Global;
use std::marker::Model;

/// A walk over the rows of tasks, from one root after another. Contracts see its state.
/// A call that runs out of memory leaves a walk that is of no use.
#[derive(Drop)]
pub struct Walk {
    pub(crate) alloc: Global,
    pub(crate) rows: UnionRows,
    pub(crate) order: Order,
    pub(crate) marks: Vec<Mark>,
    pub(crate) scheduled: Vec<bool>,
    pub(crate) looks_out: Vec<bool>,
    pub(crate) swept: Vec<bool>,
    pub(crate) stack: Stack,
}

impl Model for Walk {
    ghost use Rattle.pie_walk.specs.States.{WalkState};

    ghost Value = { WalkState };

    ghost view = { λ w. record { rows = w.rows; places = w.order; marks = w.marks.items; scheduled = w.scheduled.items; looks_out = w.looks_out.items; swept = w.swept.items; stack = w.stack } };
}

impl Walk {
    /// A walk over tasks each of which requires tasks of lower numbers alone, with a flag for each that looked under `out`.
    /// No task was met, and none is scheduled.
    pub fn new(alloc: Global, rows: UnionRows, looks_out: Vec<bool>) -> Result<Walk, OutOfMemory>
        requires earlier { NeedsAreEarlier rows }
        requires flags { length looks_out.items ≡ length rows }
        ensures start { IfOk result (λ walk. walk ≡ at_start rows looks_out.items) }
        ensures stands { IfOk result Stands }
    {
        let count = rows.count();
        let order = Order::new(alloc, count)?;
        let marks = vec![in alloc; Mark::New; count as usize]?;
        let scheduled = vec![in alloc; false; count as usize]?;
        let swept = vec![in alloc; false; count as usize]?;
        Ok(Walk {
            alloc,
            rows,
            order,
            marks,
            scheduled,
            looks_out,
            swept,
            stack: Stack::new(alloc),
        })
    }

    /// How many tasks have a number.
    pub fn count(&self) -> u32
        ensures count { result ≡ length self.now.rows }
        ensures few { length self.now.rows ≤ MAX_TASKS }
    {
        self.rows.count()
    }

    /// The rows of all tasks.
    pub fn rows(&self) -> &UnionRows
        ensures { result.now ≡ self.now.rows }
    {
        &self.rows
    }

    /// How far a task has come.
    pub fn mark(&self, no: TaskNo) -> Mark
        ensures { result ≡ mark_of self.now.marks no.0 }
    {
        match self.marks.get(no.0 as usize) {
            Some(mark) => *mark,
            None => Mark::New,
        }
    }

    /// Whether a task is scheduled.
    pub fn is_scheduled(&self, no: TaskNo) -> bool
        ensures { IsTrue result ↔ IsMarked self.now.scheduled no.0 }
    {
        flag_of(self.scheduled.as_slice(), no)
    }

    /// What stands on top of the stack.
    pub fn top(&self) -> Option<Entry>
        ensures { MatchOption result (self.now.stack ≡ []) (λ e. (es : List Entry) × (self.now.stack ≡ e ∷ es)) }
    {
        self.stack.top()
    }

    /// A task that was neither taken nor settled is scheduled: it will be taken when all that it requires is settled.
    pub fn schedule(&mut self, no: TaskNo)
        requires stands { Stands self.old }
        requires idle { IsIdle self.old.marks no.0 }
        requires number { no.0 < length self.old.rows }
        ensures scheduled { self.new ≡ with_scheduled self.old no.0 }
        ensures counts { Counts self.old self.new [] [] }
        ensures stands { Stands self.new }
    {
        self.scheduled[no.0 as usize] = true;
    }

    /// The number of a task that comes later. It is scheduled, since it has to run, and requires nothing so far.
    pub fn add(&mut self) -> Result<TaskNo, OutOfMemory>
        requires stands { Stands self.old }
        requires few { length self.old.rows < MAX_TASKS }
        ensures number { IfOk result (λ no. no.0 ≡ length self.old.rows) }
        ensures added { OnOk result (self.new ≡ with_one_more self.old) }
        ensures counts { OnOk result (Counts self.old self.new [] []) }
        ensures stands { OnOk result (Stands self.new) }
    {
        let _count = self.rows.count();
        self.order.grow()?;
        self.marks.push(Mark::New)?;
        self.scheduled.push(true)?;
        self.looks_out.push(false)?;
        self.swept.push(false)?;
        let no = self.rows.add()?;
        Ok(no)
    }
}
