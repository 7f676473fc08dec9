//! The callers of each task.
ghost use Rattle.std.specs.Prelude.{◌≡◌, ◌==◌, ◌<◌, ◌&&◌, ◌||◌, ◌++◌, ◌∷◌, ℕ, not, true, [], length, slice_index_or, OnOk, OnErr};
ghost use Rattle.std.specs.List.Sorted.{IsStrictlyIncreasing};
ghost use Rattle.pie_graph.specs.Numbers.{numbers, AllBelow};
ghost use Rattle.pie_union.specs.inner.Among.{among, calls};

use crate::ascending::Ascending;
use pie_base::OutOfMemory;
use pie_graph::TaskNo;
use std::alloc::Global;
use std::marker::Model;

/// The callers of each task. Contracts see the list of the lists of their numbers.
#[derive(Drop)]
pub(crate) struct Callers {
    lists: Vec<Ascending>,
}

impl Model for Callers {
    ghost use Rattle.std.specs.Prelude.{List, ℕ};

    ghost Value = { List (List ℕ) };

    ghost view = { λ c. c.lists.items };
}

impl Callers {
    /// No tasks.
    pub(crate) fn new(alloc: Global) -> Callers
        ensures { result ≡ [] }
    {
        Callers {
            lists: Vec::new(alloc),
        }
    }

    /// Adds a task without callers.
    pub(crate) fn grow(&mut self) -> Result<(), OutOfMemory>
        ensures grown { OnOk result (self.new ≡ self.old ++ [] ∷ []) }
        ensures unchanged { OnErr result (self.new ≡ self.old) }
    {
        let none = Ascending::new(*self.lists.allocator());
        self.lists.push(none)?;
        Ok(())
    }

    /// The callers of a task, ascending, each once.
    pub(crate) fn of(&self, callee: TaskNo) -> &[TaskNo]
        requires { callee.0 < length self.now }
        ensures numbers { numbers result.now ≡ slice_index_or self.now callee.0 [] }
        ensures ascending { IsStrictlyIncreasing (numbers result.now) }
    {
        self.lists[callee.0 as usize].as_slice()
    }

    /// Adds a caller of a task, unless it is there.
    pub(crate) fn add(&mut self, callee: TaskNo, caller: TaskNo) -> Result<(), OutOfMemory>
        requires { callee.0 < length self.old }
        ensures added { OnOk result ((a b : ℕ) → calls self.new a b ≡ (calls self.old a b || (a == caller.0 && b == callee.0))) }
        ensures count { length self.new ≡ length self.old }
        ensures unchanged { OnErr result (self.new ≡ self.old) }
    {
        self.lists[callee.0 as usize].insert(caller)
    }

    /// Adds a caller of several tasks. Where memory is wanting, it may have been added to some of them.
    pub(crate) fn add_all(&mut self, callees: &[TaskNo], caller: TaskNo) -> Result<(), OutOfMemory>
        requires { AllBelow (length self.old) (numbers callees.now) }
        ensures added { OnOk result ((a b : ℕ) → calls self.new a b ≡ (calls self.old a b || (a == caller.0 && among (numbers callees.now) b))) }
        ensures count { length self.new ≡ length self.old }
        ensures kept { (a b : ℕ) → calls self.old a b ≡ true → calls self.new a b ≡ true }
        ensures only { (a b : ℕ) → calls self.new a b ≡ true → (calls self.old a b || (a == caller.0 && among (numbers callees.now) b)) ≡ true }
    {
        for callee in callees {
            self.add(*callee, caller)?;
        }
        Ok(())
    }

    /// Takes a caller from those of these tasks that don't stay.
    pub(crate) fn remove_all(&mut self, callees: &[TaskNo], staying: &Ascending, caller: TaskNo)
        requires { AllBelow (length self.old) (numbers callees.now) }
        ensures removed { (a b : ℕ) → calls self.new a b ≡
            (calls self.old a b && not (a == caller.0 && (among (numbers callees.now) b && not (among staying.now b)))) }
        ensures count { length self.new ≡ length self.old }
    {
        for callee in callees {
            self.remove_unless(*callee, staying, caller);
        }
    }

    // Takes a caller from a task that doesn't stay.
    fn remove_unless(&mut self, callee: TaskNo, staying: &Ascending, caller: TaskNo)
        requires { callee.0 < length self.old }
        ensures removed { (a b : ℕ) → calls self.new a b ≡ (calls self.old a b && not (a == caller.0 && (b == callee.0 && not (among staying.now b)))) }
        ensures count { length self.new ≡ length self.old }
    {
        if !staying.contains(callee) {
            self.lists[callee.0 as usize].remove(caller);
        }
    }
}
