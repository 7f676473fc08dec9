//! A set of tasks from which the one that stands first under a task is taken.
ghost use Rattle.std.specs.Prelude.{◌≡◌, ◌<◌, ◌↔◌, [], length, IfOk, OnOk, OnErr, IsTrue, MatchOption};
ghost use Rattle.std.specs.List.{Contains};
ghost use Rattle.pie_graph.specs.Numbers.{numbers, AllBelow};
ghost use Rattle.pie_reach.specs.inner.Reaches.{ReachesNone};
ghost use Rattle.pie_order.specs.Places.{PlacesAgree};
ghost use Rattle.pie_order.specs.Candidates.{Joins, Leaves, StandsFirst};

use crate::Order;
use pie_base::OutOfMemory;
use pie_graph::{TaskNo, TaskRows};
use pie_reach::{Down, closure, least};
use std::alloc::Global;
use std::collections::BTreeSet;
use std::marker::Model;

/// A set of tasks. Contracts see the list of its members.
#[derive(Drop)]
pub struct Candidates {
    alloc: Global,
    members: BTreeSet<u32>,
}

impl Model for Candidates {
    ghost use Rattle.std.specs.Prelude.{List, ℕ};

    ghost Value = { List ℕ };

    ghost view = { λ c. c.members.keys };
}

impl Candidates {
    /// No members.
    pub fn new(alloc: Global) -> Candidates
        ensures { result ≡ [] }
    {
        Candidates {
            alloc,
            members: BTreeSet::new(alloc),
        }
    }

    /// A task joins.
    pub fn add(&mut self, no: TaskNo) -> Result<(), OutOfMemory>
        ensures joins { OnOk result (Joins self.old self.new no.0) }
        ensures unchanged { OnErr result (self.new ≡ self.old) }
    {
        self.members.insert(no.0)?;
        Ok(())
    }

    pub fn contains(&self, no: TaskNo) -> bool
        ensures { IsTrue result ↔ Contains self.now no.0 }
    {
        self.members.contains(&no.0)
    }

    /// Takes out the member that stands first in the order, of those that a task reaches; none where it reaches none.
    pub fn take_lowest_under<R: TaskRows>(
        &mut self,
        rows: &R,
        order: &Order,
        root: TaskNo,
    ) -> Result<Option<TaskNo>, OutOfMemory>
        requires agrees { PlacesAgree (R.rows rows.now) order.now }
        requires members { AllBelow (length (R.rows rows.now)) self.old }
        requires root { root.0 < length (R.rows rows.now) }
        ensures first { IfOk result (λ found. MatchOption found (ReachesNone (R.rows rows.now) self.old root.0)
            (λ first. StandsFirst (R.rows rows.now) order.now self.old root.0 first.0)) }
        ensures leaves { IfOk result (λ found. MatchOption found (self.new ≡ self.old) (λ first. Leaves self.old self.new first.0)) }
        ensures unchanged { OnErr result (self.new ≡ self.old) }
    {
        let _count = rows.count();
        let marks = closure(self.alloc, &Down(rows), &[root])?;
        let members = list_of(self.alloc, &self.members)?;
        match least(&members, &marks, order.places()) {
            Some(first) => {
                let _there = self.members.remove(&first.0);
                Ok(Some(first))
            }
            None => Ok(None),
        }
    }
}

fn list_of(alloc: Global, set: &BTreeSet<u32>) -> Result<Vec<TaskNo>, OutOfMemory>
    ensures { IfOk result (λ list. numbers list.items ≡ set.now.keys) }
{
    let mut list = Vec::new(alloc);
    for no in set {
        list.push(TaskNo(*no))?;
    }
    Ok(list)
}
