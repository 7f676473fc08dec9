//! Numbers of tasks in ascending order.
ghost use Rattle.std.specs.Prelude.{◌≡◌, ◌==◌, ◌&&◌, ◌||◌, ℕ, not, [], IfOk, OnOk, OnErr};
ghost use Rattle.std.specs.List.Sorted.{IsStrictlyIncreasing};
ghost use Rattle.pie_graph.specs.Numbers.{numbers};
ghost use Rattle.pie_union.specs.inner.Among.{among};

use pie_base::OutOfMemory;
use pie_graph::TaskNo;
use std::alloc::Global;
use std::marker::Model;

/// Numbers of tasks, ascending, each once. Contracts see the list of the numbers.
#[derive(Drop)]
pub(crate) struct Ascending {
    nos: Vec<TaskNo>,
}

impl Model for Ascending {
    ghost use Rattle.std.specs.Prelude.{List, ℕ};
    ghost use Rattle.std.specs.List.Sorted.{IsStrictlyIncreasing};
    ghost use Rattle.pie_graph.specs.Numbers.{numbers};

    ghost Value = { List ℕ };

    ghost view = { λ a. numbers a.nos.items };

    ghost invariant = { λ a. IsStrictlyIncreasing (numbers a.nos.items) };
}

impl Ascending {
    /// No numbers.
    pub(crate) fn new(alloc: Global) -> Ascending
        ensures { result ≡ [] }
    {
        Ascending {
            nos: Vec::new(alloc),
        }
    }

    /// The numbers of a list in any order.
    pub(crate) fn of(alloc: Global, nos: &[TaskNo]) -> Result<Ascending, OutOfMemory>
        ensures { IfOk result (λ ascending. (k : ℕ) → among ascending k ≡ among (numbers nos.now) k) }
    {
        let mut nos = Vec::from_slice(alloc, nos)?;
        nos.sort_unstable();
        nos.dedup();
        Ok(Ascending { nos })
    }

    pub(crate) fn as_slice(&self) -> &[TaskNo]
        ensures numbers { numbers result.now ≡ self.now }
        ensures ascending { IsStrictlyIncreasing self.now }
    {
        self.nos.as_slice()
    }

    /// Whether a number is there.
    pub(crate) fn contains(&self, no: TaskNo) -> bool
        ensures { result ≡ among self.now no.0 }
    {
        self.nos.binary_search(&no).is_ok()
    }

    /// Puts a number where it belongs, unless it is there.
    pub(crate) fn insert(&mut self, no: TaskNo) -> Result<(), OutOfMemory>
        ensures inserted { OnOk result ((k : ℕ) → among self.new k ≡ (among self.old k || k == no.0)) }
        ensures unchanged { OnErr result (self.new ≡ self.old) }
    {
        match self.nos.binary_search(&no) {
            Ok(_) => Ok(()),
            Err(place) => Ok(self.nos.insert(place, no)?),
        }
    }

    /// Takes a number out, if it is there.
    pub(crate) fn remove(&mut self, no: TaskNo)
        ensures { (k : ℕ) → among self.new k ≡ (among self.old k && not (k == no.0)) }
    {
        if let Ok(place) = self.nos.binary_search(&no) {
            self.nos.remove(place);
        }
    }
}
