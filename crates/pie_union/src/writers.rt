//! The tasks that wrote each path: pairs of a path and the number of a task, in one order.
ghost use Rattle.std.specs.Prelude.{◌≡◌, ◌≤◌, ◌==◌, ◌&&◌, ◌||◌, ℕ, not, true, false, length, List, IfOk, OnOk};
ghost use Rattle.std.specs.Ordering.{is_eq};
ghost use Rattle.pie_graph.specs.Numbers.{numbers, Exactly};
ghost use Rattle.pie_graph.specs.Rows.{Row, Writes};
ghost use Rattle.pie_union.specs.inner.Writers.{pair_cmp, holds, wrote, AreWriters};

use pie_base::{MAX_TASKS, OutOfMemory, Path};
use pie_graph::TaskNo;
use std::alloc::Global;
use std::collections::BTreeSet;

/// Pairs of a written path and the number of the task that wrote it.
#[derive(Drop)]
pub(crate) struct Writers {
    pairs: BTreeSet<(Path, u32)>,
}

impl Writers {
    /// No pairs.
    pub(crate) fn new(alloc: Global) -> Writers
        ensures { (pair : List ℕ × ℕ) → holds result.pairs pair ≡ false }
    {
        Writers {
            pairs: BTreeSet::new(alloc),
        }
    }

    /// Adds a task to the writers of these paths. Where memory is wanting, it may have been added to some of them.
    pub(crate) fn write(&mut self, paths: &[Path], no: TaskNo) -> Result<(), OutOfMemory>
        ensures { OnOk result ((pair : List ℕ × ℕ) → holds self.new.pairs pair ≡ (holds self.old.pairs pair || (pair.1 == no.0 && wrote paths.now pair.0))) }
    {
        for path in paths {
            let copy = path.copy()?;
            self.pairs.insert((copy, no.0))?;
        }
        Ok(())
    }

    /// Adds pairs. Where memory is wanting, some of them may have been added.
    pub(crate) fn add_all(&mut self, pairs: &Writers) -> Result<(), OutOfMemory>
        ensures added { OnOk result ((pair : List ℕ × ℕ) → holds self.new.pairs pair ≡ (holds self.old.pairs pair || holds pairs.now.pairs pair)) }
        ensures kept { (pair : List ℕ × ℕ) → holds self.old.pairs pair ≡ true → holds self.new.pairs pair ≡ true }
        ensures only { (pair : List ℕ × ℕ) → holds self.new.pairs pair ≡ true → (holds self.old.pairs pair || holds pairs.now.pairs pair) ≡ true }
    {
        for pair in &pairs.pairs {
            let path = pair.0.copy()?;
            self.pairs.insert((path, pair.1))?;
        }
        Ok(())
    }

    /// Removes pairs that don't stay.
    pub(crate) fn remove_all(&mut self, pairs: &Writers, staying: &Writers)
        ensures { (pair : List ℕ × ℕ) → holds self.new.pairs pair ≡
            (holds self.old.pairs pair && not (holds pairs.now.pairs pair && not (holds staying.now.pairs pair))) }
    {
        for pair in &pairs.pairs {
            self.remove_unless(pair, staying);
        }
    }

    // Removes a pair that doesn't stay.
    fn remove_unless(&mut self, gone: &(Path, u32), staying: &Writers)
        ensures { (pair : List ℕ × ℕ) → holds self.new.pairs pair ≡
            (holds self.old.pairs pair && not (is_eq (pair_cmp gone.now pair) && not (holds staying.now.pairs gone.now))) }
    {
        if !staying.pairs.contains(gone) {
            self.pairs.remove(gone);
        }
    }

    /// The numbers of the tasks that wrote a path, ascending.
    pub(crate) fn of(&self, alloc: Global, path: &Path) -> Result<Vec<TaskNo>, OutOfMemory>
        ensures { IfOk result (λ found. (rows : List Row) → length rows ≤ MAX_TASKS → AreWriters self.now.pairs rows
            → Exactly (λ k. Writes rows k path.now) (numbers found.items)) }
    {
        let first = (path.copy()?, 0);
        let end = (path.copy()?, MAX_TASKS);
        let mut found = Vec::new(alloc);
        for pair in self.pairs.range(first..end) {
            found.push(TaskNo(pair.1))?;
        }
        Ok(found)
    }
}
