//! The callers of each task and the writers of each path, as the rows tell them.
ghost use Rattle.std.specs.Prelude.{◌≡◌, ◌<◌, ◌≤◌, ◌++◌, ◌∷◌, ℕ, List, [], length, map, slice_set, IfOk, OnOk, OnErr};
ghost use Rattle.pie_graph.specs.Numbers.{numbers, AllBelow, Exactly};
ghost use Rattle.pie_graph.specs.Rows.{Row, row_of, row_at, no_edges, Calls, Writes, NeedsBelow};
ghost use Rattle.pie_union.specs.Requiring.{requiring};
ghost use Rattle.pie_union.specs.inner.Index.{IsIndex, Tells, AreUses, Joins, MayJoin, Leaves};

use crate::ascending::Ascending;
use crate::callers::Callers;
use crate::writers::Writers;
use pie_base::{MAX_TASKS, OutOfMemory, Path};
use pie_graph::{Edges, TaskNo};
use std::alloc::Global;

/// What of a row the index holds: the tasks that it requires, and the paths that it wrote with its number.
#[derive(Drop)]
pub(crate) struct Uses {
    needs: Ascending,
    writes: Writers,
}

impl Uses {
    fn of(alloc: Global, edges: &Edges, no: TaskNo) -> Result<Uses, OutOfMemory>
        ensures { IfOk result (λ uses. AreUses uses (row_of edges.now) no.0) }
    {
        let mut writes = Writers::new(alloc);
        writes.write(edges.writes.as_slice(), no)?;
        let needs = Ascending::of(alloc, edges.needs.as_slice())?;
        Ok(Uses { needs, writes })
    }
}

/// The callers of each task and the writers of each path.
#[derive(Drop)]
pub(crate) struct Index {
    callers: Callers,
    writers: Writers,
}

impl Index {
    /// The index of no rows.
    pub(crate) fn new(alloc: Global) -> Index
        ensures { IsIndex result [] }
    {
        Index {
            callers: Callers::new(alloc),
            writers: Writers::new(alloc),
        }
    }

    /// The index of these rows, in one pass.
    pub(crate) fn of(alloc: Global, rows: &[Edges]) -> Result<Index, OutOfMemory>
        requires few { length rows.now ≤ MAX_TASKS }
        requires needs_below { NeedsBelow (map row_of rows.now) }
        ensures { IfOk result (λ index. IsIndex index (map row_of rows.now)) }
    {
        let mut index = Index::sized(alloc, rows.len())?;
        for (i, row) in rows.iter().enumerate() {
            index.add_row(TaskNo(i as u32), row)?;
        }
        Ok(index)
    }

    // The index of no rows, with so many lists of callers.
    fn sized(alloc: Global, count: usize) -> Result<Index, OutOfMemory>
        ensures { IfOk result (λ index. Tells index count []) }
    {
        let mut index = Index::new(alloc);
        for _ in 0..count {
            index.callers.grow()?;
        }
        Ok(index)
    }

    // Adds the uses of the row behind those that the index tells.
    fn add_row(&mut self, no: TaskNo, row: &Edges) -> Result<(), OutOfMemory>
        requires { AllBelow (length self.old.callers) (numbers row.now.needs.items) }
        ensures { (count : ℕ) (rows : List Row) → Tells self.old count rows → no.0 ≡ length rows
            → OnOk result (Tells self.new count (rows ++ row_of row.now ∷ [])) }
    {
        self.callers.add_all(row.needs.as_slice(), no)?;
        self.writers.write(row.writes.as_slice(), no)
    }

    /// A row without edges is added behind the others.
    pub(crate) fn grow(&mut self) -> Result<(), OutOfMemory>
        ensures grown { (rows : List Row) → IsIndex self.old rows → OnOk result (IsIndex self.new (rows ++ no_edges ∷ [])) }
        ensures unchanged { OnErr result (self.new ≡ self.old) }
    {
        self.callers.grow()
    }

    /// The callers of a task, ascending, each once.
    pub(crate) fn callers_of(&self, no: TaskNo) -> &[TaskNo]
        requires { no.0 < length self.now.callers }
        ensures { (rows : List Row) → IsIndex self.now rows → Exactly (λ k. Calls rows k no.0) (numbers result.now) }
    {
        self.callers.of(no)
    }

    /// The writers of a path, ascending, each once.
    pub(crate) fn writers_of(&self, alloc: Global, path: &Path) -> Result<Vec<TaskNo>, OutOfMemory>
        ensures { IfOk result (λ found. (rows : List Row) → length rows ≤ MAX_TASKS → IsIndex self.now rows
            → Exactly (λ k. Writes rows k path.now) (numbers found.items)) }
    {
        let found = self.writers.of(alloc, path)?;
        Ok(found)
    }

    /// A row requires one more task.
    pub(crate) fn require(&mut self, from: TaskNo, to: TaskNo) -> Result<(), OutOfMemory>
        requires { to.0 < length self.old.callers }
        ensures required { (rows : List Row) → IsIndex self.old rows → from.0 < length rows
            → OnOk result (IsIndex self.new (slice_set rows from.0 (requiring (row_at rows from.0) to.0))) }
        ensures unchanged { OnErr result (self.new ≡ self.old) }
    {
        self.callers.add(to, from)
    }

    /// A row has new edges in the place of its old ones.
    pub(crate) fn set(
        &mut self,
        alloc: Global,
        no: TaskNo,
        old: &Edges,
        new: &Edges,
    ) -> Result<(), OutOfMemory>
        requires old_below { AllBelow (length self.old.callers) (numbers old.now.needs.items) }
        requires new_below { AllBelow (length self.old.callers) (numbers new.now.needs.items) }
        ensures set { (rows : List Row) → IsIndex self.old rows → no.0 < length rows → row_of old.now ≡ row_at rows no.0
            → OnOk result (IsIndex self.new (slice_set rows no.0 (row_of new.now))) }
        ensures unchanged { (rows : List Row) → IsIndex self.old rows → row_of old.now ≡ row_at rows no.0
            → OnErr result (IsIndex self.new rows) }
    {
        let old = Uses::of(alloc, old, no)?;
        let new = Uses::of(alloc, new, no)?;
        self.replace(no, &old, &new)
    }

    // Puts new uses in the place of old ones. Where memory is wanting, the old ones stand there again.
    fn replace(&mut self, no: TaskNo, old: &Uses, new: &Uses) -> Result<(), OutOfMemory>
        requires old_below { AllBelow (length self.old.callers) old.now.needs }
        requires new_below { AllBelow (length self.old.callers) new.now.needs }
        ensures replaced { (rows : List Row) (row : Row) → IsIndex self.old rows → no.0 < length rows → AreUses old.now (row_at rows no.0) no.0
            → AreUses new.now row no.0 → OnOk result (IsIndex self.new (slice_set rows no.0 row)) }
        ensures unchanged { (rows : List Row) (row : Row) → IsIndex self.old rows → AreUses old.now (row_at rows no.0) no.0
            → AreUses new.now row no.0 → OnErr result (IsIndex self.new rows) }
    {
        match self.add(no, new) {
            Ok(()) => {
                self.remove(no, old, new);
                Ok(())
            }
            Err(error) => {
                self.remove(no, new, old);
                Err(error)
            }
        }
    }

    // Adds uses. Where memory is wanting, some of them may have been added.
    fn add(&mut self, no: TaskNo, uses: &Uses) -> Result<(), OutOfMemory>
        requires { AllBelow (length self.old.callers) uses.now.needs }
        ensures added { OnOk result (Joins self.old self.new uses.now no.0) }
        ensures part { MayJoin self.old self.new uses.now no.0 }
        ensures count { length self.new.callers ≡ length self.old.callers }
    {
        self.callers.add_all(uses.needs.as_slice(), no)?;
        self.writers.add_all(&uses.writes)
    }

    // Removes uses that don't stay.
    fn remove(&mut self, no: TaskNo, going: &Uses, staying: &Uses)
        requires { AllBelow (length self.old.callers) going.now.needs }
        ensures removed { Leaves self.old self.new going.now staying.now no.0 }
        ensures count { length self.new.callers ≡ length self.old.callers }
    {
        self.callers
            .remove_all(going.needs.as_slice(), &staying.needs, no);
        self.writers.remove_all(&going.writes, &staying.writes);
    }
}
