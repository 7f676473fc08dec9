//! Rows that grow by single requires.
ghost use Rattle.std.specs.Prelude.{◌≡◌, ◌<◌, ◌≤◌, ℕ, [], length, map, slice_set, IfOk, OnOk, OnErr};
ghost use Rattle.pie_graph.specs.Numbers.{numbers, Exactly};
ghost use Rattle.pie_graph.specs.Rows.{Row, row_of, row_at, Calls, NeedsBelow};
ghost use Rattle.pie_graph.specs.Uses.{has, Has};
ghost use Rattle.pie_union.specs.Requiring.{requiring};

use crate::index::Index;
use pie_base::{MAX_TASKS, OutOfMemory, Path};
use pie_graph::{Edges, TaskNo, TaskRows, Use, marked};
use std::alloc::Global;
use std::marker::Model;

/// Rows of tasks that grow by single requires. Contracts see the list of the rows.
/// Questions for callers, callees and writers look only at their answers; those for readers and listers walk over all rows.
#[derive(Drop)]
pub struct UnionRows {
    rows: Vec<Edges>,
    index: Index,
}

impl Model for UnionRows {
    ghost use Rattle.std.specs.Prelude.{List, map};
    ghost use Rattle.pie_graph.specs.Rows.{Row, row_of};

    ghost Value = { List Row };

    ghost use Rattle.pie_union.specs.inner.Index.{AreKept};

    ghost view = { λ r. map row_of r.rows.items };

    ghost invariant = { λ r. AreKept r.index (map row_of r.rows.items) };
}

impl UnionRows {
    /// No rows.
    pub fn new(alloc: Global) -> UnionRows
        ensures { result ≡ [] }
    {
        UnionRows {
            rows: Vec::new(alloc),
            index: Index::new(alloc),
        }
    }

    /// These rows, indexed in one pass.
    pub fn of(alloc: Global, rows: Vec<Edges>) -> Result<UnionRows, OutOfMemory>
        requires few { length rows.items ≤ MAX_TASKS }
        requires needs_below { NeedsBelow (map row_of rows.items) }
        ensures { IfOk result (λ made. made ≡ map row_of rows.items) }
    {
        let index = Index::of(alloc, rows.as_slice())?;
        Ok(UnionRows { rows, index })
    }

    /// Adds a required task at the end of a task's row, also where it is there already.
    /// All memory is taken before anything changes.
    pub fn push_need(&mut self, from: TaskNo, to: TaskNo) -> Result<(), OutOfMemory>
        requires from { from.0 < length self.old }
        requires to { to.0 < length self.old }
        ensures pushed { OnOk result (self.new ≡ slice_set self.old from.0 (requiring (row_at self.old from.0) to.0)) }
        ensures unchanged { OnErr result (self.new ≡ self.old) }
    {
        let needs = &mut self.rows[from.0 as usize].needs;
        needs.reserve(1)?;
        self.index.require(from, to)?;
        needs.push(to)?;
        Ok(())
    }

    /// The tasks that require a task, ascending, each once. Nothing is copied.
    pub fn callers_of(&self, no: TaskNo) -> &[TaskNo]
        requires { no.0 < length self.now }
        ensures { Exactly (λ k. Calls self.now k no.0) (numbers result.now) }
    {
        self.index.callers_of(no)
    }

    // The tasks with an edge that leads there, by a walk over all rows.
    fn users(&self, what: &Use) -> Result<Vec<TaskNo>, OutOfMemory>
        ensures { IfOk result (λ found. Exactly (λ k. Has (row_at self.now k) what.now) (numbers found.items)) }
    {
        let alloc = *self.rows.allocator();
        let marks = using(alloc, self.rows.as_slice(), what)?;
        marked(alloc, &marks)
    }
}

impl TaskRows for UnionRows {
    ghost rows = { λ rows. rows };

    fn count(&self) -> u32 {
        self.rows.len() as u32
    }

    fn add(&mut self) -> Result<TaskNo, OutOfMemory> {
        let number = self.rows.len() as u32;
        let edges = Edges::new(*self.rows.allocator());
        self.rows.reserve(1)?;
        self.index.grow()?;
        self.rows.push(edges)?;
        Ok(TaskNo(number))
    }

    fn set_edges(&mut self, no: TaskNo, edges: Edges) -> Result<(), OutOfMemory> {
        let alloc = *self.rows.allocator();
        let row = &self.rows[no.0 as usize];
        self.index.set(alloc, no, row, &edges)?;
        self.rows[no.0 as usize] = edges;
        Ok(())
    }

    fn callees(&self, no: TaskNo) -> &[TaskNo] {
        self.rows[no.0 as usize].needs.as_slice()
    }

    fn callers(&self, no: TaskNo) -> Result<Vec<TaskNo>, OutOfMemory> {
        Ok(Vec::from_slice(*self.rows.allocator(), self.callers_of(no))?)
    }

    fn readers_of(&self, path: &Path) -> Result<Vec<TaskNo>, OutOfMemory> {
        self.users(&Use::Reads(path.copy()?))
    }

    fn listers_of(&self, dir: &Path) -> Result<Vec<TaskNo>, OutOfMemory> {
        self.users(&Use::Lists(dir.copy()?))
    }

    fn writers_of(&self, path: &Path) -> Result<Vec<TaskNo>, OutOfMemory> {
        let found = self.index.writers_of(*self.rows.allocator(), path)?;
        Ok(found)
    }
}

// Which rows have an edge that leads there.
fn using(alloc: Global, rows: &[Edges], what: &Use) -> Result<Vec<bool>, OutOfMemory>
    ensures { IfOk result (λ marks. marks.items ≡ map (λ row. has (row_of row) what.now) rows.now) }
{
    Ok(rows.iter().map(|row| row.has(what)).collect(alloc)?)
}
