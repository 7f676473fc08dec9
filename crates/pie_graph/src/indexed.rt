//! Rows with an index of writers: who wrote a path is told without a walk, and each other question walks over all rows.
ghost use Rattle.std.specs.Prelude.{◌≡◌, [], IfOk};
ghost use Rattle.pie_graph.specs.Numbers.{numbers, Exactly};
ghost use Rattle.pie_graph.specs.Rows.{Row, row_of, row_at};
ghost use Rattle.pie_graph.specs.Uses.{Has};

use crate::index::{replace_all, users_of, writes_of};
use crate::uses::using;
use crate::{Edges, TaskNo, TaskRows, Use};
use pie_base::{OutOfMemory, Path};
use std::alloc::Global;
use std::collections::BTreeSet;
use std::marker::Model;

/// Rows with an index from each path to the tasks that wrote it.
#[derive(Drop)]
pub struct IndexedRows {
    rows: Vec<Edges>,
    index: BTreeSet<(Use, u32)>,
}

impl Model for IndexedRows {
    ghost use Rattle.std.specs.Prelude.{List, map, length, ◌≤◌};
    ghost use Rattle.pie_graph.specs.Rows.{Row, row_of, NeedsBelow};
    ghost use Rattle.pie_graph.specs.Alone.{written};

    ghost Value = { List Row };

    ghost use Rattle.pie_graph.specs.Index.{IsIndex};

    ghost view = { λ r. map row_of r.rows.items };

    ghost invariant = { λ r. (length r.rows.items ≤ 50000) × NeedsBelow (map row_of r.rows.items) × IsIndex r.index (map written (map row_of r.rows.items)) };
}

impl IndexedRows {
    /// No rows.
    pub fn new(alloc: Global) -> IndexedRows
        ensures { result ≡ [] }
    {
        IndexedRows {
            rows: Vec::new(alloc),
            index: BTreeSet::new(alloc),
        }
    }

    // The tasks with an edge that leads there, by a walk over all rows.
    fn users(&self, what: &Use) -> Result<Vec<TaskNo>, OutOfMemory>
        ensures { IfOk result (λ found. Exactly (λ k. Has (row_at self.now k) what.now) (numbers found.items)) }
    {
        let found = using(*self.rows.allocator(), self.rows.as_slice(), what)?;
        Ok(found)
    }
}

impl TaskRows for IndexedRows {
    ghost rows = { λ rows. rows };

    fn count(&self) -> u32 {
        self.rows.len() as u32
    }

    fn add(&mut self) -> Result<TaskNo, OutOfMemory> {
        let number = self.rows.len() as u32;
        let edges = Edges::new(*self.rows.allocator());
        self.rows.push(edges)?;
        Ok(TaskNo(number))
    }

    fn set_edges(&mut self, no: TaskNo, edges: Edges) -> Result<(), OutOfMemory> {
        let alloc = *self.rows.allocator();
        let row = &self.rows[no.0 as usize];
        let old = writes_of(alloc, row.writes.as_slice(), no.0)?;
        let new = writes_of(alloc, edges.writes.as_slice(), no.0)?;
        replace_all(&mut self.index, &old, &new)?;
        self.rows[no.0 as usize] = edges;
        Ok(())
    }

    fn callees(&self, no: TaskNo) -> &[TaskNo] {
        self.rows[no.0 as usize].needs.as_slice()
    }

    fn callers(&self, no: TaskNo) -> Result<Vec<TaskNo>, OutOfMemory> {
        self.users(&Use::Calls(no))
    }

    fn readers_of(&self, path: &Path) -> Result<Vec<TaskNo>, OutOfMemory> {
        self.users(&Use::Reads(path.copy()?))
    }

    fn listers_of(&self, dir: &Path) -> Result<Vec<TaskNo>, OutOfMemory> {
        self.users(&Use::Lists(dir.copy()?))
    }

    fn writers_of(&self, path: &Path) -> Result<Vec<TaskNo>, OutOfMemory> {
        let what = Use::Writes(path.copy()?);
        let found = users_of(*self.rows.allocator(), &self.index, what)?;
        Ok(found)
    }
}
