//! Rows as a list alone: each question walks over all of them.
ghost use Rattle.std.specs.Prelude.{◌≡◌, IfOk, []};
ghost use Rattle.pie_graph.specs.Numbers.{numbers, Exactly};
ghost use Rattle.pie_graph.specs.Rows.{Row, row_at};
ghost use Rattle.pie_graph.specs.Uses.{Has};

use crate::uses::using;
use crate::{Edges, TaskNo, TaskRows, Use};
use pie_base::{OutOfMemory, Path};
use std::alloc::Global;
use std::marker::Model;

/// Rows as a list alone.
#[derive(Drop)]
pub struct PlainRows {
    rows: Vec<Edges>,
}

impl Model for PlainRows {
    ghost use Rattle.std.specs.Prelude.{List, map, length, ◌≤◌};
    ghost use Rattle.pie_graph.specs.Rows.{Row, row_of, NeedsBelow};

    ghost Value = { List Row };

    ghost view = { λ r. map row_of r.rows.items };

    ghost invariant = { λ r. (length r.rows.items ≤ 50000) × NeedsBelow (map row_of r.rows.items) };
}

impl PlainRows {
    /// No rows.
    pub fn new(alloc: Global) -> PlainRows
        ensures { result ≡ [] }
    {
        PlainRows {
            rows: Vec::new(alloc),
        }
    }
}

impl PlainRows {
    // The tasks with an edge that leads there.
    fn users(&self, what: &Use) -> Result<Vec<TaskNo>, OutOfMemory>
        ensures { IfOk result (λ found. Exactly (λ k. Has (row_at self.now k) what.now) (numbers found.items)) }
    {
        let found = using(*self.rows.allocator(), self.rows.as_slice(), what)?;
        Ok(found)
    }
}

impl TaskRows for PlainRows {
    ghost rows = { λ rows. rows };

    fn count(&self) -> u32 {
        self.rows.len() as u32
    }

    fn add(&mut self) -> Result<TaskNo, OutOfMemory> {
        let number = self.rows.len() as u32;
        let edges = Edges::new(*self.rows.allocator());
        self.rows.push(edges)?;
        Ok(TaskNo(number))
    }

    fn set_edges(&mut self, no: TaskNo, edges: Edges) -> Result<(), OutOfMemory> {
        self.rows[no.0 as usize] = edges;
        Ok(())
    }

    fn callees(&self, no: TaskNo) -> &[TaskNo] {
        self.rows[no.0 as usize].needs.as_slice()
    }

    fn callers(&self, no: TaskNo) -> Result<Vec<TaskNo>, OutOfMemory> {
        self.users(&Use::Calls(no))
    }

    fn readers_of(&self, path: &Path) -> Result<Vec<TaskNo>, OutOfMemory> {
        self.users(&Use::Reads(path.copy()?))
    }

    fn listers_of(&self, dir: &Path) -> Result<Vec<TaskNo>, OutOfMemory> {
        self.users(&Use::Lists(dir.copy()?))
    }

    fn writers_of(&self, path: &Path) -> Result<Vec<TaskNo>, OutOfMemory> {
        self.users(&Use::Writes(path.copy()?))
    }
}
