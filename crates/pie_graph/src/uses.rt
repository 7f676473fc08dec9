//! What an edge of a task leads to.
ghost use Rattle.std.specs.Prelude.{◌≡◌, ◌≤◌, map, length, IfOk};
ghost use Rattle.pie_graph.specs.Numbers.{numbers, Exactly};
ghost use Rattle.pie_graph.specs.Rows.{row_at, row_of};
ghost use Rattle.pie_graph.specs.Uses.{has, Has};

use crate::{Edges, TaskNo, marked};
use pie_base::{MAX_TASKS, OutOfMemory, Path};
use std::alloc::Global;

/// What an edge of a task leads to.
#[derive(PartialEq, Eq, PartialOrd, Ord, Drop)]
pub enum Use {
    /// A task that is required.
    Calls(TaskNo),
    /// A path that was looked at.
    Reads(Path),
    /// A directory that was listed.
    Lists(Path),
    /// A path that was written.
    Writes(Path),
}

impl Use {
    /// An equal use, which shares the path.
    pub(crate) fn copy(&self) -> Result<Use, OutOfMemory>
        ensures { IfOk result (λ copy. copy ≡ self.now) }
    {
        match self {
            Use::Calls(callee) => Ok(Use::Calls(*callee)),
            Use::Reads(path) => Ok(Use::Reads(path.copy()?)),
            Use::Lists(dir) => Ok(Use::Lists(dir.copy()?)),
            Use::Writes(path) => Ok(Use::Writes(path.copy()?)),
        }
    }
}

impl Edges {
    /// Whether an edge leads there.
    pub fn has(&self, what: &Use) -> bool
        ensures { result ≡ has (row_of self.now) what.now }
    {
        match what {
            Use::Calls(callee) => self.needs.contains(callee),
            Use::Reads(path) => self.reads.contains(path),
            Use::Lists(dir) => self.lists.contains(dir),
            Use::Writes(path) => self.writes.contains(path),
        }
    }
}

/// The numbers of the rows with an edge that leads there, by a walk over all of them.
pub(crate) fn using(alloc: Global, rows: &[Edges], what: &Use) -> Result<Vec<TaskNo>, OutOfMemory>
    requires { length rows.now ≤ MAX_TASKS }
    ensures { IfOk result (λ found. Exactly (λ k. Has (row_at (map row_of rows.now) k) what.now) (numbers found.items)) }
{
    let marks = marks_of(alloc, rows, what)?;
    let found = marked(alloc, &marks)?;
    Ok(found)
}

// Which rows have an edge that leads there.
fn marks_of(alloc: Global, rows: &[Edges], what: &Use) -> Result<Vec<bool>, OutOfMemory>
    ensures { IfOk result (λ marks. marks.items ≡ map (λ row. has (row_of row) what.now) rows.now) }
{
    Ok(rows.iter().map(|row| row.has(what)).collect(alloc)?)
}
