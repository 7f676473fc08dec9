//! The number of a task, and the edges that lead from one task.
ghost use Rattle.std.specs.Prelude.{◌≡◌};
ghost use Rattle.pie_graph.specs.Rows.{row_of, no_edges};

use pie_base::Path;
use std::alloc::Global;

/// The number of a task, from 0. Numbers are given in the order in which tasks come.
#[derive(Clone, Copy, Debug, PartialEq, Eq, PartialOrd, Ord)]
pub struct TaskNo(pub u32);

/// What leads from one task: each list in the order of the task's observations, repeats included.
#[derive(Drop)]
pub struct Edges {
    /// The tasks that it requires.
    pub needs: Vec<TaskNo>,
    /// The paths that it looked at.
    pub reads: Vec<Path>,
    /// The directories that it listed.
    pub lists: Vec<Path>,
    /// The paths that it wrote.
    pub writes: Vec<Path>,
}

impl Edges {
    /// No edges.
    pub fn new(alloc: Global) -> Edges
        ensures { row_of result ≡ no_edges }
    {
        Edges {
            needs: Vec::new(alloc),
            reads: Vec::new(alloc),
            lists: Vec::new(alloc),
            writes: Vec::new(alloc),
        }
    }
}
