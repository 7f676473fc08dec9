//! What any store of rows offers.
ghost use Rattle.std.specs.Prelude.{◌≡◌, ◌<◌, ◌≤◌, ◌++◌, ◌∷◌, [], ℕ, List, length, slice_set, IfOk, OnOk, OnErr};
ghost use Rattle.pie_graph.specs.Numbers.{numbers, AllBelow, Exactly};
ghost use Rattle.pie_graph.specs.Rows.{Row, row_of, row_at, no_edges, Calls, Reads, Lists, Writes, NeedsBelow};

use crate::{Edges, TaskNo};
use pie_base::{MAX_TASKS, OutOfMemory, Path};

/// The rows of a graph of tasks, numbered from 0. Contracts see the list of the rows.
pub trait TaskRows {
    ghost rows: { Self → List Row };

    /// How many rows.
    fn count(&self) -> u32
        ensures count { result ≡ length (rows self.now) }
        ensures few { length (rows self.now) ≤ MAX_TASKS }
        ensures needs_below { NeedsBelow (rows self.now) };

    /// Adds a row without edges, and answers its number.
    fn add(&mut self) -> Result<TaskNo, OutOfMemory>
        requires { length (rows self.old) < MAX_TASKS }
        ensures number { IfOk result (λ no. no.0 ≡ length (rows self.old)) }
        ensures added { OnOk result (rows self.new ≡ rows self.old ++ no_edges ∷ []) }
        ensures unchanged { OnErr result (rows self.new ≡ rows self.old) };

    /// Puts these edges in the place of a row's old ones. All memory is taken before anything changes.
    fn set_edges(&mut self, no: TaskNo, edges: Edges) -> Result<(), OutOfMemory>
        requires number { no.0 < length (rows self.old) }
        requires needs_below { AllBelow (length (rows self.old)) (numbers edges.needs.items) }
        ensures set { OnOk result (rows self.new ≡ slice_set (rows self.old) no.0 (row_of edges)) }
        ensures unchanged { OnErr result (rows self.new ≡ rows self.old) };

    /// The tasks that a task requires, in its order, repeats included.
    fn callees(&self, no: TaskNo) -> &[TaskNo]
        requires { no.0 < length (rows self.now) }
        ensures callees { numbers result.now ≡ (row_at (rows self.now) no.0).needs }
        ensures needs_below { AllBelow (length (rows self.now)) (numbers result.now) };

    /// The tasks that require a task, ascending, each once.
    fn callers(&self, no: TaskNo) -> Result<Vec<TaskNo>, OutOfMemory>
        requires { no.0 < length (rows self.now) }
        ensures { IfOk result (λ found. Exactly (λ k. Calls (rows self.now) k no.0) (numbers found.items)) };

    /// The tasks that looked at a path, ascending, each once.
    fn readers_of(&self, path: &Path) -> Result<Vec<TaskNo>, OutOfMemory>
        ensures { IfOk result (λ found. Exactly (λ k. Reads (rows self.now) k path.now) (numbers found.items)) };

    /// The tasks that listed a directory, ascending, each once.
    fn listers_of(&self, dir: &Path) -> Result<Vec<TaskNo>, OutOfMemory>
        ensures { IfOk result (λ found. Exactly (λ k. Lists (rows self.now) k dir.now) (numbers found.items)) };

    /// The tasks that wrote a path, ascending, each once.
    fn writers_of(&self, path: &Path) -> Result<Vec<TaskNo>, OutOfMemory>
        ensures { IfOk result (λ found. Exactly (λ k. Writes (rows self.now) k path.now) (numbers found.items)) };
}
