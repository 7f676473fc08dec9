//! What the tasks that were taken do: require, and end.
ghost use Rattle.std.specs.Prelude.{◌≡◌, ℕ, ◌<◌, [], ◌∷◌, length, IfOk, OnOk, MatchOption};
ghost use Rattle.std.specs.List.{Contains};
ghost use Rattle.pie_graph.specs.Numbers.{numbers};
ghost use Rattle.pie_graph.specs.Rows.{row_of, Calls};
ghost use Rattle.pie_order.specs.Cycles.{IsCycle, WouldCall};
ghost use Rattle.pie_walk.specs.declared.stack.Entry.TheVariants.{Waits};
ghost use Rattle.pie_walk.specs.States.{OnTop, met, settled, with_row, with_need};
ghost use Rattle.pie_walk.specs.Standing.{Stands};
ghost use Rattle.pie_walk.specs.Counts.{Counts};

use crate::{Mark, Walk};
use pie_base::OutOfMemory;
use pie_graph::{Edges, TaskNo, TaskRows};

impl Walk {
    /// Begins at a root, while the stack is empty. A root that is settled leaves it empty.
    pub fn begin(&mut self, root: TaskNo) -> Result<(), OutOfMemory>
        requires stands { Stands self.old }
        requires idle { self.old.stack ≡ [] }
        requires number { root.0 < length self.old.rows }
        ensures began { OnOk result (self.new ≡ met self.old root) }
        ensures counts { OnOk result (Counts self.old self.new [] []) }
        ensures stands { OnOk result (Stands self.new) }
    {
        self.come_to(root)?;
        Ok(())
    }

    /// The running task on top requires another: this one is visited unless it is settled. The cycle is answered that the require would
    /// close, each task once, the least first; then nothing changes.
    pub fn require(&mut self, from: TaskNo, to: TaskNo) -> Result<Option<Vec<TaskNo>>, OutOfMemory>
        requires stands { Stands self.old }
        requires runs { OnTop self.old (Waits from) }
        requires number { to.0 < length self.old.rows }
        ensures required { IfOk result (λ found. MatchOption found (self.new ≡ met (with_need self.old self.new.places from.0 to.0) to)
            (λ cycle. self.new ≡ self.old)) }
        ensures cycle { IfOk result (λ found. MatchOption found Unit
            (λ cycle. IsCycle (WouldCall self.old.rows from.0 to.0) (numbers cycle.items))) }
        ensures counts { OnOk result (Counts self.old self.new [] []) }
        ensures stands { OnOk result (Stands self.new) }
    {
        let found = self.order.insert(self.alloc, &self.rows, from, to)?;
        match found {
            Some(cycle) => Ok(Some(cycle)),
            None => {
                self.rows.push_need(from, to)?;
                self.come_to(to)?;
                Ok(None)
            }
        }
    }

    // A task is visited, unless it was met.
    fn come_to(&mut self, no: TaskNo) -> Result<(), OutOfMemory>
        requires { no.0 < length self.old.marks }
        ensures { OnOk result (self.new ≡ met self.old no) }
    {
        match self.marks[no.0 as usize] {
            Mark::New => self.meet(no),
            _ => Ok(()),
        }
    }

    /// The task on top was taken, and its record stands: it is settled.
    pub fn keep(&mut self, no: TaskNo)
        requires stands { Stands self.old }
        requires runs { OnTop self.old (Waits no) }
        ensures kept { self.new ≡ settled self.old no.0 }
        ensures counts { Counts self.old self.new [] (no.0 ∷ []) }
        ensures stands { Stands self.new }
    {
        self.settle(no);
    }

    /// The running task on top ends with these edges, which take the place of its row: it is settled.
    pub fn finish(&mut self, no: TaskNo, edges: Edges) -> Result<(), OutOfMemory>
        requires stands { Stands self.old }
        requires runs { OnTop self.old (Waits no) }
        requires needs { (k : ℕ) → Contains (numbers edges.needs.items) k → Calls self.old.rows no.0 k }
        ensures finished { OnOk result (self.new ≡ settled (with_row self.old no.0 (row_of edges)) no.0) }
        ensures counts { OnOk result (Counts self.old self.new [] (no.0 ∷ [])) }
        ensures stands { OnOk result (Stands self.new) }
    {
        let _count = self.rows.count();
        self.rows.set_edges(no, edges)?;
        self.settle(no);
        Ok(())
    }
}
