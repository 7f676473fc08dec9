//! Rows of the tasks that a build enters, numbered in that order.
ghost use Rattle.std.specs.Prelude.{◌≡◌, ℕ, ◌<◌, ◌≤◌, [], length, slice_set, IfOk, IfSome, OnOk, OnErr, IsTrue};
ghost use Rattle.pie_graph.specs.Numbers.{numbers, AllBelow};
ghost use Rattle.pie_graph.specs.Rows.{row_of, row_at};
ghost use Rattle.pie_reach.specs.inner.Reaches.{Reaches, ReachedFrom};
ghost use Rattle.pie_view.specs.Seen.{IsOnly, Reached, Visible};
ghost use Rattle.pie_view.specs.declared.seen.Seen.TheVariants.{By};
ghost use Rattle.pie_view.specs.inner.Entered.{Spans};

use crate::Seen;
use crate::sight::seen_of;
use pie_base::{OutOfMemory, Path};
use pie_graph::{Edges, IndexedRows, TaskNo, TaskRows};
use std::alloc::Global;
use std::marker::Model;

/// Rows of the tasks that a build enters, numbered in that order. A task that ends reaches those that were entered while it ran, so that for most looks at a
/// written path no walk is needed. Contracts see the list of the rows.
#[derive(Drop)]
pub struct EnteredRows {
    rows: IndexedRows,
    // For each task the last one up to which it is known to reach all from itself on.
    lasts: Vec<u32>,
}

impl Model for EnteredRows {
    ghost use Rattle.std.specs.Prelude.{List};
    ghost use Rattle.pie_graph.specs.Rows.{Row};
    ghost use Rattle.pie_view.specs.inner.Entered.{AreLasts};

    ghost Value = { List Row };

    ghost view = { λ r. r.rows };

    ghost invariant = { λ r. AreLasts r.lasts.items r.rows };
}

impl EnteredRows {
    /// No rows.
    pub fn new(alloc: Global) -> EnteredRows
        ensures { result ≡ [] }
    {
        EnteredRows {
            rows: IndexedRows::new(alloc),
            lasts: Vec::new(alloc),
        }
    }

    /// What a task that wrote nothing at a path sees there, where it has required these so far.
    pub fn seen(&self, alloc: Global, required: &[TaskNo], path: &Path) -> Result<Seen, OutOfMemory>
        requires { AllBelow (length self.now) (numbers required.now) }
        ensures { IfOk result (IsOnly (Visible self.now (numbers required.now) path.now)) }
    {
        let writers = self.rows.writers_of(path)?;
        if let Some(one) = self.near(required, &writers) {
            return Ok(Seen::By(one));
        }
        let seen = seen_of(alloc, &self.rows, required, &writers)?;
        Ok(seen)
    }

    // The only one of these writers, where it is known to be reached.
    fn near(&self, required: &[TaskNo], writers: &[TaskNo]) -> Option<TaskNo>
        ensures { IfSome result (λ one. IsOnly (Reached self.now (numbers required.now) (numbers writers.now)) (By one)) }
    {
        match writers {
            [one] => {
                if self.is_near(required, *one) {
                    Some(*one)
                } else {
                    None
                }
            }
            _ => None,
        }
    }

    // Whether one of these tasks is known to reach another; those that were required last come first.
    fn is_near(&self, required: &[TaskNo], to: TaskNo) -> bool
        ensures { IsTrue result → ReachedFrom self.now (numbers required.now) to.0 }
    {
        let mut left = required.len();
        while left > 0 {
            left -= 1;
            if self.spans(required[left], to) {
                return true;
            }
        }
        false
    }

    // Whether a task is known to reach another.
    fn spans(&self, from: TaskNo, to: TaskNo) -> bool
        ensures { IsTrue result → Reaches self.now from.0 to.0 }
    {
        from.0 <= to.0 && to.0 <= self.last_of(from)
    }

    // The last task up to which one is known to reach all from itself on.
    fn last_of(&self, no: TaskNo) -> u32
        ensures { (m : ℕ) → no.0 ≤ m → m ≤ result → Reaches self.now no.0 m }
    {
        let at = no.0 as usize;
        if at < self.lasts.len() {
            self.lasts[at]
        } else {
            no.0
        }
    }

    // The last task up to which these are known to reach all behind one.
    fn last_under(&self, no: TaskNo, needs: &[TaskNo]) -> u32
        ensures { Spans self.now (numbers needs.now) no.0 result }
    {
        let mut last = no.0;
        for need in needs {
            last = self.last_with(last, *need);
        }
        last
    }

    // The same with one more task, which counts where it is the next one.
    fn last_with(&self, last: u32, need: TaskNo) -> u32
        ensures { (m : ℕ) → last < m → m ≤ result → Reaches self.now need.0 m }
    {
        if need.0 > last && need.0 - 1 == last {
            self.last_of(need)
        } else {
            last
        }
    }

    // One number more, where there is one for each row: the next task reaches itself.
    fn push_last(&mut self) -> Result<(), OutOfMemory>
        ensures { self.new ≡ self.old }
    {
        let count = self.rows.count();
        if self.lasts.len() != count as usize {
            return Ok(());
        }
        self.lasts.push(count)?;
        Ok(())
    }

    // A row without needs gets these edges.
    fn fill(&mut self, no: TaskNo, edges: Edges) -> Result<(), OutOfMemory>
        requires number { no.0 < length self.old }
        requires blank { (row_at self.old no.0).needs ≡ [] }
        requires needs_below { AllBelow (length self.old) (numbers edges.needs.items) }
        ensures set { OnOk result (self.new ≡ slice_set self.old no.0 (row_of edges)) }
        ensures unchanged { OnErr result (self.new ≡ self.old) }
    {
        let last = self.last_under(no, edges.needs.as_slice());
        let at = no.0 as usize;
        self.rows.set_edges(no, edges)?;
        if at < self.lasts.len() {
            self.lasts[at] = last;
        }
        Ok(())
    }
}

impl TaskRows for EnteredRows {
    ghost rows = { λ rows. rows };

    fn count(&self) -> u32 {
        self.rows.count()
    }

    fn add(&mut self) -> Result<TaskNo, OutOfMemory> {
        self.push_last()?;
        let no = self.rows.add()?;
        Ok(no)
    }

    // Where a row that has needs changes, what was known of all rows is forgotten.
    fn set_edges(&mut self, no: TaskNo, edges: Edges) -> Result<(), OutOfMemory> {
        if self.rows.callees(no).is_empty() {
            return self.fill(no, edges);
        }
        self.lasts.clear();
        self.rows.set_edges(no, edges)?;
        Ok(())
    }

    fn callees(&self, no: TaskNo) -> &[TaskNo] {
        self.rows.callees(no)
    }

    fn callers(&self, no: TaskNo) -> Result<Vec<TaskNo>, OutOfMemory> {
        self.rows.callers(no)
    }

    fn readers_of(&self, path: &Path) -> Result<Vec<TaskNo>, OutOfMemory> {
        self.rows.readers_of(path)
    }

    fn listers_of(&self, dir: &Path) -> Result<Vec<TaskNo>, OutOfMemory> {
        self.rows.listers_of(dir)
    }

    fn writers_of(&self, path: &Path) -> Result<Vec<TaskNo>, OutOfMemory> {
        self.rows.writers_of(path)
    }
}
