//! Tasks that end.
ghost use Rattle.std.specs.Prelude.{◌≡◌, ◌<◌, ◌≤◌, drop, length, IfOk, OnOk};
ghost use Rattle.pie_graph.specs.Rows.{row_at};
ghost use Rattle.pie_walk.specs.Counts.{begins};
ghost use Rattle.pie_walk.specs.States.{settled, with_row};
ghost use Rattle.pie_frames.specs.inner.Standing.{Rests, Holds};
ghost use Rattle.pie_frames.specs.inner.Weights.{weight};
ghost use Rattle.pie_frames.specs.inner.Ended.{row_from};

use crate::Frames;
use pie_base::{OutOfMemory, Path};
use pie_graph::{Edges, TaskNo, TaskRows};
use std::alloc::Global;

impl<'a> Frames<'a> {
    /// The record of the task in hand stands: the task is settled.
    pub fn keep(&mut self, no: TaskNo)
        requires { Holds no self.old }
        ensures kept { self.new.walk ≡ settled self.old.walk no.0 }
        ensures parked { self.new.parked ≡ self.old.parked }
        ensures rests { Rests self.new }
        ensures weight { weight self.new ≤ weight self.old }
        ensures room { begins self.new.walk ≤ begins self.old.walk }
    {
        self.walk.keep(no);
    }

    /// The task in hand ends with these writes: it is settled. It requires what stands in its row from this place on.
    pub fn finish(&mut self, no: TaskNo, from: usize, writes: Vec<Path>) -> Result<(), OutOfMemory>
        requires { Holds no self.old }
        ensures finished { OnOk result (self.new.walk ≡ settled (with_row self.old.walk no.0 (row_from (row_at self.old.walk.rows no.0) from writes.items)) no.0) }
        ensures parked { self.new.parked ≡ self.old.parked }
        ensures rests { OnOk result (Rests self.new) }
        ensures weight { OnOk result (weight self.new ≤ weight self.old) }
        ensures room { OnOk result (begins self.new.walk ≤ begins self.old.walk) }
    {
        let needs = rest(self.alloc, self.walk.rows().callees(no), from)?;
        let edges = Edges {
            needs,
            reads: Vec::new(self.alloc),
            lists: Vec::new(self.alloc),
            writes,
        };
        self.walk.finish(no, edges)?;
        Ok(())
    }
}

// What stands in a list from a place on.
fn rest(alloc: Global, nos: &[TaskNo], from: usize) -> Result<Vec<TaskNo>, OutOfMemory>
    ensures { IfOk result (λ rest. rest.items ≡ drop from nos.now) }
{
    if from > nos.len() {
        return Ok(Vec::new(alloc));
    }
    let rest = Vec::from_slice(alloc, &nos[from..])?;
    Ok(rest)
}
