//! The walk of a build with the tasks that wait on it.
ghost use Rattle.std.specs.Prelude.{◌≡◌, ◌<◌, ◌≤◌, [], length, IfOk, OnOk};
ghost use Rattle.pie_graph.specs.declared.edges.TaskNo.{TaskNo};
ghost use Rattle.pie_walk.specs.Counts.{begins};
ghost use Rattle.pie_walk.specs.States.{met, with_one_more};
ghost use Rattle.pie_walk.specs.Standing.{Stands};
ghost use Rattle.pie_frames.specs.inner.Standing.{Rests, Holds};
ghost use Rattle.pie_frames.specs.inner.Weights.{weight, TakesNoRoom};

use crate::parked::Parked;
use pie_base::{MAX_TASKS, OutOfMemory};
use pie_graph::TaskNo;
use pie_walk::Walk;
use std::alloc::Global;

/// The walk of a build, and the tasks that were taken and wait on it.
/// A call that runs out of memory leaves frames that are of no use.
#[derive(Drop)]
pub struct Frames<'a> {
    pub(crate) alloc: Global,
    pub walk: Walk,
    /// The newest stands last.
    pub parked: Vec<Parked<'a>>,
}

impl<'a> Frames<'a> {
    /// A walk with an empty stack, on which no task waits.
    pub fn new(alloc: Global, walk: Walk) -> Frames<'a>
        requires stands { Stands walk }
        requires empty { walk.stack ≡ [] }
        ensures walk { result.walk ≡ walk }
        ensures none { result.parked.items ≡ [] }
        ensures rests { Rests result }
    {
        Frames {
            alloc,
            walk,
            parked: Vec::new(alloc),
        }
    }

    /// The walk.
    pub fn walk(&self) -> &Walk
        ensures { result.now ≡ self.now.walk }
    {
        &self.walk
    }

    /// The number of a task that comes later. It is scheduled, since it has to run, and requires nothing so far.
    pub fn add(&mut self) -> Result<TaskNo, OutOfMemory>
        requires stands { Stands self.old.walk }
        requires few { length self.old.walk.rows < MAX_TASKS }
        ensures number { IfOk result (λ no. no.0 ≡ length self.old.walk.rows) }
        ensures added { OnOk result (self.new.walk ≡ with_one_more self.old.walk) }
        ensures parked { self.new.parked ≡ self.old.parked }
        ensures rests { Rests self.old → OnOk result (Rests self.new) }
        ensures holds { (task : TaskNo) → Holds task self.old → OnOk result (Holds task self.new) }
        ensures room { OnOk result (TakesNoRoom self.old self.new) }
    {
        let no = self.walk.add()?;
        Ok(no)
    }

    /// Begins at a root, while the stack is empty. A root that is settled leaves it empty.
    pub fn begin(&mut self, root: TaskNo) -> Result<(), OutOfMemory>
        requires rests { Rests self.old }
        requires idle { self.old.walk.stack ≡ [] }
        requires number { root.0 < length self.old.walk.rows }
        ensures began { OnOk result (self.new.walk ≡ met self.old.walk root) }
        ensures parked { self.new.parked ≡ self.old.parked }
        ensures rests { OnOk result (Rests self.new) }
        ensures weight { OnOk result (weight self.new ≤ weight self.old) }
        ensures room { OnOk result (begins self.new.walk ≤ begins self.old.walk) }
    {
        self.walk.begin(root)?;
        Ok(())
    }
}
