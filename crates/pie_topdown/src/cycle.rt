//! Cycles of tasks on the stack.
ghost use Rattle.std.specs.Prelude.{◌≡◌, ◌++◌, ◌∷◌, ◌+◌, [], IfOk, OnOk};
ghost use Rattle.pie_topdown.specs.inner.Calling.{ClosesBy, joins, joins_by, tasks_from};
ghost use Rattle.pie_topdown.specs.inner.Frames.{IsSite};
ghost use Rattle.pie_topdown.specs.inner.Turns.{TurnsTo, below, Nearer, room, Fits, Keeps};
ghost use Rattle.pie_topdown.specs.inner.Unoffered.{GoesMarked};

use crate::builder::Builder;
use crate::hand::{Frame, Turn};
use pie_base::OutOfMemory;
use pie_graph::TaskNo;
use pie_value::{Refusal, Task, Tasks};

impl<'a> Builder<'a> {
    /// The task with this number, which stands on the stack, is required by the one above it: the build fails by their cycle.
    pub(crate) fn close(&mut self, from: TaskNo, top: &Task) -> Result<Turn<'a>, OutOfMemory>
        requires site { IsSite self.old }
        ensures turns { IfOk result (TurnsTo self.new) }
        ensures nearer { IfOk result (Nearer (below self.old + 1) self.new) }
        ensures fits { IfOk result (Fits (room self.old) self.new) }
        ensures kept { OnOk result (Keeps self.old self.new) }
        ensures marks { IfOk result (GoesMarked self.old self.new) }
        ensures closed { IfOk result (ClosesBy self.old from.0 top.now self.new) }
    {
        let tasks = self.cycle(from, top)?;
        Ok(self.fail_as(Refusal::Cycle(tasks)))
    }

    // The tasks on the stack from the one with this number on, and the one above them.
    fn cycle(&self, from: TaskNo, top: &Task) -> Result<Tasks, OutOfMemory>
        ensures { IfOk result (λ tasks. tasks ≡ tasks_from from.0 self.now.stack.items ++ top.now ∷ []) }
    {
        let mut tasks = Vec::new(self.alloc);
        for frame in &self.stack {
            note(&mut tasks, frame, from)?;
        }
        tasks.push(top.copy()?)?;
        Ok(Tasks::new(tasks))
    }
}

// The task of a frame is in the cycle where it has this number, or one below it does.
fn note(tasks: &mut Vec<Task>, frame: &Frame, from: TaskNo) -> Result<(), OutOfMemory>
    ensures { OnOk result (tasks.new.items ≡ joins_by from.0 tasks.old.items frame.now) }
{
    match frame {
        Frame::Checks(check) => put(tasks, check.no, &check.rec.task, from),
        Frame::Waits(caller) => {
            let notes = &caller.waiting.notes;
            put(tasks, notes.no(), notes.task(), from)
        }
    }
}

fn put(tasks: &mut Vec<Task>, no: TaskNo, task: &Task, from: TaskNo) -> Result<(), OutOfMemory>
    ensures { OnOk result (tasks.new.items ≡ joins from.0 tasks.old.items no.0 task.now) }
{
    if tasks.is_empty() && no.0 != from.0 {
        return Ok(());
    }
    tasks.push(task.copy()?)?;
    Ok(())
}
