//! The walk goes on, up to the next task that is in hand; a task in hand waits.
ghost use Rattle.std.specs.Prelude.{◌≡◌, ◌<◌, ◌∷◌, ◌++◌, [], length, IfOk, MatchOption};
ghost use Rattle.pie_graph.specs.Numbers.{numbers};
ghost use Rattle.pie_graph.specs.Rows.{row_at};
ghost use Rattle.pie_order.specs.Cycles.{IsCycle, WouldCall};
ghost use Rattle.pie_value.specs.Canonical.{IsEncodableTask};
ghost use Rattle.pie_running.specs.inner.Frames.{IsWaiting};
ghost use Rattle.pie_frames.specs.inner.Standing.{Rests, Holds, HasFrom};
ghost use Rattle.pie_frames.specs.inner.Turns.{ComesNext, HasParked, Stays};

use crate::Frames;
use crate::parked::Parked;
use pie_base::OutOfMemory;
use pie_graph::TaskNo;
use pie_running::Caller;
use pie_walk::Turn;

/// What a build does next.
#[derive(Drop)]
pub enum Next<'a> {
    /// A scheduled task was taken: all that it requires is settled.
    Takes(TaskNo),
    /// This task can go on: all that it requires is settled.
    Answers(TaskNo, Parked<'a>),
    /// No task is on the stack.
    Idle,
}

impl<'a> Frames<'a> {
    /// Goes on until a scheduled task is taken, one that waits can go on, or nothing is left.
    pub fn next(&mut self) -> Result<Next<'a>, OutOfMemory>
        requires { Rests self.old }
        ensures { IfOk result (ComesNext self.old self.new) }
    {
        match self.walk.walk()? {
            Turn::Takes(no) => Ok(Next::Takes(no)),
            Turn::Answers(no) => Ok(Next::Answers(no, self.unpark())),
            Turn::Idle => Ok(Next::Idle),
        }
    }

    // The newest of the tasks that wait.
    fn unpark(&mut self) -> Parked<'a>
        requires { 0 < length self.old.parked.items }
        ensures taken { self.old.parked.items ≡ self.new.parked.items ++ result ∷ [] }
        ensures walk { self.new.walk ≡ self.old.walk }
    {
        match self.parked.pop() {
            Some(parked) => parked,
            None => unreachable!(),
        }
    }

    /// The task in hand requires another one, and waits until that is settled. The cycle is answered that the require would close,
    /// each task once, the least first; then nothing changes.
    pub fn park(
        &mut self,
        no: TaskNo,
        caller: Caller<'a>,
        from: usize,
        callee: TaskNo,
    ) -> Result<Option<Vec<TaskNo>>, OutOfMemory>
        requires holds { Holds no self.old }
        requires waits { IsWaiting caller.waiting }
        requires required { IsEncodableTask caller.required }
        requires number { callee.0 < length self.old.walk.rows }
        requires own { caller.waiting.notes.number ≡ no.0 }
        requires row { HasFrom (row_at self.old.walk.rows no.0) from caller.waiting.notes.needs }
        ensures parked { IfOk result (λ found. MatchOption found (HasParked self.old self.new no (record { caller = caller.entry; from = from; callee = callee }))
            (λ cycle. Stays self.old self.new)) }
        ensures cycle { IfOk result (λ found. MatchOption found Unit
            (λ cycle. IsCycle (WouldCall self.old.walk.rows no.0 callee.0) (numbers cycle.items))) }
    {
        match self.walk.require(no, callee)? {
            Some(cycle) => Ok(Some(cycle)),
            None => {
                let parked = Parked {
                    caller,
                    from,
                    callee,
                };
                self.parked.push(parked)?;
                Ok(None)
            }
        }
    }
}
