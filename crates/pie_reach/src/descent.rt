//! A walk down from each task that finishes a task after all that it requires.
ghost use Rattle.std.specs.Prelude.{◌≡◌, ℕ, ◌+◌, ◌<◌, MatchOption, [], ◌∷◌, ◌++◌, length, map, max, IfOk, OnOk, slice_set};
ghost use Rattle.pie_graph.specs.Numbers.{numbers, AllBelow};
ghost use Rattle.pie_reach.specs.inner.Reaches.{height_over};
ghost use Rattle.pie_reach.specs.inner.Descents.{state_of, height_of, height_at, Descends, Turns, Finds, Visits, HasCycle, AllDone};
ghost use Rattle.pie_reach.specs.declared.descent.State.TheVariants.{New, Open};

use pie_base::OutOfMemory;
use pie_graph::{TaskNo, TaskRows};
use std::alloc::Global;

/// How far a task has come.
#[derive(Clone, Copy)]
pub(crate) enum State {
    /// It wasn't met.
    New,
    /// It stands on the stack.
    Open,
    /// All that it requires is done; its height.
    Done(u32),
}

/// A task on the stack, and which of its required tasks comes next.
#[derive(Clone, Copy)]
pub(crate) struct Visit {
    pub(crate) no: TaskNo,
    pub(crate) next: usize,
}

/// The result of one turn.
#[derive(Clone, Copy)]
pub(crate) enum Turn {
    /// It went on.
    Went,
    /// The stack was empty.
    Ended,
    /// A required task stands on the stack.
    Cycle,
}

/// The walk: each task of the stack is required by the one below it.
#[derive(Drop)]
pub(crate) struct Descent {
    pub(crate) states: Vec<State>,
    pub(crate) stack: Vec<Visit>,
}

impl Descent {
    /// No task was met.
    pub(crate) fn new(alloc: Global, count: u32) -> Result<Descent, OutOfMemory>
        ensures size { IfOk result (λ d. length d.states.items ≡ count) }
        ensures new { IfOk result (λ d. (n : ℕ) → state_of d.states.items n ≡ New) }
        ensures empty { IfOk result (λ d. d.stack.items ≡ []) }
    {
        let states = vec![in alloc; State::New; count as usize]?;
        let stack = Vec::new(alloc);
        Ok(Descent { states, stack })
    }

    // Puts a task on the stack.
    fn enter(&mut self, no: TaskNo) -> Result<(), OutOfMemory>
        requires { no.0 < length self.old.states.items }
        ensures states { OnOk result (self.new.states.items ≡ slice_set self.old.states.items no.0 Open) }
        ensures stack { OnOk result (self.new.stack.items ≡ self.old.stack.items ++ record { no = no; next = 0 } ∷ []) }
    {
        self.states[no.0 as usize] = State::Open;
        self.stack.push(Visit { no, next: 0 })?;
        Ok(())
    }

    // One turn: the task on top goes on to its next required task, or is done.
    fn turn<R: TaskRows>(&mut self, rows: &R) -> Result<Turn, OutOfMemory>
        requires { Descends (R.rows rows.now) self.old }
        ensures { IfOk result (Turns (R.rows rows.now) self.old self.new) }
    {
        let Some(frame) = self.stack.pop() else {
            return Ok(Turn::Ended);
        };
        let callees = rows.callees(frame.no);
        if frame.next >= callees.len() {
            let height = height_over(self.states.as_slice(), callees)?;
            self.states[frame.no.0 as usize] = State::Done(height);
            return Ok(Turn::Went);
        }
        let callee = callees[frame.next];
        match self.states[callee.0 as usize] {
            State::Done(_) => {
                self.stack.push(Visit {
                    no: frame.no,
                    next: frame.next + 1,
                })?;
                Ok(Turn::Went)
            }
            State::Open => Ok(Turn::Cycle),
            State::New => {
                self.stack.push(frame)?;
                self.enter(callee)?;
                Ok(Turn::Went)
            }
        }
    }

    // Goes on until the stack is empty, or a cycle is found.
    fn run<R: TaskRows>(&mut self, rows: &R) -> Result<bool, OutOfMemory>
        requires { Descends (R.rows rows.now) self.old }
        ensures { IfOk result (Finds (R.rows rows.now) self.old self.new) }
    {
        loop {
            match self.turn(rows)? {
                Turn::Went => {}
                Turn::Ended => return Ok(false),
                Turn::Cycle => return Ok(true),
            }
        }
    }

    // A task and all that it requires are done, or a cycle is found.
    fn visit<R: TaskRows>(&mut self, rows: &R, no: TaskNo) -> Result<bool, OutOfMemory>
        requires number { no.0 < length (R.rows rows.now) }
        requires empty { self.old.stack.items ≡ [] }
        requires holds { Descends (R.rows rows.now) self.old }
        ensures { IfOk result (Visits (R.rows rows.now) self.old self.new no.0) }
    {
        match self.states[no.0 as usize] {
            State::New => {
                self.enter(no)?;
                let cycle = self.run(rows)?;
                Ok(cycle)
            }
            State::Open => Ok(false),
            State::Done(_) => Ok(false),
        }
    }
}

/// The states of all tasks, each of them done; none where there is a cycle.
pub(crate) fn descend<R: TaskRows>(
    alloc: Global,
    rows: &R,
) -> Result<Option<Vec<State>>, OutOfMemory>
    ensures { IfOk result (λ found. MatchOption found (HasCycle (R.rows rows.now)) (λ states. AllDone (R.rows rows.now) states.items)) }
{
    let count = rows.count();
    let mut descent = Descent::new(alloc, count)?;
    for i in 0..count {
        if descent.visit(rows, TaskNo(i))? {
            return Ok(None);
        }
    }
    let Descent { states, stack } = descent;
    drop(stack);
    Ok(Some(states))
}

// One more than the greatest height of these, all of them done. A height that didn't fit 32 bits
// would count as out of memory; there are too few tasks for one.
fn height_over(states: &[State], callees: &[TaskNo]) -> Result<u32, OutOfMemory>
    requires { AllBelow (length states.now) (numbers callees.now) }
    ensures { IfOk result (λ h. h ≡ height_over (map (height_at states.now) (numbers callees.now))) }
{
    let mut greatest = 0;
    for callee in callees {
        greatest = over(states[callee.0 as usize], greatest)?;
    }
    Ok(greatest)
}

fn over(state: State, height: u32) -> Result<u32, OutOfMemory>
    ensures { IfOk result (λ h. h ≡ max (height_of state + 1) height) }
{
    let own = match state {
        State::Done(own) => own,
        _ => 0,
    };
    let over = own.checked_add(1).ok_or(OutOfMemory)?;
    Ok(over.max(height))
}
