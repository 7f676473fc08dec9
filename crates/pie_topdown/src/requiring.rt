//! Tasks that the task that runs requires.
ghost use Rattle.std.specs.List.{Contains};
ghost use Rattle.std.specs.Prelude.{◌≡◌, ◌+◌, ◌*◌, Some, slice_get, IfOk, OnOk};
ghost use Rattle.pie_value.specs.declared.event.Event.TheVariants as events;
ghost use Rattle.pie_topdown.specs.inner.Asking.{ActsSo};
ghost use Rattle.pie_topdown.specs.inner.Calling.{AnswersSo, CallsSo, DescendsSo, GivesSo, LosesSo};
ghost use Rattle.pie_topdown.specs.inner.Handed.{Awaits, IsAnswered, IsAsking, IsEnterable};
ghost use Rattle.pie_topdown.specs.inner.Turns.{TurnsTo, below, Nearer, room, Fits, Keeps};
ghost use Rattle.pie_topdown.specs.inner.Unoffered.{ComparesNothing, GoesMarked};

use crate::builder::Builder;
use crate::entering::Entry;
use crate::hand::{Frame, Hand, Turn};
use crate::roots::unknown;
use pie_base::{FaultKind, OutOfMemory};
use pie_code::Checked;
use pie_graph::TaskNo;
use pie_record::Outcome;
use pie_running::{Caller, Done, Waiting};
use pie_value::{How, Task, Value, encode_task};

impl<'a> Builder<'a> {
    /// A task is required: it is answered from how it ended, or is entered and settled first.
    pub(crate) fn require(
        &mut self,
        no: TaskNo,
        waiting: Waiting<'a>,
        required: Task,
        how: How,
    ) -> Result<Turn<'a>, OutOfMemory>
        requires { IsAsking self.old no.0 waiting }
        ensures turns { IfOk result (TurnsTo self.new) }
        ensures nearer { IfOk result (Nearer (below self.old + (2 * waiting.entry.notes.left + 1)) self.new) }
        ensures fits { IfOk result (Fits (room self.old) self.new) }
        ensures kept { OnOk result (Keeps self.old self.new) }
        ensures marks { IfOk result (GoesMarked self.old self.new) }
        ensures right { IfOk result (ActsSo self.old waiting.entry (events.Require required how) self.new) }
    {
        if !required.is_small() {
            return self.fail(no, FaultKind::Big);
        }
        let caller = Caller {
            waiting,
            required,
            how,
        };
        match self.ledger.tables.names.number(&caller.required)? {
            Some(callee) => self.answer(caller, callee),
            None => self.descend_from(caller),
        }
    }

    /// The task that a caller waited for has ended.
    pub(crate) fn answer_again(&mut self, caller: Caller<'a>) -> Result<Turn<'a>, OutOfMemory>
        requires { Awaits self.old caller }
        ensures turns { IfOk result (TurnsTo self.new) }
        ensures nearer { IfOk result (Nearer (below self.old + (2 * caller.entry.waiting.notes.left + 1)) self.new) }
        ensures fits { IfOk result (Fits (room self.old) self.new) }
        ensures kept { OnOk result (Keeps self.old self.new) }
        ensures marks { IfOk result (GoesMarked self.old self.new) }
        ensures right { IfOk result (AnswersSo self.old caller.entry self.new) }
    {
        match self.ledger.tables.names.number(&caller.required)? {
            Some(callee) => self.answer(caller, callee),
            None => self.fail_as_unknown(caller),
        }
    }

    // An entered task is required. Where it hasn't ended with an output, it stands on the stack, since a build stops where a task fails.
    fn answer(&mut self, caller: Caller<'a>, callee: TaskNo) -> Result<Turn<'a>, OutOfMemory>
        requires waits { Awaits self.old caller }
        requires named { slice_get self.old.ledger.tables.names callee.0 ≡ Some caller.required }
        ensures turns { IfOk result (TurnsTo self.new) }
        ensures nearer { IfOk result (Nearer (below self.old + (2 * caller.entry.waiting.notes.left + 1)) self.new) }
        ensures fits { IfOk result (Fits (room self.old) self.new) }
        ensures kept { OnOk result (Keeps self.old self.new) }
        ensures marks { IfOk result (GoesMarked self.old self.new) }
        ensures right { IfOk result (CallsSo self.old caller.entry self.new) }
    {
        match self.ledger.outcome(callee)? {
            Some(Outcome::Done(output)) => self.give(caller, callee, output),
            _ => self.close(callee, caller.waiting.notes.task()),
        }
    }

    // The task goes on with the output of the one that it required.
    fn give(
        &self,
        caller: Caller<'a>,
        callee: TaskNo,
        output: Value,
    ) -> Result<Turn<'a>, OutOfMemory>
        requires { IsAnswered self.now caller callee.0 output }
        ensures turns { IfOk result (TurnsTo self.now) }
        ensures nearer { IfOk result (Nearer (below self.now + (2 * caller.entry.waiting.notes.left + 1)) self.now) }
        ensures fits { IfOk result (Fits (room self.now) self.now) }
        ensures turn { IfOk result ComparesNothing }
        ensures right { IfOk result (GivesSo self.now caller.entry callee.0 output self.now) }
    {
        let Caller {
            waiting,
            required,
            how,
        } = caller;
        let done = Done {
            no: callee,
            height: 0,
            output,
        };
        let task = waiting.give(self.alloc, required, how, done)?;
        Ok(Turn::Goes(Hand::Runs(task)))
    }

    // A task that wasn't entered is required.
    fn descend_from(&mut self, caller: Caller<'a>) -> Result<Turn<'a>, OutOfMemory>
        requires waits { Awaits self.old caller }
        requires absent { ¬ (Contains self.old.ledger.tables.names caller.required) }
        ensures turns { IfOk result (TurnsTo self.new) }
        ensures nearer { IfOk result (Nearer (below self.old + (2 * caller.entry.waiting.notes.left + 1)) self.new) }
        ensures fits { IfOk result (Fits (room self.old) self.new) }
        ensures kept { OnOk result (Keeps self.old self.new) }
        ensures marks { IfOk result (GoesMarked self.old self.new) }
        ensures right { IfOk result (DescendsSo self.old caller.entry self.new) }
    {
        match self.entry(&caller.required) {
            Entry::May(code) => self.push_caller(caller, code),
            Entry::Unknown => {
                let _bytes = encode_task(self.alloc, &caller.required)?;
                self.fail_as_unknown(caller)
            }
            Entry::Full => {
                let _bytes = encode_task(self.alloc, &caller.required)?;
                Ok(Turn::Many)
            }
        }
    }

    // The required task is entered, and the caller waits for it.
    fn push_caller(
        &mut self,
        caller: Caller<'a>,
        code: &'a Checked,
    ) -> Result<Turn<'a>, OutOfMemory>
        requires waits { Awaits self.old caller }
        requires enters { IsEnterable self.old caller.required code.now }
        ensures turns { IfOk result (TurnsTo self.new) }
        ensures nearer { IfOk result (Nearer (below self.old + (2 * caller.entry.waiting.notes.left + 1)) self.new) }
        ensures fits { IfOk result (Fits (room self.old) self.new) }
        ensures kept { OnOk result (Keeps self.old self.new) }
        ensures marks { IfOk result (GoesMarked self.old self.new) }
        ensures right { IfOk result (DescendsSo self.old caller.entry self.new) }
    {
        let no = self.enter(caller.required.copy()?, code)?;
        self.stack.push(Frame::Waits(caller))?;
        Ok(Turn::Goes(Hand::Enters(no, code)))
    }

    // The required task is of no function.
    fn fail_as_unknown(&mut self, caller: Caller<'a>) -> Result<Turn<'a>, OutOfMemory>
        requires { Awaits self.old caller }
        ensures turns { IfOk result (TurnsTo self.new) }
        ensures nearer { IfOk result (Nearer (below self.old + (2 * caller.entry.waiting.notes.left + 1)) self.new) }
        ensures fits { IfOk result (Fits (room self.old) self.new) }
        ensures kept { OnOk result (Keeps self.old self.new) }
        ensures marks { IfOk result (GoesMarked self.old self.new) }
        ensures right { IfOk result (LosesSo self.old caller.entry self.new) }
    {
        let Caller { required, .. } = caller;
        Ok(self.fail_as(unknown(required)))
    }
}
