//! Tasks that end.
ghost use Rattle.std.specs.Prelude.{◌≡◌, ◌<◌, ◌≤◌, ◌+◌, [], length, IfOk, OnOk};
ghost use Rattle.pie_topdown.specs.inner.Asking.{EndsSo};
ghost use Rattle.pie_topdown.specs.inner.Frames.{IsSite};
ghost use Rattle.pie_topdown.specs.inner.Handed.{IsEnding, IsOutput};
ghost use Rattle.pie_topdown.specs.inner.Right.{FailsSo};
ghost use Rattle.pie_topdown.specs.inner.Ran.{FallsWhole};
ghost use Rattle.pie_topdown.specs.inner.Roots.{Started};
ghost use Rattle.pie_topdown.specs.inner.Turns.{TurnsTo, below, Nearer, room, Fits, Keeps, FailsBy};
ghost use Rattle.pie_topdown.specs.inner.Unoffered.{GoesMarked};

use crate::builder::Builder;
use crate::hand::{Check, Frame, Hand, Turn};
use pie_base::{FaultKind, OutOfMemory};
use pie_graph::TaskNo;
use pie_record::{Deps, Outcome, TaskRecord, Writes};
use pie_running::{NoteParts, Notes};
use pie_value::{Fault, Refusal, Value, encode};
use pie_vm::Runs;

impl<'a> Builder<'a> {
    /// The task that runs is done with this output.
    pub(crate) fn done(
        &mut self,
        no: TaskNo,
        notes: Notes,
        output: Value,
    ) -> Result<Turn<'a>, OutOfMemory>
        requires { IsEnding self.old no.0 notes }
        ensures turns { IfOk result (TurnsTo self.new) }
        ensures nearer { IfOk result (Nearer (below self.old + 1) self.new) }
        ensures fits { IfOk result (Fits (room self.old) self.new) }
        ensures kept { OnOk result (Keeps self.old self.new) }
        ensures marks { IfOk result (GoesMarked self.old self.new) }
        ensures right { IfOk result (EndsSo self.old notes output self.new) }
    {
        if !output.is_small() {
            return self.fail(no, FaultKind::Big);
        }
        let _bytes = encode(self.alloc, &output)?;
        self.done_small(no, notes, output)
    }

    // The same with an output within the limits.
    #[tactic(auto, using(crate::proofs::Stacking::grown_site))]
    fn done_small(
        &mut self,
        no: TaskNo,
        notes: Notes,
        output: Value,
    ) -> Result<Turn<'a>, OutOfMemory>
        requires ends { IsEnding self.old no.0 notes }
        requires output { IsOutput output }
        ensures turns { IfOk result (TurnsTo self.new) }
        ensures nearer { IfOk result (Nearer (below self.old + 1) self.new) }
        ensures fits { IfOk result (Fits (room self.old) self.new) }
        ensures kept { OnOk result (Keeps self.old self.new) }
        ensures marks { IfOk result (GoesMarked self.old self.new) }
        ensures right { IfOk result (EndsSo self.old notes output self.new) }
    {
        let NoteParts {
            task,
            deps,
            writes,
            needs,
            ..
        } = notes.into_parts();
        let rec = TaskRecord {
            task,
            deps: Deps::new(deps),
            writes: Writes::new(writes),
            outcome: Outcome::Done(output),
        };
        self.ledger.end(no, rec, needs)?;
        Ok(Turn::Goes(Hand::Ended))
    }

    /// The task that runs fails in this way.
    pub(crate) fn fail(&mut self, no: TaskNo, kind: FaultKind) -> Result<Turn<'a>, OutOfMemory>
        requires site { IsSite self.old }
        requires number { no.0 < length self.old.ledger.tables.names }
        ensures turns { IfOk result (TurnsTo self.new) }
        ensures nearer { IfOk result (Nearer (below self.old + 1) self.new) }
        ensures fits { IfOk result (Fits (room self.old) self.new) }
        ensures kept { OnOk result (Keeps self.old self.new) }
        ensures marks { IfOk result (GoesMarked self.old self.new) }
        ensures right { IfOk result (FailsSo self.old no.0 kind self.new) }
    {
        let task = self.ledger.tables.names.task(no).copy()?;
        Ok(self.fail_as(Refusal::Fault(Fault { task, kind })))
    }

    /// A task fails, which is why the build does.
    pub(crate) fn fail_as(&mut self, why: Refusal) -> Turn<'a>
        requires site { IsSite self.old }
        ensures turns { TurnsTo self.new result }
        ensures nearer { Nearer (below self.old + 1) self.new result }
        ensures fits { Fits (room self.old) self.new result }
        ensures kept { Keeps self.old self.new }
        ensures marks { GoesMarked self.old self.new result }
        ensures fails { FailsBy self.old why self.new result }
    {
        self.failure = Some(why);
        Turn::Fails
    }

    /// A task failed: those of the checks that wait start too, since each requires one that fails, and so fails as that one did.
    pub(crate) fn start_waiting(&mut self, runs: &mut Runs) -> Result<(), OutOfMemory>
        requires site { IsSite self.old }
        ensures rest { OnOk result (self.new ≡ record self.old { ledger = self.new.ledger; stack = self.new.stack }) }
        ensures names { OnOk result (self.new.ledger.tables.names ≡ self.old.ledger.tables.names) }
        ensures empty { OnOk result (self.new.stack.items ≡ []) }
        ensures started { Started runs.old runs.new }
        ensures few { length runs.new ≤ length runs.old + room self.old }
        ensures falls { OnOk result (FallsWhole self.old self.new runs.old runs.new) }
    {
        'waiting: loop {
            match self.stack.pop() {
                Some(Frame::Checks(check)) => {
                    let Check { no, code, .. } = Box::into_inner(check);
                    let _task = self.begin_run(no, code, runs)?;
                }
                Some(Frame::Waits(_caller)) => {}
                None => return Ok(()),
            }
        }
    }
}
