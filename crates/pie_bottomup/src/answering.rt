//! Tasks that waited, and are answered.
ghost use Rattle.std.specs.Prelude.{◌≡◌, ◌+◌, true, Some, IfOk, OnOk};
ghost use Rattle.pie_tables.specs.Tabled.{HasFailed, IsTables, IsGiven};
ghost use Rattle.pie_frames.specs.inner.Weights.{left_of};
ghost use Rattle.pie_base.specs.declared.fault.FaultKind.TheVariants.{Unknown};
ghost use Rattle.pie_record.specs.declared.task_record.Outcome.TheVariants.{Failed};
ghost use Rattle.pie_results.specs.inner.Failures.{is_done};
ghost use Rattle.pie_record.specs.declared.task_record.TaskRecord.{TaskRecord};
ghost use Rattle.pie_record.specs.inner.Records.{record_of};
ghost use Rattle.pie_bottomup.specs.inner.Going.{AnswersWhole, CallersWhole};
ghost use Rattle.pie_bottomup.specs.inner.Exact.{lost_task};
ghost use Rattle.pie_bottomup.specs.inner.Recorded.{HasOutput};
ghost use Rattle.pie_bottomup.specs.inner.States.{IsTaken, MayAnswer, GoesTo, Keeps, Nearer, rest};

use crate::state::{Core, InHand, Turn};
use pie_base::{FaultKind, OutOfMemory};
use pie_frames::Parked;
use pie_graph::TaskNo;
use pie_record::{Dep, DepKind, DepOn, Deps, Outcome, TaskRecord, Writes};
use pie_running::{Caller, Done, NoteParts};
use pie_value::{Fault, How, Stamp, Task};

impl<'a> Core<'a> {
    /// What a task required is settled: it goes on with the output, or fails as that one did.
    pub(crate) fn answer(&mut self, no: TaskNo, parked: Parked<'a>) -> Result<Turn, OutOfMemory>
        requires taken { IsTaken self.old no }
        requires answers { MayAnswer self.old no parked }
        ensures turns { IfOk result (GoesTo self.new) }
        ensures nearer { IfOk result (Nearer (rest self.old + left_of parked.entry) self.new) }
        ensures kept { OnOk result (Keeps self.old self.new) }
        ensures whole { IfOk result (AnswersWhole self.old no.0 parked.entry self.new) }
    {
        let Parked {
            caller,
            from,
            callee,
        } = parked;
        match self.outcome_of(callee, &caller)? {
            Outcome::Done(output) => {
                let Caller {
                    waiting,
                    required,
                    how,
                } = caller;
                let done = Done {
                    no: callee,
                    height: 0,
                    output,
                };
                let task = waiting.give(self.alloc, required, how, done)?;
                self.hand = Some(InHand { no, from, task });
                Ok(Turn::Went)
            }
            failed => self.end_below(no, from, caller, failed),
        }
    }

    // The task ends as the one did that it required: that is the last that it observed.
    #[tactic(auto, using(crate::proofs::Parts::named_encodable))]
    fn end_below(
        &mut self,
        no: TaskNo,
        from: usize,
        caller: Caller<'a>,
        outcome: Outcome,
    ) -> Result<Turn, OutOfMemory>
        requires taken { IsTaken self.old no }
        requires failed { HasFailed outcome }
        ensures turns { IfOk result (GoesTo self.new) }
        ensures nearer { IfOk result (Nearer (rest self.old + 1) self.new) }
        ensures kept { OnOk result (Keeps self.old self.new) }
        ensures failed { HasFailed outcome }
        ensures whole { IfOk result (CallersWhole self.old no from caller.entry outcome self.new) }
    {
        let Caller {
            waiting,
            required,
            how,
        } = caller;
        let NoteParts {
            mut deps,
            writes,
            ..
        } = waiting.into_notes().into_parts();
        deps.push(lost(how, required))?;
        let _names = self.tables.names.as_slice();
        let rec = TaskRecord {
            task: self.tables.names.task(no).copy()?,
            deps: Deps::new(deps),
            writes: Writes::new(writes),
            outcome,
        };
        self.end_with(no, from, rec)
    }

    // How the required task ended. One that has no record counts as one of no function.
    fn outcome_of(&self, callee: TaskNo, caller: &Caller<'a>) -> Result<Outcome, OutOfMemory>
        requires { IsTables self.now.tables }
        ensures given { IfOk result IsGiven }
        ensures output { IfOk result (λ o. is_done o ≡ true → HasOutput self.now.tables.records callee.0) }
        ensures is { IfOk result (λ o. (rec : TaskRecord) → record_of self.now.tables.records callee.0 ≡ Some rec → o ≡ rec.outcome) }
    {
        if let Some(outcome) = self.tables.outcome(callee)? {
            return Ok(outcome);
        }
        unknown(&caller.required)
    }
}

// The observation of a required task that gave no output.
fn lost(how: How, required: Task) -> Dep
    ensures { result ≡ lost_task how required }
{
    let kind = match how {
        How::Whole => DepKind::Require,
        How::Hashed => DepKind::RequireHash,
        How::Ran => DepKind::Run,
    };
    let what = DepOn::Called(required);
    let stamp = Stamp::Absent;
    Dep { kind, what, stamp }
}

/// How a task ends that is of no function.
pub(crate) fn unknown(task: &Task) -> Result<Outcome, OutOfMemory>
    ensures { IfOk result (λ o. o ≡ Failed (record { task = task.now; kind = Unknown })) }
{
    let task = task.copy()?;
    Ok(Outcome::Failed(Fault {
        task,
        kind: FaultKind::Unknown,
    }))
}
