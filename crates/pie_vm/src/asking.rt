//! The instructions that ask the outside.
ghost use Rattle.std.specs.Prelude.{◌≡◌, Ok, Some, length, ◌≤◌, slice_get, OnOk};
ghost use Rattle.pie_operators.specs.Domain.{by_answer};
ghost use Rattle.pie_operators.specs.inner.Agreement.{ResultAgrees};
ghost use Rattle.pie_operators.specs.Effects.{noted, observe, require, taken as spec_taken, write, write_bytes};
ghost use Rattle.pie_code.specs.Running.{act_on, pop, pop_many, pop_two, require_named, settle};
ghost use Rattle.pie_vm.specs.Steps.{Moved, Turned, ask, told as spec_told, took, without};

use crate::Frame;
use crate::ending::Ending;
use pie_base::{FaultKind, OutOfMemory, Path, Text};
use pie_code::Required;
use pie_operators::{Observation, Question, is_content, may_observe, taken};
use pie_value::{Answer, Blob, Event, Task, Value};

impl Frame {
    /// Observes the path on the stack.
    pub(crate) fn observe(&mut self, what: Observation) -> Result<Option<Event>, OutOfMemory>
        ensures { Turned result self.old self.new (pop self.old (λ a d. act_on (observe what a) d)) }
    {
        let path = match self.stack.top() {
            Some(Value::Path(path)) => path.copy()?,
            _ => return failed(FaultKind::Unknown),
        };
        if may_observe(what, &path) {
            self.ask(Question::Observe(what, path), 1)
        } else {
            failed(FaultKind::BadList)
        }
    }

    /// Writes the text or the bytes on the stack to the path under them.
    pub(crate) fn write(&mut self) -> Result<Option<Event>, OutOfMemory>
        ensures { Turned result self.old self.new (pop_two self.old (λ a b d. act_on (write a b) d)) }
    {
        match self.stack.top_two() {
            Some((Value::Path(path), Value::Text(text))) => {
                let path = path.copy()?;
                let bytes = Vec::from_slice(self.alloc, text.as_str().as_bytes())?;
                let bytes = Blob::shared(self.alloc, bytes)?;
                self.write_bytes(path, bytes)
            }
            Some((Value::Path(path), Value::Bytes(bytes))) => {
                let path = path.copy()?;
                let bytes = bytes.copy()?;
                self.write_bytes(path, bytes)
            }
            _ => failed(FaultKind::Unknown),
        }
    }

    // Writes bytes to an out path that the task has neither written nor observed.
    fn write_bytes(&mut self, path: Path, bytes: Blob) -> Result<Option<Event>, OutOfMemory>
        requires { 2 ≤ length self.old.stack }
        ensures { Turned result self.old self.new (act_on (write_bytes path bytes) (without 2 self.old)) }
    {
        if !path.under_out() {
            return failed(FaultKind::BadWrite);
        }
        if self.wrote.contains(&path) {
            return failed(FaultKind::WroteTwice);
        }
        if self.seen.contains(&path) {
            return failed(FaultKind::ReadThenWrite);
        }
        self.ask(Question::Write(path, bytes), 2)
    }

    /// Requires a task, by the name of its function.
    pub(crate) fn require(
        &mut self,
        texts: &[Text],
        required: Required,
    ) -> Result<Option<Event>, OutOfMemory>
        ensures { Turned result self.old self.new (require_named required (slice_get texts.now required.func) self.old) }
    {
        match texts.get(required.func as usize) {
            Some(func) => self.require_task(func, required),
            None => failed(FaultKind::Unknown),
        }
    }

    // Requires a task of this function.
    fn require_task(
        &mut self,
        func: &Text,
        required: Required,
    ) -> Result<Option<Event>, OutOfMemory>
        ensures { Turned result self.old self.new (pop_many required.count self.old (λ ts d. act_on (require required.how func.now ts) d)) }
    {
        let count = required.count as usize;
        if self.stack.len() < count {
            return failed(FaultKind::Unknown);
        }
        let args = self.stack.top_copies(self.alloc, count)?;
        let task = Task {
            func: func.copy()?,
            args,
        };
        if task.is_small() {
            self.ask(Question::Require(task, required.how), count)
        } else {
            failed(FaultKind::Big)
        }
    }

    // Puts a question, whose operands are so many values, or takes the answer that waits.
    #[tactic(auto, using(crate::proofs::Turning::asks, crate::proofs::Turning::moved_turned))]
    fn ask(&mut self, question: Question, count: usize) -> Result<Option<Event>, OutOfMemory>
        requires { count ≤ length self.old.stack }
        ensures { Turned result self.old self.new (ask question (without count self.old)) }
    {
        match self.answer.take() {
            None => Ok(Some(question.into_event())),
            Some(answer) => {
                self.stack.drop_top(count);
                told(self.take(question, answer))
            }
        }
    }

    // Takes the answer to a question.
    fn take(&mut self, question: Question, answer: Answer) -> Result<Option<Ending>, OutOfMemory>
        ensures { Moved result self.new (took question answer self.old) }
    {
        self.note(&question)?;
        self.taken(question, answer)
    }

    #[tactic(auto, using(crate::proofs::Settling::settled))]
    fn taken(&mut self, question: Question, answer: Answer) -> Result<Option<Ending>, OutOfMemory>
        ensures { Moved result self.new (act_on (by_answer (spec_taken question answer)) self.old) }
    {
        let value = taken(self.alloc, &question, answer);
        self.settle(value)
    }

    // Notes the path that is observed or written.
    fn note(&mut self, question: &Question) -> Result<(), OutOfMemory>
        ensures { OnOk result (self.new ≡ record self.old { state = noted question.now self.old.state }) }
    {
        match question {
            Question::Observe(what, path) => {
                if is_content(*what) {
                    self.seen.add(path)?;
                }
                Ok(())
            }
            Question::Write(path, _) => self.wrote.add(path),
            Question::Require(_, _) => Ok(()),
        }
    }
}

// A fault of the task.
fn failed(kind: FaultKind) -> Result<Option<Event>, OutOfMemory>
    ensures { result ≡ Ok (Some (Event.Fail kind)) }
{
    Ok(Some(Event::Fail(kind)))
}

/// How running ended, as an event.
pub(crate) fn told(
    ending: Result<Option<Ending>, OutOfMemory>,
) -> Result<Option<Event>, OutOfMemory>
    ensures { result ≡ spec_told ending }
{
    match ending {
        Ok(None) => Ok(None),
        Ok(Some(Ending::Done(value))) => Ok(Some(Event::Done(value))),
        Ok(Some(Ending::Fail(kind))) => Ok(Some(Event::Fail(kind))),
        Err(fault) => Err(fault),
    }
}
