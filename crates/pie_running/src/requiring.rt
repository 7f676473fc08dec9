//! What a running task is told of a task that it requires.
ghost use Rattle.std.specs.Prelude.{◌≡◌, ◌<◌, ◌-◌, ◌^◌, IfOk};
ghost use Rattle.pie_value.specs.Canonical.{IsEncodable, IsEncodableTask};
ghost use Rattle.pie_value.specs.Values.{tree_of};
ghost use Rattle.pie_value.specs.declared.event.How.TheVariants as hows;
ghost use Rattle.pie_record.specs.Canonical.{IsStorableDep, IsStorableStamp};
ghost use Rattle.pie_record.specs.declared.dep.DepOn.TheVariants.{Called};
ghost use Rattle.pie_builder_laws.specs.Requiring.{of_task, requiring_answer, requiring_stamp};
ghost use Rattle.pie_running.specs.inner.Noted.{required as with_task};
ghost use Rattle.pie_running.specs.inner.Told.{IsTold};
ghost use Rattle.pie_running.specs.inner.Frames.{IsReady, IsWaiting};
ghost use Rattle.pie_running.specs.inner.Steps.{Given};

use crate::frame::{RunningTask, Waiting};
use pie_base::OutOfMemory;
use pie_graph::TaskNo;
use pie_record::{Dep, DepKind, DepOn};
use pie_stamp::{ByHash, Observed, Stamper};
use pie_value::{Answer, How, Stamp, Task, Value};
use std::alloc::Global;

/// What a task gave that is done.
#[derive(Drop)]
pub struct Done {
    pub no: TaskNo,
    pub height: u32,
    pub output: Value,
}

impl<'a> Waiting<'a> {
    /// Tells the task what the task gave that it requires.
    pub fn give(
        self,
        alloc: Global,
        required: Task,
        how: How,
        done: Done,
    ) -> Result<RunningTask<'a>, OutOfMemory>
        requires waits { IsWaiting self }
        requires required { IsEncodableTask required }
        requires output { IsEncodable (tree_of done.output) }
        requires height { done.height < 2 ^ 32 - 1 }
        ensures ready { IfOk result (λ f. IsReady f × Given (Called required) done.no.0 done.height self.entry.notes f.notes) }
        ensures told { IfOk result (λ f. IsTold self.entry f (with_task (of_task how required done.output) done.no.0 done.height self.entry.notes)
            (requiring_answer how done.output)) }
    {
        let Done { no, height, output } = done;
        let dep = dep_of(alloc, how, required, &output)?;
        told_output(self, dep, no, height, output_answer(how, output))
    }
}

// A task that is told the output of the task with this number and height.
#[tactic(auto, using(crate::proofs::Noting::required_sound_as, crate::proofs::Noting::required_given))]
fn told_output<'a>(
    waiting: Waiting<'a>,
    dep: Dep,
    no: TaskNo,
    height: u32,
    answer: Answer,
) -> Result<RunningTask<'a>, OutOfMemory>
    requires waits { IsWaiting waiting }
    requires dep { IsStorableDep dep }
    requires height { height < 2 ^ 32 - 1 }
    ensures ready { IfOk result (λ f. IsReady f × Given dep.what no.0 height waiting.entry.notes f.notes) }
    ensures told { IfOk result (λ f. IsTold waiting.entry f (with_task dep no.0 height waiting.entry.notes) answer) }
{
    let mut waiting = waiting;
    waiting.notes.required(dep, no, height)?;
    Ok(waiting.answered(answer))
}

// The observation of a required task that has this output.
fn dep_of(alloc: Global, how: How, required: Task, output: &Value) -> Result<Dep, OutOfMemory>
    requires required { IsEncodableTask required }
    requires output { IsEncodable (tree_of output.now) }
    ensures storable { IfOk result IsStorableDep }
    ensures on { IfOk result (λ d. d.what ≡ Called required) }
    ensures is { IfOk result (λ d. d ≡ of_task how required output.now) }
{
    match how {
        How::Whole => {
            let stamp = Stamp::Whole(output.copy()?);
            let what = DepOn::Called(required);
            let kind = DepKind::Require;
            Ok(Dep { kind, what, stamp })
        }
        How::Hashed => {
            let stamp = hashed(alloc, output)?;
            let what = DepOn::Called(required);
            let kind = DepKind::RequireHash;
            Ok(Dep { kind, what, stamp })
        }
        How::Ran => Ok(Dep {
            kind: DepKind::Run,
            what: DepOn::Called(required),
            stamp: Stamp::Done,
        }),
    }
}

// The stamp of an output by its canonical bytes.
fn hashed(alloc: Global, output: &Value) -> Result<Stamp, OutOfMemory>
    requires { IsEncodable (tree_of output.now) }
    ensures storable { IfOk result IsStorableStamp }
    ensures is { IfOk result (λ s. s ≡ requiring_stamp hows.Hashed output.now) }
{
    let seen = Observed::Output(output.copy()?);
    let stamp = ByHash.stamp(alloc, &seen)?;
    Ok(stamp)
}

fn output_answer(how: How, output: Value) -> Answer
    ensures { result ≡ requiring_answer how output }
{
    match how {
        How::Whole | How::Hashed => Answer::Output(output),
        How::Ran => Answer::Ran,
    }
}
