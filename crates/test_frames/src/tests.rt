//! Builds of a chain of tasks, step by step.
ghost use Rattle.std.specs.Prelude.{◌≡◌, [], IfOk, OnOk};
ghost use Rattle.pie_frames.specs.inner.Standing.{Rests, Holds};

use crate::starts::{frames_over, schedule};
use pie_base::Path;
use pie_frames::{Frames, Next};
use pie_graph::{TaskNo, TaskRows};
use pie_walk::Mark;
use std::alloc::Global;
use std::process::Abort;
use std::test::Fail;

// A root is begun.
fn begin(rt: &impl Abort, frames: &mut Frames, root: u32) -> Result<(), Fail>
    requires { Rests frames.old }
    ensures { OnOk result (Rests frames.new) }
{
    assert!(rt; root < frames.walk().count());
    assert!(rt; frames.walk().top().is_none());
    frames.begin(TaskNo(root))?;
    Ok(())
}

// The next task that is taken is this one.
fn takes(rt: &impl Abort, frames: &mut Frames, no: u32) -> Result<TaskNo, Fail>
    requires { Rests frames.old }
    ensures { IfOk result (λ task. Holds task frames.new) }
{
    let next = frames.next()?;
    match next {
        Next::Takes(task) => {
            assert_eq!(rt; task.0, no);
            Ok(task)
        }
        Next::Answers(_, _) => Err(Fail::new("no task waits")),
        Next::Idle => Err(Fail::new("nothing is left")),
    }
}

// Nothing is left, and the task is settled.
fn is_over(rt: &impl Abort, frames: &mut Frames, no: u32) -> Result<(), Fail>
    requires { Rests frames.old }
    ensures { OnOk result (Rests frames.new) }
{
    let next = frames.next()?;
    match next {
        Next::Takes(_) => Err(Fail::new("a task is taken")),
        Next::Answers(_, _) => Err(Fail::new("no task waits")),
        Next::Idle => {
            assert!(rt; frames.walk().mark(TaskNo(no)) == Mark::Settled);
            Ok(())
        }
    }
}

// The required tasks that stand in a row.
fn assert_needs(rt: &impl Abort, frames: &Frames, no: u32, needs: &[TaskNo]) {
    assert!(rt; no < frames.walk().count());
    assert_eq!(rt; frames.walk().rows().callees(TaskNo(no)), needs);
}

// The idle tasks that require this one are scheduled.
fn schedule_callers(rt: &impl Abort, frames: &mut Frames, no: u32) -> Result<(), Fail>
    requires { Rests frames.old }
    ensures { OnOk result (Rests frames.new) }
{
    assert!(rt; no < frames.walk().count());
    frames.schedule_callers(TaskNo(no))?;
    Ok(())
}

// A sweep goes up from a settled task.
fn sweep(rt: &impl Abort, frames: &mut Frames, no: u32) -> Result<(), Fail>
    requires { Rests frames.old }
    ensures { OnOk result (Rests frames.new) }
{
    assert!(rt; no < frames.walk().count());
    assert!(rt; frames.walk().mark(TaskNo(no)) == Mark::Settled);
    frames.sweep(TaskNo(no))?;
    Ok(())
}

// A chain of three tasks is taken from below, up to the first record that stands.
fn take_chain(rt: &impl Abort, alloc: Global, frames: &mut Frames) -> Result<(), Fail>
    requires { Rests frames.old }
{
    schedule(rt, frames, 0);
    begin(rt, frames, 2)?;
    let task = takes(rt, frames, 0)?;
    frames.finish(task, 0, Vec::new(alloc))?;
    schedule_callers(rt, frames, 0)?;
    let task = takes(rt, frames, 1)?;
    frames.keep(task);
    is_over(rt, frames, 2)
}

// The second of two tasks requires the first, and then no more.
fn require_no_more(rt: &impl Abort, alloc: Global, frames: &mut Frames) -> Result<(), Fail>
    requires { Rests frames.old }
{
    schedule(rt, frames, 1);
    begin(rt, frames, 1)?;
    let task = takes(rt, frames, 1)?;
    assert_needs(rt, frames, 1, &[TaskNo(0)]);
    frames.finish(task, 1, Vec::new(alloc))?;
    assert_needs(rt, frames, 1, &[]);
    is_over(rt, frames, 1)
}

// The last of three tasks looked under `out`, and the first one writes there.
fn sweep_up(rt: &impl Abort, alloc: Global, frames: &mut Frames) -> Result<(), Fail>
    requires { Rests frames.old }
{
    schedule(rt, frames, 0);
    begin(rt, frames, 2)?;
    let task = takes(rt, frames, 0)?;
    frames.finish(task, 0, writes(alloc)?)?;
    sweep(rt, frames, 0)?;
    let task = takes(rt, frames, 2)?;
    frames.keep(task);
    is_over(rt, frames, 1)
}

fn writes(alloc: Global) -> Result<Vec<Path>, Fail> {
    let path = Path::read(alloc, "out/a").map_err(|_| "path")?;
    Ok(vec![in alloc; path]?)
}

// A task comes after the first one.
fn take_added(rt: &impl Abort, frames: &mut Frames) -> Result<(), Fail>
    requires { Rests frames.old }
{
    assert!(rt; frames.walk().count() < 50_000);
    let added = frames.add()?;
    begin(rt, frames, added.0)?;
    let task = takes(rt, frames, 1)?;
    frames.keep(task);
    is_over(rt, frames, 1)
}

#[test]
fn a_chain_is_taken_from_below(rt: HostRuntime) -> Result<(), Fail> {
    let mut frames = frames_over(&rt, rt.alloc(), 3, 0)?;
    take_chain(&rt, rt.alloc(), &mut frames)
}

#[test]
fn a_task_that_ends_requires_what_it_required_since(rt: HostRuntime) -> Result<(), Fail> {
    let mut frames = frames_over(&rt, rt.alloc(), 2, 0)?;
    require_no_more(&rt, rt.alloc(), &mut frames)
}

#[test]
fn a_sweep_schedules_what_looked_out(rt: HostRuntime) -> Result<(), Fail> {
    let mut frames = frames_over(&rt, rt.alloc(), 3, 2)?;
    sweep_up(&rt, rt.alloc(), &mut frames)
}

#[test]
fn a_task_that_comes_later_is_taken(rt: HostRuntime) -> Result<(), Fail> {
    let mut frames = frames_over(&rt, rt.alloc(), 1, 0)?;
    take_added(&rt, &mut frames)
}
