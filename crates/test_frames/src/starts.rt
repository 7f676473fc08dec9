//! A build before its first step.
ghost use Rattle.std.specs.Prelude.{IfOk, OnOk};
ghost use Rattle.pie_frames.specs.inner.Standing.{Rests};
ghost use Rattle.pie_walk.specs.States.{NeedsAreEarlier};

use pie_frames::Frames;
use pie_graph::{TaskNo, TaskRows};
use pie_union::UnionRows;
use pie_walk::{Mark, Walk, needs_are_earlier};
use std::alloc::Global;
use std::process::Abort;
use std::test::Fail;

/// So many tasks, of which each requires the one before.
pub(crate) fn chain(rt: &impl Abort, alloc: Global, count: u32) -> Result<UnionRows, Fail> {
    let mut rows = UnionRows::new(alloc);
    for no in 0..count {
        add(rt, &mut rows, no)?;
    }
    Ok(rows)
}

// The task with this number is added.
fn add(rt: &impl Abort, rows: &mut UnionRows, no: u32) -> Result<(), Fail> {
    assert!(rt; rows.count() < 50_000);
    rows.add()?;
    if no > 0 {
        assert!(rt; no < rows.count());
        rows.push_need(TaskNo(no), TaskNo(no - 1))?;
    }
    Ok(())
}

/// A build of a chain of tasks, of which one looked under `out`.
pub(crate) fn frames_over<'a>(
    rt: &impl Abort,
    alloc: Global,
    count: u32,
    look: u32,
) -> Result<Frames<'a>, Fail>
    ensures { IfOk result Rests }
{
    let rows = chain(rt, alloc, count)?;
    let mut flags = vec![in alloc; false; count as usize]?;
    assert!(rt; (look as usize) < flags.len());
    flags[look as usize] = true;
    are_earlier(&rows)?;
    assert!(rt; flags.len() == rows.count() as usize);
    let walk = Walk::new(alloc, rows, flags)?;
    assert!(rt; walk.top().is_none());
    Ok(Frames::new(alloc, walk))
}

// Each task requires tasks of lower numbers alone.
fn are_earlier(rows: &UnionRows) -> Result<(), Fail>
    ensures { OnOk result (NeedsAreEarlier rows.now) }
{
    let are = needs_are_earlier(rows);
    if are {
        Ok(())
    } else {
        Err(Fail::new("a later task is required"))
    }
}

/// A task is scheduled.
pub(crate) fn schedule(rt: &impl Abort, frames: &mut Frames, no: u32)
    requires { Rests frames.old }
    ensures { Rests frames.new }
{
    let no = TaskNo(no);
    assert!(rt; no.0 < frames.walk().count());
    match frames.walk().mark(no) {
        Mark::New => frames.schedule(no),
        _ => {}
    }
}
