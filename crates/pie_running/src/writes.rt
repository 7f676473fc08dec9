//! What a running task writes.
ghost use Rattle.std.specs.Prelude.{◌≡◌, IsTrue, IfOk, OnOk, is_some};
ghost use Rattle.pie_base.specs.Path.{is_out};
ghost use Rattle.pie_view.specs.Content.{content};
ghost use Rattle.pie_running.specs.inner.Noted.{wrote as with_write};
ghost use Rattle.pie_running.specs.inner.Frames.{IsReady, IsWaiting};
ghost use Rattle.pie_running.specs.inner.Steps.{Advanced, Answered};
ghost use Rattle.pie_running.specs.inner.Told.{IsTold, IsToldWrite, KeepsFirst};

use crate::frame::{RunningTask, Told, Waiting};
use pie_base::{FaultKind, OutOfMemory, Path};
use pie_graph::TaskNo;
use pie_stamp::hash_of;
use pie_value::{Answer, Blob};
use pie_view::Stage;
use std::alloc::Global;

impl<'a> Waiting<'a> {
    /// Stages what the task writes, unless it wrote at the path before, and tells it. A path that isn't under `out/` is refused.
    #[tactic(auto, using(crate::proofs::Staging::write_told, crate::proofs::Staging::write_refused))]
    pub fn write(
        self,
        alloc: Global,
        stage: &mut Stage,
        path: Path,
        bytes: &Blob,
    ) -> Result<Told<'a>, OutOfMemory>
        requires { IsWaiting self }
        ensures answered { IfOk result (λ t. Answered self.entry.notes t) }
        ensures told { IfOk result (λ t. IsToldWrite (is_out path) self.entry stage.old stage.new path bytes.now t) }
    {
        if !path.under_out() {
            return Ok(Told::Fails(self.into_notes(), FaultKind::BadWrite));
        }
        let hash = hash_of(bytes.as_slice());
        keep_first(alloc, stage, self.notes.no(), &path, bytes)?;
        let frame = told_write(self, path, hash)?;
        Ok(Told::Goes(frame))
    }
}

// Keeps a content, unless the task wrote at the path before.
#[tactic(auto, using(crate::proofs::Staging::first_stays, crate::proofs::Staging::first_comes))]
fn keep_first(
    alloc: Global,
    stage: &mut Stage,
    no: TaskNo,
    path: &Path,
    bytes: &Blob,
) -> Result<(), OutOfMemory>
    ensures { OnOk result (KeepsFirst stage.old stage.new no.0 path.now bytes.now) }
{
    if is_kept(stage, no, path) {
        return Ok(());
    }
    let content = bytes.as_slice().to_vec(alloc)?;
    stage.put(no, path.copy()?, content)
}

// Whether the task wrote at the path before.
fn is_kept(stage: &Stage, no: TaskNo, path: &Path) -> bool
    ensures { result ≡ is_some (content stage.now no.0 path.now) }
{
    stage.get(no, path).is_some()
}

// A task whose write was noted.
#[tactic(auto, using(crate::proofs::Noting::wrote_sound, crate::proofs::Noting::wrote_advanced))]
fn told_write<'a>(
    waiting: Waiting<'a>,
    path: Path,
    hash: [u8; 32],
) -> Result<RunningTask<'a>, OutOfMemory>
    requires waits { IsWaiting waiting }
    requires out { IsTrue (is_out path) }
    ensures ready { IfOk result (λ f. IsReady f × Advanced waiting.entry.notes f.notes) }
    ensures told { IfOk result (λ f. IsTold waiting.entry f (with_write path hash waiting.entry.notes) Answer.Wrote) }
{
    let mut waiting = waiting;
    waiting.notes.wrote(path, hash)?;
    Ok(waiting.answered(Answer::Wrote))
}
