//! How a step ends.
ghost use Rattle.std.specs.Prelude.{◌≡◌};
ghost use Rattle.pie_fresh.specs.declared.turn.Turn.TheVariants.{Stops};
ghost use Rattle.pie_fresh.specs.inner.Turns.{turned};

use pie_base::FaultKind;
use pie_running::{RunningTask, Told};
use pie_value::{Fault, Refusal, Task};

/// How a step of a root's evaluation ends.
#[derive(Drop)]
pub(crate) enum Turn<'a> {
    /// It goes on with this task.
    Goes(RunningTask<'a>),
    /// The root is done.
    Rests,
    /// The root fails.
    Stops(Refusal),
}

/// The running task goes on as it was told, or the root fails with it.
pub(crate) fn turn_of<'a>(told: Told<'a>) -> Turn<'a>
    ensures { result ≡ turned told.entry }
{
    match told {
        Told::Goes(frame) => Turn::Goes(frame),
        Told::Fails(notes, kind) => failed(notes.into_task(), kind),
    }
}

/// The root fails, since a task did.
pub(crate) fn failed<'a>(task: Task, kind: FaultKind) -> Turn<'a>
    ensures { result ≡ Stops (Refusal.Fault (record { task = task; kind = kind })) }
{
    Turn::Stops(fault(task, kind))
}

/// A task failed in this way.
pub(crate) fn fault(task: Task, kind: FaultKind) -> Refusal
    ensures { result ≡ Refusal.Fault (record { task = task; kind = kind }) }
{
    Refusal::Fault(Fault { task, kind })
}
