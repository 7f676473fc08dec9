//! What the running task writes.
ghost use Rattle.std.specs.Prelude.{IfOk};
ghost use Rattle.pie_value.specs.declared.event.Event.TheVariants as events;
ghost use Rattle.pie_running.specs.inner.Frames.{IsWaiting};
ghost use Rattle.pie_fresh.specs.inner.Frames.{StagesOnly};
ghost use Rattle.pie_fresh.specs.inner.Turns.{Answered};
ghost use Rattle.pie_fresh.specs.inner.Means.{GoesAs};

use crate::builder::Builder;
use crate::turn::{Turn, turn_of};
use pie_base::{OutOfMemory, Path};
use pie_running::Waiting;
use pie_value::Blob;

impl<'a> Builder<'a> {
    /// These bytes are written.
    #[tactic(auto, using(crate::proofs::Stepping::turned_answered))]
    pub(crate) fn write(
        &mut self,
        waiting: Waiting<'a>,
        path: Path,
        bytes: Blob,
    ) -> Result<Turn<'a>, OutOfMemory>
        requires { IsWaiting waiting }
        ensures answered { IfOk result (λ t. Answered waiting.entry.notes t) }
        ensures stages { StagesOnly self.old self.new }
        ensures means { IfOk result (λ t. GoesAs self.old self.new waiting.entry (events.Write path bytes) t) }
    {
        let told = waiting.write(self.alloc, &mut self.ledger.stage, path, &bytes)?;
        Ok(turn_of(told))
    }
}
