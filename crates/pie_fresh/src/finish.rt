//! Tasks that end.
ghost use Rattle.std.specs.Prelude.{◌≡◌, ◌+◌, ◌<◌, [], None, IfOk};
ghost use Rattle.pie_value.specs.Canonical.{IsEncodable};
ghost use Rattle.pie_value.specs.Values.{tree_of};
ghost use Rattle.pie_running.specs.inner.Noted.{IsSound};
ghost use Rattle.pie_fresh.specs.inner.Ledgers.{IsHigh, IsPlaced};
ghost use Rattle.pie_fresh.specs.inner.Frames.{Stands, StandsAt};
ghost use Rattle.pie_fresh.specs.inner.Turns.{StepsTo, below_left};
ghost use Rattle.pie_fresh.specs.inner.Means.{FinishesAs, ResumesAs};

use crate::builder::Builder;
use crate::turn::{Turn, failed};
use pie_base::{FaultKind, OutOfMemory};
use pie_running::{Caller, Done, Notes};
use pie_value::{Value, encode};

impl<'a> Builder<'a> {
    /// The running task is done: the one that waits for it goes on.
    pub(crate) fn finish(&mut self, notes: Notes, output: Value) -> Result<Turn<'a>, OutOfMemory>
        requires stands { StandsAt notes.number self.old }
        requires sound { IsSound notes }
        requires placed { IsPlaced self.old.ledger notes }
        ensures steps { IfOk result (λ t. StepsTo (below_left self.old + notes.left + 1) self.new t) }
        ensures typed { self.new.typed ≡ self.old.typed }
        ensures names { self.new.ledger.names ≡ self.old.ledger.names }
        ensures means { IfOk result (λ t. FinishesAs self.old self.new notes output t) }
    {
        if !output.is_small() {
            return Ok(failed(notes.into_task(), FaultKind::Big));
        }
        let _bytes = encode(self.alloc, &output)?;
        let done = Done {
            no: notes.no(),
            height: notes.height(),
            output: output.copy()?,
        };
        self.ledger.end(notes, output)?;
        self.resume(done)
    }

    // The task that waits for the one that is done goes on.
    #[tactic(auto, using(crate::proofs::Finishing::rested))]
    fn resume(&mut self, done: Done) -> Result<Turn<'a>, OutOfMemory>
        requires stands { Stands [] done.no.0 self.old }
        requires high { IsHigh self.old.ledger done.no.0 done.height }
        requires height { done.height < self.old.ledger.ended }
        requires output { IsEncodable (tree_of done.output) }
        ensures steps { IfOk result (λ t. StepsTo (below_left self.old + 1) self.new t) }
        ensures typed { self.new.typed ≡ self.old.typed }
        ensures names { self.new.ledger.names ≡ self.old.ledger.names }
        ensures means { IfOk result (λ t. ResumesAs self.old self.new done.no.0 done.output t) }
    {
        match self.stack.pop() {
            Some(caller) => {
                let Caller {
                    waiting,
                    required,
                    how,
                } = caller;
                let frame = waiting.give(self.alloc, required, how, done)?;
                Ok(Turn::Goes(frame))
            }
            None => Ok(Turn::Rests),
        }
    }
}
