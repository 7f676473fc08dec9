//! Looks of the running task.
ghost use Rattle.std.specs.Prelude.{◌≡◌, length, IfOk};
ghost use Rattle.pie_value.specs.declared.event.Event.TheVariants as events;
ghost use Rattle.pie_graph.specs.Numbers.{AllBelow};
ghost use Rattle.pie_files.specs.Reading.{ReadsOnly};
ghost use Rattle.pie_named.specs.Asking.{AsksFor};
ghost use Rattle.pie_running.specs.inner.Frames.{IsWaiting};
ghost use Rattle.pie_fresh.specs.inner.Turns.{Answered};
ghost use Rattle.pie_fresh.specs.inner.Means.{LooksAs};
ghost use Rattle.pie_fresh.specs.inner.Asked.{IsAskedBy};

use crate::builder::Builder;
use crate::turn::{Turn, turn_of};
use pie_base::Path;
use pie_files::{Files, FilesError};
use pie_running::Waiting;
use pie_value::By;

impl<'a> Builder<'a> {
    /// Whether a file is there.
    #[tactic(auto, using(pie_files::proofs::Reading::reads, crate::proofs::Stepping::turned_answered))]
    pub(crate) fn exists<F: Files>(
        &self,
        waiting: Waiting<'a>,
        path: Path,
        files: &mut F,
    ) -> Result<Turn<'a>, FilesError>
        requires waits { IsWaiting waiting }
        requires needs { AllBelow (length self.now.ledger.rows) waiting.notes.needs }
        ensures answered { IfOk result (λ t. Answered waiting.entry.notes t) }
        ensures reads { ReadsOnly F.holds F.moment F.left_since F.images F.faults files.old files.new result }
        ensures means { IfOk result (λ t. LooksAs (F.holds files.old) self.now waiting.entry (events.Exists path) t) }
        ensures asks { AsksFor (IsAskedBy (events.Exists path)) (F.asked files.old) (F.asked files.new) }
    {
        let told = waiting.exists(&self.ledger, path, files)?;
        Ok(turn_of(told))
    }

    /// The bytes of a file.
    #[tactic(auto, using(pie_files::proofs::Reading::reads, crate::proofs::Stepping::turned_answered))]
    pub(crate) fn read<F: Files>(
        &self,
        waiting: Waiting<'a>,
        path: Path,
        by: By,
        files: &mut F,
    ) -> Result<Turn<'a>, FilesError>
        requires waits { IsWaiting waiting }
        requires needs { AllBelow (length self.now.ledger.rows) waiting.notes.needs }
        ensures answered { IfOk result (λ t. Answered waiting.entry.notes t) }
        ensures reads { ReadsOnly F.holds F.moment F.left_since F.images F.faults files.old files.new result }
        ensures means { IfOk result (λ t. LooksAs (F.holds files.old) self.now waiting.entry (events.Read path by) t) }
        ensures asks { AsksFor (IsAskedBy (events.Read path by)) (F.asked files.old) (F.asked files.new) }
    {
        let told = waiting.read(self.alloc, &self.ledger, path, by, files)?;
        Ok(turn_of(told))
    }

    /// The SHA-256 of a file.
    #[tactic(auto, using(pie_files::proofs::Reading::reads, crate::proofs::Stepping::turned_answered))]
    pub(crate) fn digest<F: Files>(
        &self,
        waiting: Waiting<'a>,
        path: Path,
        files: &mut F,
    ) -> Result<Turn<'a>, FilesError>
        requires waits { IsWaiting waiting }
        requires needs { AllBelow (length self.now.ledger.rows) waiting.notes.needs }
        ensures answered { IfOk result (λ t. Answered waiting.entry.notes t) }
        ensures reads { ReadsOnly F.holds F.moment F.left_since F.images F.faults files.old files.new result }
        ensures means { IfOk result (λ t. LooksAs (F.holds files.old) self.now waiting.entry (events.Digest path) t) }
        ensures asks { AsksFor (IsAskedBy (events.Digest path)) (F.asked files.old) (F.asked files.new) }
    {
        let told = waiting.digest(&self.ledger, path, files)?;
        Ok(turn_of(told))
    }

    /// What lies in a directory.
    #[tactic(auto, using(pie_files::proofs::Reading::reads, crate::proofs::Stepping::turned_answered))]
    pub(crate) fn list<F: Files>(
        &self,
        waiting: Waiting<'a>,
        dir: Path,
        files: &mut F,
    ) -> Result<Turn<'a>, FilesError>
        requires { IsWaiting waiting }
        ensures answered { IfOk result (λ t. Answered waiting.entry.notes t) }
        ensures reads { ReadsOnly F.holds F.moment F.left_since F.images F.faults files.old files.new result }
        ensures means { IfOk result (λ t. LooksAs (F.holds files.old) self.now waiting.entry (events.List dir) t) }
        ensures asks { AsksFor (IsAskedBy (events.List dir)) (F.asked files.old) (F.asked files.new) }
    {
        let told = waiting.list(self.alloc, dir, files)?;
        Ok(turn_of(told))
    }
}
