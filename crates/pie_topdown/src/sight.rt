//! What a task that runs sees under `out/`.
ghost use Rattle.std.specs.Option.{option_map};
ghost use Rattle.std.specs.Prelude.{◌≡◌, length, None, Some, IfOk, IfSome, OnOk};
ghost use Rattle.pie_files.specs.Reading.{ReadsOnly};
ghost use Rattle.pie_graph.specs.Numbers.{AllBelow};
ghost use Rattle.pie_view.specs.Content.{content};
ghost use Rattle.pie_view.specs.Seen.{Visible, IsOnly};
ghost use Rattle.pie_builder_laws.specs.Views.{unmarked};
ghost use Rattle.pie_running.specs.inner.Sights.{provided_sight};
ghost use Rattle.pie_task_laws.specs.Sights.{sight_by};
ghost use Rattle.pie_topdown.specs.inner.Asking.{FetchesSo, StagesFile};
ghost use Rattle.pie_topdown.specs.inner.Sights.{Lacks, SeenIsStaged, ShowsOthers, ShowsOut};

use crate::builder::Builder;
use pie_base::{OutOfMemory, Path};
use pie_files::{Files, FilesError};
use pie_graph::TaskNo;
use pie_running::{Notes, Provided, Shows};
use pie_view::{EnteredRows, Seen, Stage};
use std::alloc::Global;

/// What tasks see under `out/`.
#[derive(Drop)]
pub(crate) struct OutSight<'b> {
    alloc: Global,
    rows: &'b EnteredRows,
    stage: &'b Stage,
}

impl<'b> Shows for OutSight<'b> {
    ghost use Rattle.std.specs.Prelude.{length};
    ghost use Rattle.pie_graph.specs.Numbers.{AllBelow};
    ghost use Rattle.pie_topdown.specs.inner.Sights.{ShowsOut};

    ghost knows = { λ s n. AllBelow (length s.rows.now) n.needs };

    ghost sees = { λ s n path sight. ShowsOut s.rows.now s.stage.now n.number n.needs path sight };

    fn shown<'c>(&'c self, notes: &Notes, path: &Path) -> Result<Provided<'c>, OutOfMemory> {
        self.provided(notes, path)
    }
}

impl<'b> OutSight<'b> {
    // What the task sees: what it wrote itself, else what those wrote that it required.
    fn provided<'c>(&'c self, notes: &Notes, path: &Path) -> Result<Provided<'c>, OutOfMemory>
        requires { AllBelow (length self.now.rows.now) notes.now.needs }
        ensures { IfOk result (λ p. ShowsOut self.now.rows.now self.now.stage.now notes.now.number notes.now.needs path.now (provided_sight p)) }
    {
        match self.stage.get(notes.no(), path) {
            Some(content) => Ok(Provided::Content(content)),
            None => self.by_others(notes, path),
        }
    }

    // What tasks wrote that this one required.
    fn by_others<'c>(&'c self, notes: &Notes, path: &Path) -> Result<Provided<'c>, OutOfMemory>
        requires { AllBelow (length self.now.rows.now) notes.now.needs }
        ensures { IfOk result (λ p. ShowsOthers self.now.rows.now self.now.stage.now notes.now.needs path.now (provided_sight p)) }
    {
        let seen = self.seen(notes, path)?;
        Ok(self.content_seen(seen, path))
    }

    // The content that is seen.
    fn content_seen<'c>(&'c self, seen: Seen, path: &Path) -> Provided<'c>
        ensures { provided_sight result ≡ sight_by (λ k. content self.now.stage.now k path.now) seen }
    {
        match seen {
            Seen::Absent => Provided::Nothing,
            Seen::By(no) => content_of(self.stage.get(no, path)),
            Seen::Clash => Provided::Clash,
        }
    }

    // Whose file the task sees that wrote nothing there.
    fn seen(&self, notes: &Notes, path: &Path) -> Result<Seen, OutOfMemory>
        requires { AllBelow (length self.now.rows.now) notes.now.needs }
        ensures { IfOk result (IsOnly (Visible self.now.rows.now notes.now.needs path.now)) }
    {
        let needs = notes.needs();
        let seen = self.rows.seen(self.alloc, needs, path)?;
        Ok(seen)
    }

    // Whose file it is that the task sees, where its content isn't staged.
    fn lacking(&self, notes: &Notes, path: &Path) -> Result<Option<TaskNo>, OutOfMemory>
        requires { AllBelow (length self.now.rows.now) notes.now.needs }
        ensures lacks { IfOk result (λ writer. IfSome writer (λ w. Lacks self.now.rows.now self.now.stage.now notes.now.needs path.now w.0)) }
        ensures has { IfOk result (λ writer. writer ≡ None → SeenIsStaged self.now.rows.now self.now.stage.now notes.now.number notes.now.needs path.now) }
    {
        if self.stage.get(notes.no(), path).is_some() {
            return Ok(None);
        }
        match self.seen(notes, path)? {
            Seen::By(no) => Ok(if self.stage.get(no, path).is_some() {
                None
            } else {
                Some(no)
            }),
            _ => Ok(None),
        }
    }
}

impl<'a> Builder<'a> {
    /// What tasks see under `out/`.
    pub(crate) fn sight<'b>(&'b self) -> OutSight<'b>
        ensures rows { result.rows.now ≡ self.now.ledger.rows }
        ensures stage { result.stage.now ≡ self.now.stage }
    {
        OutSight {
            alloc: self.alloc,
            rows: &self.ledger.rows,
            stage: &self.stage,
        }
    }

    /// Where a task is about to look at a file under `out/` of a task that didn't run, the file is read and staged as that one's.
    #[tactic(auto, using(pie_files::proofs::Reading::reads))]
    pub(crate) fn fetch<F: Files>(
        &mut self,
        notes: &Notes,
        path: &Path,
        files: &mut F,
    ) -> Result<(), FilesError>
        requires { AllBelow (length self.old.ledger.rows) notes.now.needs }
        ensures same { self.new ≡ record self.old { stage = self.new.stage } }
        ensures reads { ReadsOnly F.holds F.moment F.left_since F.images F.faults files.old files.new result }
        ensures fetches { OnOk result (FetchesSo (F.holds files.old) self.old notes.now path.now self.new) }
    {
        if !path.under_out() {
            return Ok(());
        }
        match self.sight().lacking(notes, path)? {
            Some(writer) => self.stage_file(writer, path, files),
            None => Ok(()),
        }
    }

    // A file of a task that didn't run is staged as it is there. It is what a task wrote, so it is no longer than a value may be.
    #[tactic(auto, using(pie_files::proofs::Reading::reads))]
    fn stage_file<F: Files>(
        &mut self,
        writer: TaskNo,
        path: &Path,
        files: &mut F,
    ) -> Result<(), FilesError>
        ensures same { self.new ≡ record self.old { stage = self.new.stage } }
        ensures reads { ReadsOnly F.holds F.moment F.left_since F.images F.faults files.old files.new result }
        ensures stages { OnOk result (StagesFile (F.holds files.old) self.old writer.0 path.now self.new) }
    {
        match files.read(path)? {
            Some(found) => {
                self.stage.put(writer, path.copy()?, found.bytes)?;
                Ok(())
            }
            None => Ok(()),
        }
    }
}

fn content_of<'b>(content: Option<&'b [u8]>) -> Provided<'b>
    ensures { provided_sight result ≡ Some (unmarked (option_map (λ c. c.now) content.entry)) }
{
    match content {
        Some(content) => Provided::Content(content),
        None => Provided::Nothing,
    }
}
