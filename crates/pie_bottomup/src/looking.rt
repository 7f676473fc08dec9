//! What the task that runs sees under `out/`.
ghost use Rattle.std.specs.Prelude.{◌≡◌, ◌<◌, true, length, drop, None, Some, IfOk, IfSome, OnOk};
ghost use Rattle.std.specs.Option.{option_map};
ghost use Rattle.pie_base.specs.Path.{is_out};
ghost use Rattle.pie_graph.specs.Numbers.{numbers, AllBelow};
ghost use Rattle.pie_graph.specs.Rows.{row_at};
ghost use Rattle.pie_files.specs.Reading.{ReadsOnly};
ghost use Rattle.pie_view.specs.Content.{content};
ghost use Rattle.pie_view.specs.Seen.{Visible, IsOnly};
ghost use Rattle.pie_builder_laws.specs.Views.{unmarked};
ghost use Rattle.pie_running.specs.inner.Sights.{provided_sight};
ghost use Rattle.pie_task_laws.specs.Sights.{sight_by};
ghost use Rattle.pie_bottomup.specs.inner.Exact.{FetchesExact, FilesExact, Lacks};
ghost use Rattle.pie_bottomup.specs.inner.Fetched.{Fetches, StagesFile};
ghost use Rattle.pie_bottomup.specs.inner.Sights.{SeenIsStaged, ShowsOthers, ShowsOut};
ghost use Rattle.pie_named.specs.Asking.{AsksFor};

use crate::state::Core;
use pie_base::{OutOfMemory, Path};
use pie_files::{Files, FilesError};
use pie_graph::{TaskNo, TaskRows};
use pie_running::{Notes, Provided, Shows};
use pie_union::UnionRows;
use pie_view::{Seen, Stage, view};
use std::alloc::Global;

/// What a task sees under `out/` that has required the tasks of its row from a place on.
#[derive(Drop)]
pub(crate) struct OutSight<'b> {
    alloc: Global,
    rows: &'b UnionRows,
    stage: &'b Stage,
    no: TaskNo,
    from: usize,
}

impl<'b> Shows for OutSight<'b> {
    ghost use Rattle.pie_bottomup.specs.inner.Sights.{IsTaskAt, ShowsOut};

    ghost knows = { λ s n. IsTaskAt s.rows.now s.no.0 s.from n };

    ghost sees = { λ s n path sight. ShowsOut s.rows.now s.stage.now n.number n.needs path sight };

    fn shown<'c>(&'c self, _notes: &Notes, path: &Path) -> Result<Provided<'c>, OutOfMemory> {
        self.provided(path)
    }
}

impl<'b> OutSight<'b> {
    // What the task sees: what it wrote itself, else what those wrote that it required.
    fn provided<'c>(&'c self, path: &Path) -> Result<Provided<'c>, OutOfMemory>
        requires { self.now.no.0 < length self.now.rows.now }
        ensures { IfOk result (λ p. ShowsOut self.now.rows.now self.now.stage.now self.now.no.0 (drop self.now.from (row_at self.now.rows.now self.now.no.0).needs)
            path.now (provided_sight p)) }
    {
        match self.stage.get(self.no, path) {
            Some(content) => Ok(Provided::Content(content)),
            None => self.by_others(path),
        }
    }

    // What tasks wrote that this one required.
    fn by_others<'c>(&'c self, path: &Path) -> Result<Provided<'c>, OutOfMemory>
        requires { self.now.no.0 < length self.now.rows.now }
        ensures shows { IfOk result (λ p. ShowsOthers self.now.rows.now self.now.stage.now (drop self.now.from (row_at self.now.rows.now self.now.no.0).needs)
            path.now (provided_sight p)) }
    {
        let seen = self.seen(path)?;
        Ok(self.content_seen(seen, path))
    }

    // The content that is seen.
    fn content_seen<'c>(&'c self, seen: Seen, path: &Path) -> Provided<'c>
        ensures { provided_sight result ≡ sight_by (λ k. content self.now.stage.now k path.now) seen }
    {
        match seen {
            Seen::Absent => Provided::Nothing,
            Seen::By(no) => content_of(self.stage.get(no, path)),
            Seen::Clash => Provided::Clash,
        }
    }

    // Whose file the task sees that wrote nothing there.
    fn seen(&self, path: &Path) -> Result<Seen, OutOfMemory>
        requires { self.now.no.0 < length self.now.rows.now }
        ensures { IfOk result (IsOnly (Visible self.now.rows.now (drop self.now.from (row_at self.now.rows.now self.now.no.0).needs) path.now)) }
    {
        let required = since(self.rows, self.no, self.from);
        let seen = view(self.alloc, self.rows, self.no, &[], required, path)?;
        Ok(seen)
    }

    // Whose file it is that the task sees, where its content isn't staged.
    fn lacking(&self, path: &Path) -> Result<Option<TaskNo>, OutOfMemory>
        requires { self.now.no.0 < length self.now.rows.now }
        ensures lacks { IfOk result (λ writer. IfSome writer (λ w. Lacks self.now.rows.now self.now.stage.now self.now.no.0 self.now.from path.now w.0)) }
        ensures has { IfOk result (λ writer. writer ≡ None → SeenIsStaged self.now.rows.now self.now.stage.now self.now.no.0 self.now.from path.now) }
    {
        if self.stage.get(self.no, path).is_some() {
            return Ok(None);
        }
        match self.seen(path)? {
            Seen::By(no) => Ok(if self.stage.get(no, path).is_some() {
                None
            } else {
                Some(no)
            }),
            _ => Ok(None),
        }
    }
}

impl<'a> Core<'a> {
    /// What a task sees under `out/`.
    pub(crate) fn sight<'b>(&'b self, no: TaskNo, from: usize) -> OutSight<'b>
        ensures rows { result.rows.now ≡ self.now.frames.walk.rows }
        ensures task { result.no ≡ no }
        ensures from { result.from ≡ from }
        ensures stage { result.stage.now ≡ self.now.stage }
    {
        OutSight {
            alloc: self.alloc,
            rows: self.frames.walk().rows(),
            stage: &self.stage,
            no,
            from,
        }
    }

    /// Where a task is about to look at a file under `out/` of a task that didn't run, the file is read and staged as that one's.
    #[tactic(auto, using(pie_files::proofs::Reading::reads))]
    pub(crate) fn fetch<F: Files>(
        &mut self,
        no: TaskNo,
        from: usize,
        path: &Path,
        files: &mut F,
    ) -> Result<(), FilesError>
        requires { no.0 < length self.old.frames.walk.rows }
        ensures same { self.new ≡ record self.old { stage = self.new.stage } }
        ensures reads { ReadsOnly F.holds F.moment F.left_since F.images F.faults files.old files.new result }
        ensures exact { OnOk result (FetchesExact (F.holds files.old) self.old no.0 from self.new) }
        ensures fetches { OnOk result (Fetches (F.holds files.old) self.old no.0 from path.now self.new) }
        ensures asks { AsksFor (λ p. p ≡ path.now) (F.asked files.old) (F.asked files.new) }
    {
        if !path.under_out() {
            return Ok(());
        }
        match self.sight(no, from).lacking(path)? {
            Some(writer) => self.stage_file(writer, path, files),
            None => Ok(()),
        }
    }

    // A file of a task that didn't run is staged as it is there.
    #[tactic(auto, using(pie_files::proofs::Reading::reads))]
    fn stage_file<F: Files>(
        &mut self,
        writer: TaskNo,
        path: &Path,
        files: &mut F,
    ) -> Result<(), FilesError>
        requires { is_out path.now ≡ true }
        ensures same { self.new ≡ record self.old { stage = self.new.stage } }
        ensures reads { ReadsOnly F.holds F.moment F.left_since F.images F.faults files.old files.new result }
        ensures exact { OnOk result (FilesExact (F.holds files.old) self.old writer.0 path.now self.new) }
        ensures stages { OnOk result (StagesFile (F.holds files.old) self.old writer.0 path.now self.new) }
        ensures asks { AsksFor (λ p. p ≡ path.now) (F.asked files.old) (F.asked files.new) }
    {
        match files.read(path)? {
            Some(found) => {
                self.stage.put(writer, path.copy()?, found.bytes)?;
                Ok(())
            }
            None => Ok(()),
        }
    }
}

/// What a task has required from a place in its row on.
#[tactic(auto, using(crate::proofs::Parts::part_below))]
pub(crate) fn since<'b, R: TaskRows>(rows: &'b R, no: TaskNo, from: usize) -> &'b [TaskNo]
    requires { no.0 < length (R.rows rows.now) }
    ensures below { AllBelow (length (R.rows rows.now)) (numbers result.now) }
    ensures is { numbers result.now ≡ drop from (row_at (R.rows rows.now) no.0).needs }
{
    let all = rows.callees(no);
    let from = from.min(all.len());
    &all[from..]
}

fn content_of<'b>(content: Option<&'b [u8]>) -> Provided<'b>
    ensures { provided_sight result ≡ Some (unmarked (option_map (λ c. c.now) content.entry)) }
{
    match content {
        Some(content) => Provided::Content(content),
        None => Provided::Nothing,
    }
}
