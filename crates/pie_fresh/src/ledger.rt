//! The tasks of a build by their numbers: names, rows, records, heights and contents.
ghost use Rattle.std.specs.Prelude.{◌≡◌, ℕ, ◌<◌, [], length, None, IfOk, IfSome, OnOk, OnErr, map, slice_set};
ghost use Rattle.std.specs.Option.{option_map};
ghost use Rattle.pie_value.specs.Canonical.{IsEncodable};
ghost use Rattle.pie_value.specs.Values.{tree_of};
ghost use Rattle.pie_graph.specs.Numbers.{AllBelow, numbers};
ghost use Rattle.pie_fresh.specs.inner.Kept.{IsKeptAs, row_with};
ghost use Rattle.pie_running.specs.inner.Noted.{IsSound};
ghost use Rattle.pie_record.specs.inner.Records.{record_of};
ghost use Rattle.pie_fresh.specs.inner.Collected.{output_at};
ghost use Rattle.pie_fresh.specs.inner.Ledgers.{EndsTask, EntersTask, IsHigh, IsLedger, IsNew, IsPlaced, IsUnfinished, KeepsEnded};

use pie_base::{OutOfMemory, Path};
use pie_graph::{Edges, TaskNo, TaskRows};
use pie_record::{Deps, Outcome, Records, TaskNames, TaskRecord, Writes};
use pie_running::{Done, NoteParts, Notes};
use pie_value::{Task, Value};
use pie_view::{EnteredRows, Stage};
use std::alloc::Global;

/// The tasks that were entered, in order. Those that are done have a record.
#[derive(Drop)]
pub(crate) struct Ledger {
    pub(crate) alloc: Global,
    pub(crate) names: TaskNames,
    pub(crate) rows: EnteredRows,
    pub(crate) records: Records,
    pub(crate) heights: Vec<u32>,
    pub(crate) stage: Stage,
    /// How many tasks have ended.
    pub(crate) ended: u32,
}

impl Ledger {
    /// No task was entered.
    pub(crate) fn new(alloc: Global) -> Ledger
        ensures ledger { IsLedger result }
        ensures none { result.names ≡ [] }
        ensures ended { result.ended ≡ 0 }
        ensures rows { result.rows ≡ [] }
        ensures records { (n : ℕ) → record_of result.records n ≡ None }
        ensures stage { result.stage ≡ [] }
    {
        Ledger {
            alloc,
            names: TaskNames::new(alloc),
            rows: EnteredRows::new(alloc),
            records: Records::new(alloc),
            heights: Vec::new(alloc),
            stage: Stage::new(alloc),
            ended: 0,
        }
    }

    /// A task is entered, and gets the next number.
    pub(crate) fn add(&mut self, task: Task) -> Result<TaskNo, OutOfMemory>
        requires ledger { IsLedger self.old }
        requires task { IsNew self.old.names task }
        requires few { length self.old.names < 50000 }
        ensures enters { OnOk result (EntersTask self.old self.new task) }
        ensures number { IfOk result (λ no. no.0 ≡ length self.old.names) }
        ensures unchanged { OnErr result (self.new.names ≡ self.old.names) }
        ensures ended { KeepsEnded self.old self.new }
    {
        let _no = self.rows.add()?;
        self.heights.push(0)?;
        let no = self.names.add(task)?;
        let _names = self.names.as_slice();
        Ok(no)
    }

    /// A task that is done.
    pub(crate) fn done(&self, no: TaskNo) -> Result<Option<Done>, OutOfMemory>
        requires ledger { IsLedger self.now }
        requires number { no.0 < length self.now.names }
        ensures number { IfOk result (λ done. IfSome done (λ d. d.no ≡ no)) }
        ensures low { IfOk result (λ done. IfSome done (λ d. d.height < self.now.ended)) }
        ensures high { IfOk result (λ done. IfSome done (λ d. IsHigh self.now no.0 d.height)) }
        ensures small { IfOk result (λ done. IfSome done (λ d. IsEncodable (tree_of d.output))) }
        ensures kept { IfOk result (λ done. IsKeptAs self.now.records no.0 done) }
        ensures output { IfOk result (λ done. option_map (λ d. d.output) done ≡ output_at self.now.records no.0) }
    {
        match self.records.get(no) {
            Some(rec) => match &rec.outcome {
                Outcome::Done(output) => {
                    let height = self.heights[no.0 as usize];
                    let output = output.copy()?;
                    Ok(Some(Done { no, height, output }))
                }
                _ => Ok(None),
            },
            None => Ok(None),
        }
    }

    /// A task ends with this output.
    pub(crate) fn end(&mut self, notes: Notes, output: Value) -> Result<(), OutOfMemory>
        requires ledger { IsLedger self.old }
        requires placed { IsPlaced self.old notes }
        requires sound { IsSound notes }
        requires small { IsEncodable (tree_of output) }
        requires unfinished { IsUnfinished self.old notes.number }
        ensures ends { OnOk result (EndsTask self.old self.new notes output) }
        ensures names { self.new.names ≡ self.old.names }
        ensures stage { self.new.stage ≡ self.old.stage }
    {
        let NoteParts {
            task,
            no,
            deps,
            writes,
            needs,
            height,
        } = notes.into_parts();
        self.set_row(no, needs, writes.as_slice())?;
        self.heights[no.0 as usize] = height;
        self.ended += 1;
        let rec = TaskRecord {
            task,
            deps: Deps::new(deps),
            writes: Writes::new(writes),
            outcome: Outcome::Done(output),
        };
        self.records.put(no, rec)?;
        Ok(())
    }

    // The row of a task that requires these and wrote there.
    fn set_row(
        &mut self,
        no: TaskNo,
        needs: Vec<TaskNo>,
        writes: &[(Path, [u8; 32])],
    ) -> Result<(), OutOfMemory>
        requires number { no.0 < length self.old.rows }
        requires needs { AllBelow (length self.old.rows) (numbers needs.items) }
        ensures rows { OnOk result (length self.new.rows ≡ length self.old.rows) }
        ensures names { self.new.names ≡ self.old.names }
        ensures heights { self.new.heights ≡ self.old.heights }
        ensures ended { KeepsEnded self.old self.new }
        ensures set { OnOk result (self.new.rows ≡ slice_set self.old.rows no.0 (row_with (numbers needs.items) writes.now)) }
    {
        let edges = Edges {
            needs,
            reads: Vec::new(self.alloc),
            lists: Vec::new(self.alloc),
            writes: paths_of(self.alloc, writes)?,
        };
        self.rows.set_edges(no, edges)?;
        Ok(())
    }
}

// The paths that were written.
fn paths_of(alloc: Global, writes: &[(Path, [u8; 32])]) -> Result<Vec<Path>, OutOfMemory>
    ensures { IfOk result (λ paths. paths.items ≡ map (λ w. w.0) writes.now) }
{
    let mut paths = Vec::with_capacity(alloc, writes.len())?;
    for (path, _) in writes {
        paths.push(path.copy()?)?;
    }
    Ok(paths)
}
