//! The tasks that were entered, by their numbers.
ghost use Rattle.std.specs.Option.{option_map};
ghost use Rattle.std.specs.Prelude.{◌≡◌, ◌<◌, ◌++◌, ◌∷◌, [], length, All, None, is_some, slice_set, IfOk, IfSome, OnOk};
ghost use Rattle.pie_graph.specs.Numbers.{numbers};
ghost use Rattle.pie_graph.specs.Rows.{no_edges};
ghost use Rattle.pie_old.specs.inner.Rows.{paths_in};
ghost use Rattle.pie_record.specs.inner.Records.{record_of};
ghost use Rattle.pie_tables.specs.Tabled.{IsGiven};
ghost use Rattle.pie_topdown.specs.inner.Ledgers.{row_with, IsLedger, Grows};
ghost use Rattle.pie_topdown.specs.inner.Effects.{HasAdded, HasEnded, HasStarted, EndsIfNew};
ghost use Rattle.pie_topdown.specs.inner.Handed.{MayEndWith};
ghost use Rattle.pie_topdown.specs.inner.Places.{IsNew};

use pie_base::{MAX_TASKS, OutOfMemory, Path};
use pie_graph::{Edges, TaskNo, TaskRows};
use pie_record::{Outcome, Records, TaskNames, TaskRecord};
use pie_tables::Tables;
use pie_value::Task;
use pie_view::EnteredRows;
use std::alloc::Global;

/// The tasks that were entered, with the records of those that have ended. A call that runs out of memory leaves them of no use.
#[derive(Drop)]
pub(crate) struct Ledger {
    pub(crate) alloc: Global,
    pub(crate) tables: Tables,
    /// What each task that is done requires and wrote.
    pub(crate) rows: EnteredRows,
    /// At which place of the order each task ended.
    pub(crate) places: Vec<usize>,
    /// The tasks that have ended, in order.
    pub(crate) order: Vec<TaskNo>,
}

impl Ledger {
    /// No task was entered.
    #[tactic(auto, using(crate::proofs::Keeping::none_ledger))]
    pub(crate) fn new(alloc: Global) -> Result<Ledger, OutOfMemory>
        ensures ledger { IfOk result IsLedger }
        ensures none { IfOk result (λ l. l.tables.names ≡ []) }
    {
        let tables = Tables::new(alloc, TaskNames::new(alloc), Records::new(alloc))?;
        Ok(Ledger {
            alloc,
            tables,
            rows: EnteredRows::new(alloc),
            places: Vec::new(alloc),
            order: Vec::new(alloc),
        })
    }

    /// A task is entered, and gets the next number.
    pub(crate) fn add(&mut self, task: Task) -> Result<TaskNo, OutOfMemory>
        requires ledger { IsLedger self.old }
        requires task { IsNew self.old task }
        requires few { length self.old.tables.names < MAX_TASKS }
        ensures ledger { OnOk result (IsLedger self.new) }
        ensures grows { OnOk result (Grows self.old self.new) }
        ensures names { OnOk result (self.new.tables.names ≡ self.old.tables.names ++ task ∷ []) }
        ensures number { IfOk result (λ no. no.0 ≡ length self.old.tables.names) }
        ensures added { OnOk result (HasAdded self.old task self.new) }
    {
        let _no = self.rows.add()?;
        self.places.push(0)?;
        let no = self.tables.add(task)?;
        let _names = self.tables.names.as_slice();
        Ok(no)
    }

    /// How a task ended, if it has.
    pub(crate) fn outcome(&self, no: TaskNo) -> Result<Option<Outcome>, OutOfMemory>
        requires { IsLedger self.now }
        ensures outcome { IfOk result (λ o. o ≡ option_map (λ r. r.outcome) (record_of self.now.tables.records no.0)) }
        ensures given { IfOk result (λ o. IfSome o IsGiven) }
    {
        self.tables.outcome(no)
    }

    /// A task starts to run.
    #[tactic(auto, using(crate::proofs::Keeping::same_grows))]
    pub(crate) fn runs(&mut self, no: TaskNo)
        requires ledger { IsLedger self.old }
        requires number { no.0 < length self.old.tables.names }
        ensures ledger { IsLedger self.new }
        ensures names { self.new.tables.names ≡ self.old.tables.names }
        ensures grows { Grows self.old self.new }
        ensures started { HasStarted self.old no.0 self.new }
    {
        self.tables.runs(no);
    }

    /// A task ends with this record, which requires the tasks of these numbers. One that has ended stays as it is.
    pub(crate) fn end(
        &mut self,
        no: TaskNo,
        rec: TaskRecord,
        needs: Vec<TaskNo>,
    ) -> Result<(), OutOfMemory>
        requires ledger { IsLedger self.old }
        requires may { MayEndWith self.old no.0 rec (numbers needs.items) }
        ensures ledger { OnOk result (IsLedger self.new) }
        ensures grows { OnOk result (Grows self.old self.new) }
        ensures names { OnOk result (self.new.tables.names ≡ self.old.tables.names) }
        ensures ends { OnOk result (EndsIfNew self.old no.0 rec (numbers needs.items) self.new) }
        ensures ran { OnOk result (self.new.tables.ran.items ≡ self.old.tables.ran.items) }
    {
        if self.has_ended(no) {
            return Ok(());
        }
        self.end_first(no, rec, needs)
    }

    fn has_ended(&self, no: TaskNo) -> bool
        ensures { result ≡ is_some (record_of self.now.tables.records no.0) }
    {
        self.tables.records.get(no).is_some()
    }

    // The same of a task that hasn't ended.
    #[tactic(auto, using(crate::proofs::Keeping::needs_inside))]
    fn end_first(
        &mut self,
        no: TaskNo,
        rec: TaskRecord,
        needs: Vec<TaskNo>,
    ) -> Result<(), OutOfMemory>
        requires ledger { IsLedger self.old }
        requires unended { record_of self.old.tables.records no.0 ≡ None }
        requires may { MayEndWith self.old no.0 rec (numbers needs.items) }
        ensures ledger { OnOk result (IsLedger self.new) }
        ensures grows { OnOk result (Grows self.old self.new) }
        ensures names { OnOk result (self.new.tables.names ≡ self.old.tables.names) }
        ensures ends { OnOk result (HasEnded self.old no.0 rec (numbers needs.items) self.new) }
    {
        self.set_row(no, needs, rec.writes.as_slice())?;
        self.places[no.0 as usize] = self.order.len();
        self.order.push(no)?;
        self.tables.put(no, rec)?;
        Ok(())
    }

    // The row of a task that requires these and wrote there.
    fn set_row(
        &mut self,
        no: TaskNo,
        needs: Vec<TaskNo>,
        writes: &[(Path, [u8; 32])],
    ) -> Result<(), OutOfMemory>
        requires number { no.0 < length self.old.rows }
        requires needs { All (λ n. n < length self.old.rows) (numbers needs.items) }
        ensures set { OnOk result (self.new.rows ≡ slice_set self.old.rows no.0 (row_with (numbers needs.items) (paths_in writes.now))) }
        ensures tables { self.new.tables ≡ self.old.tables }
        ensures places { self.new.places ≡ self.old.places }
        ensures order { self.new.order ≡ self.old.order }
    {
        let edges = Edges {
            needs,
            reads: Vec::new(self.alloc),
            lists: Vec::new(self.alloc),
            writes: paths_of(self.alloc, writes)?,
        };
        self.rows.set_edges(no, edges)?;
        Ok(())
    }
}

// The paths of writes.
fn paths_of(alloc: Global, writes: &[(Path, [u8; 32])]) -> Result<Vec<Path>, OutOfMemory>
    ensures { IfOk result (λ paths. paths.items ≡ paths_in writes.now) }
{
    let mut paths = Vec::with_capacity(alloc, writes.len())?;
    for (path, _) in writes {
        paths.push(path.copy()?)?;
    }
    Ok(paths)
}
