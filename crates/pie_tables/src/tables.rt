//! The tables: a name, a flag and at most one record for each number.
ghost use Rattle.std.specs.Prelude.{◌≡◌, ℕ, ◌<◌, ◌≤◌, ◌++◌, ◌∷◌, [], false, true, length, replicate, slice_get, slice_set, Some, IfOk, IfSome, OnOk};
ghost use Rattle.std.specs.List.{Contains};
ghost use Rattle.std.specs.Option.{option_copied, option_map};
ghost use Rattle.pie_value.specs.Canonical.{IsEncodableTask};
ghost use Rattle.pie_record.specs.inner.Records.{record_of, Puts};
ghost use Rattle.pie_tables.specs.Tabled.{HasOneMore, IsTables, IsRecordAt, IsKept, IsGiven};

use pie_base::{MAX_TASKS, OutOfMemory};
use pie_graph::TaskNo;
use pie_record::{Outcome, Records, TaskNames, TaskRecord};
use pie_value::Task;
use std::alloc::Global;

/// The tasks of a build by their numbers. A call that runs out of memory leaves them of no use.
#[derive(Drop)]
pub struct Tables {
    pub alloc: Global,
    pub names: TaskNames,
    pub records: Records,
    /// Which tasks ran in this build.
    pub ran: Vec<bool>,
}

impl Tables {
    /// The tasks of an old build with their records. None of them ran.
    #[tactic(auto, using(crate::proofs::Tabling::begun_tables))]
    pub fn new(alloc: Global, names: TaskNames, records: Records) -> Result<Tables, OutOfMemory>
        requires few { length names ≤ MAX_TASKS }
        requires records { (n : ℕ) → IfSome (record_of records n) (IsRecordAt names n) }
        ensures tables { IfOk result IsTables }
        ensures names { IfOk result (λ t. t.names ≡ names) }
        ensures records { IfOk result (λ t. t.records ≡ records) }
        ensures ran { IfOk result (λ t. t.ran.items ≡ replicate (length names) false) }
    {
        let ran = vec![in alloc; false; names.as_slice().len()]?;
        Ok(Tables {
            alloc,
            names,
            records,
            ran,
        })
    }

    /// A task that comes later gets the next number. It has no record so far.
    #[tactic(auto, using(crate::proofs::Tabling::added_tables))]
    pub fn add(&mut self, task: Task) -> Result<TaskNo, OutOfMemory>
        requires tables { IsTables self.old }
        requires encodable { IsEncodableTask task }
        requires absent { ¬ (Contains self.old.names task) }
        requires few { length self.old.names < MAX_TASKS }
        ensures tables { OnOk result (IsTables self.new) }
        ensures added { OnOk result (HasOneMore self.old task self.new) }
        ensures number { IfOk result (λ no. no.0 ≡ length self.old.names) }
        ensures records { self.new.records ≡ self.old.records }
    {
        self.ran.push(false)?;
        let no = self.names.add(task)?;
        Ok(no)
    }

    /// A task starts to run.
    #[tactic(auto, using(crate::proofs::Tabling::ran_tables))]
    pub fn runs(&mut self, no: TaskNo)
        requires tables { IsTables self.old }
        requires number { no.0 < length self.old.names }
        ensures tables { IsTables self.new }
        ensures ran { self.new.ran.items ≡ slice_set self.old.ran.items no.0 true }
        ensures names { self.new.names ≡ self.old.names }
        ensures records { self.new.records ≡ self.old.records }
    {
        self.ran[no.0 as usize] = true;
    }

    /// Keeps the record of a task, in the place of an earlier one.
    #[tactic(auto, using(crate::proofs::Tabling::put_tables))]
    pub fn put(&mut self, no: TaskNo, rec: TaskRecord) -> Result<(), OutOfMemory>
        requires tables { IsTables self.old }
        requires named { slice_get self.old.names no.0 ≡ Some rec.task }
        requires kept { IsKept rec }
        ensures tables { OnOk result (IsTables self.new) }
        ensures puts { OnOk result (Puts self.old.records self.new.records no.0 rec) }
        ensures names { self.new.names ≡ self.old.names }
        ensures ran { self.new.ran.items ≡ self.old.ran.items }
    {
        self.records.put(no, rec)
    }

    /// How a task ended, if it has a record.
    #[tactic(auto, using(crate::proofs::Tabling::given_at))]
    pub fn outcome(&self, no: TaskNo) -> Result<Option<Outcome>, OutOfMemory>
        requires tables { IsTables self.now }
        ensures outcome { IfOk result (λ o. o ≡ option_map (λ r. r.outcome) (record_of self.now.records no.0)) }
        ensures given { IfOk result (λ o. IfSome o IsGiven) }
    {
        match self.records.get(no) {
            Some(rec) => Ok(Some(rec.outcome.copy(self.alloc)?)),
            None => Ok(None),
        }
    }
}
