//! The record of each task.
ghost use Rattle.std.specs.Prelude.{◌≡◌, ◌<◌, ◌++◌, ℕ, length, None, OnOk, OnErr};
ghost use Rattle.std.specs.Option.{option_copied, option_to_list};
ghost use Rattle.pie_record.specs.inner.Records.{record_of, Puts, Takes};

use crate::TaskRecord;
use pie_base::OutOfMemory;
use pie_graph::TaskNo;
use std::alloc::Global;

/// Records by the numbers of their tasks, with a slot for each number up to the greatest that got one: numbers of tasks are
/// dense. Contracts see them by `record_of`.
#[derive(Drop)]
pub struct Records {
    slots: Vec<Option<TaskRecord>>,
}

impl Records {
    /// No records.
    pub fn new(alloc: Global) -> Records
        ensures { (n : ℕ) → record_of result n ≡ None }
    {
        Records {
            slots: Vec::new(alloc),
        }
    }

    /// The record of a task.
    pub fn get(&self, no: TaskNo) -> Option<&TaskRecord>
        ensures { option_copied result ≡ record_of self.now no.0 }
    {
        match self.slots.get(no.0 as usize) {
            Some(slot) => slot.as_ref(),
            None => None,
        }
    }

    /// Keeps the record of a task, in the place of an earlier one.
    pub fn put(&mut self, no: TaskNo, rec: TaskRecord) -> Result<(), OutOfMemory>
        ensures puts { OnOk result (Puts self.old self.new no.0 rec) }
        ensures unchanged { OnErr result ((n : ℕ) → record_of self.new n ≡ record_of self.old n) }
    {
        self.make_slot(no)?;
        self.slots[no.0 as usize] = Some(rec);
        Ok(())
    }

    /// Gives the record of a task away, if it has one.
    pub fn take(&mut self, no: TaskNo) -> Option<TaskRecord>
        ensures taken { result ≡ record_of self.old no.0 }
        ensures takes { Takes self.old self.new no.0 }
    {
        match self.slots.get_mut(no.0 as usize) {
            Some(slot) => slot.take(),
            None => None,
        }
    }

    /// Moves the record of a task to the end of others, if it has one.
    pub fn move_to(&mut self, no: TaskNo, others: &mut Vec<TaskRecord>) -> Result<(), OutOfMemory>
        ensures moved { OnOk result (others.new.items ≡ others.old.items ++ option_to_list (record_of self.old no.0)) }
        ensures takes { Takes self.old self.new no.0 }
    {
        match self.take(no) {
            Some(rec) => {
                others.push(rec)?;
                Ok(())
            }
            None => Ok(()),
        }
    }

    // Makes slots up to that of a task, where they aren't there yet.
    fn make_slot(&mut self, no: TaskNo) -> Result<(), OutOfMemory>
        ensures there { OnOk result (no.0 < length self.new.slots.items) }
        ensures same { (n : ℕ) → record_of self.new n ≡ record_of self.old n }
    {
        while self.slots.len() <= no.0 as usize {
            self.slots.push(None)?;
        }
        Ok(())
    }
}
