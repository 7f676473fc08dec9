//! Look-ups of the tasks of records that were read.
ghost use Rattle.std.specs.Prelude.{◌≡◌, ◌<◌, ◌^◌, length, Some, IfSome, IfOk, OnOk, slice_get, slice_index_or};
ghost use Rattle.std.specs.Option.{option_map};
ghost use Rattle.pie_value.specs.Canonical.{IsCanonicalTask};
ghost use Rattle.pie_record.specs.inner.Names.{Numbers};
ghost use Rattle.pie_store.specs.Ranks.{rank_in, IsStored};
ghost use Rattle.pie_store.specs.inner.Ties.{tasks_among};

use crate::ranked::RankedRows;
use pie_base::OutOfMemory;
use pie_graph::TaskNo;
use pie_record::{TaskNames, TaskRecord};
use pie_value::Task;

// What look-ups share: memory for canonical bytes, and the number that was found last.
#[derive(Drop)]
pub(crate) struct Lookup {
    pub(crate) bytes: Vec<u8>,
    pub(crate) last: TaskNo,
}

impl RankedRows {
    // The tasks of the records, in their order.
    pub(crate) fn names(&self) -> &TaskNames {
        &self.names
    }

    // The number of a task and its height, if it has a record.
    pub(crate) fn place(
        &self,
        lookup: &mut Lookup,
        task: &Task,
    ) -> Result<Option<(TaskNo, u64)>, OutOfMemory>
        requires { IsStored task.now }
        ensures rank { IfOk result (λ p. option_map (λ q. q.1) p ≡ rank_in self.now task.now) }
        ensures number { IfOk result (λ p. IfSome p (λ q. slice_get (tasks_among self.now) q.0.0 ≡ Some task.now)) }
        ensures within { IfOk result (λ p. IfSome p (λ q. q.0.0 < length self.now)) }
        ensures low { IfOk result (λ p. IfSome p (λ q. q.1 < length self.now)) }
        ensures small { IfOk result (λ p. IfSome p (λ q. q.1 < 2 ^ 32)) }
    {
        let number = self
            .names
            .number_near(lookup.last, &mut lookup.bytes, task)?;
        lookup.last = number.unwrap_or(lookup.last);
        Ok(self.with_height(task, number))
    }

    // The height of a task, if it has a record.
    pub(crate) fn rank(&self, bytes: &mut Vec<u8>, task: &Task) -> Result<Option<u64>, OutOfMemory>
        requires { IsStored task.now }
        ensures rank { IfOk result (λ h. h ≡ rank_in self.now task.now) }
        ensures bytes { OnOk result (IsCanonicalTask task.now bytes.new.items) }
    {
        let number = self.names.number_in(bytes, task)?;
        match self.with_height(task, number) {
            Some((_, height)) => Ok(Some(height)),
            None => Ok(None),
        }
    }

    // The number of a task beside its height.
    fn with_height(&self, task: &Task, number: Option<TaskNo>) -> Option<(TaskNo, u64)>
        requires stored { IsStored task.now }
        requires number { Numbers (tasks_among self.now) task.now number }
        ensures rank { option_map (λ q. q.1) result ≡ rank_in self.now task.now }
        ensures number { IfSome result (λ q. slice_get (tasks_among self.now) q.0.0 ≡ Some task.now) }
        ensures within { IfSome result (λ q. q.0.0 < length self.now) }
        ensures low { IfSome result (λ q. q.1 < length self.now) }
        ensures small { IfSome result (λ q. q.1 < 2 ^ 32) }
    {
        match number {
            Some(no) => {
                let height = height_at(self.heights.as_slice(), no.0 as usize);
                Some((no, height))
            }
            None => None,
        }
    }

    // The record of the task with this number.
    pub(crate) fn record(&self, no: TaskNo) -> &TaskRecord
        requires { no.0 < length self.now }
        ensures { slice_get (tasks_among self.now) no.0 ≡ Some result.now.task }
    {
        record_at(self.rows.as_slice(), no.0 as usize)
    }
}

fn record_at(rows: &[TaskRecord], at: usize) -> &TaskRecord
    requires { at < length rows.now }
    ensures { slice_get rows.now at ≡ Some result.now }
{
    &rows[at]
}

pub(crate) fn height_at(heights: &[u64], at: usize) -> u64
    requires { at < length heights.now }
    ensures { result ≡ slice_index_or heights.now at 0 }
{
    heights[at]
}
