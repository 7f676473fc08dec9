//! Live tasks that stand in the order of a store already.
ghost use Rattle.std.specs.Prelude.{◌≡◌, length, IfOk, IfSome, option_copied, option_map};
ghost use Rattle.std.specs.Ordering.{is_lt};
ghost use Rattle.pie_graph.specs.Numbers.{numbers, AllBelow};
ghost use Rattle.pie_value.specs.Canonical.{enc_task, IsEncodableTask};
ghost use Rattle.pie_record.specs.inner.Records.{record_of};
ghost use Rattle.pie_tables.specs.Tabled.{IsTables};
ghost use Rattle.pie_results.specs.inner.Ordered.{AreOrdered, done_in, follows as specs_follows, key_cmp};

use crate::places::is_done;
use pie_base::OutOfMemory;
use pie_graph::TaskNo;
use pie_record::TaskRecord;
use pie_tables::Tables;
use pie_value::Task;
use std::cmp::Ordering;

/// The numbers of the live tasks that are done, where these come by height and canonical bytes as they stand. Most often
/// they do, since the tasks of an earlier build have their numbers in the order of its store. `None` would do always: a map
/// then puts them into order, only slower.
pub(crate) fn as_they_stand(
    tables: &Tables,
    heights: &[u32],
    live: &[TaskNo],
) -> Result<Option<Vec<u32>>, OutOfMemory>
    requires tables { IsTables tables.now }
    requires live { AllBelow (length heights.now) (numbers live.now) }
    ensures { IfOk result (λ found. IfSome found (λ nos. AreOrdered tables.now.records heights.now (numbers live.now) (numbers live.now) nos.items)) }
{
    let mut nos = Vec::new(tables.alloc);
    let mut last = None;
    for no in live {
        if let Some(rec) = done_at(tables, *no) {
            let height = heights[no.0 as usize];
            if !follows(last, height, &rec.task) {
                return Ok(None);
            }
            nos.push(no.0)?;
            last = Some((height, &rec.task));
        }
    }
    Ok(Some(nos))
}

// The record of a task that is done.
fn done_at(tables: &Tables, no: TaskNo) -> Option<&TaskRecord>
    ensures { option_copied result ≡ done_in (record_of tables.now.records no.0) }
{
    match tables.records.get(no) {
        Some(rec) if is_done(rec) => Some(rec),
        _ => None,
    }
}

// Whether a task of this height comes after the last one, if there is one.
fn follows(last: Option<(u32, &Task)>, height: u32, task: &Task) -> bool
    requires last { IfSome last (λ l. IsEncodableTask l.1.now) }
    requires task { IsEncodableTask task.now }
    ensures { result ≡ specs_follows (option_map (λ l. (l.0, enc_task l.1.now)) last.entry) (height, enc_task task.now) }
{
    match last {
        Some((below, before)) => is_before(below, before, height, task),
        None => true,
    }
}

// Whether one height and task comes before another.
fn is_before(height: u32, task: &Task, other_height: u32, other: &Task) -> bool
    requires task { IsEncodableTask task.now }
    requires other { IsEncodableTask other.now }
    ensures { result ≡ is_lt (key_cmp (height, enc_task task.now) (other_height, enc_task other.now)) }
{
    match height.cmp(&other_height) {
        Ordering::Less => true,
        Ordering::Equal => task.cmp(other) == Ordering::Less,
        Ordering::Greater => false,
    }
}
