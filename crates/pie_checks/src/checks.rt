//! The last checks of a build.
ghost use Rattle.std.specs.Prelude.{length, IfOk};
ghost use Rattle.pie_graph.specs.Numbers.{numbers, AllBelow};
ghost use Rattle.pie_record.specs.inner.Names.{AreDistinct};
ghost use Rattle.pie_checks.specs.Records.{Wrote, Missed};
ghost use Rattle.pie_checks.specs.Refusals.{FindsFirst};
ghost use Rattle.pie_checks.specs.Searches.{AreEncodable};

use crate::hidden::hidden;
use crate::listing::writes_of;
use crate::misses::misses_of;
use crate::nested::nested;
use crate::overlap::overlap;
use pie_base::OutOfMemory;
use pie_graph::TaskNo;
use pie_record::{Records, TaskNames};
use pie_value::{Refusal, Task};
use std::alloc::Global;

/// Why a build whose roots are done is refused, or `None` where it is accepted: the first that holds of two live
/// tasks that wrote one path, a written path below another, and a written path that another live task saw absent;
/// each with its least path and then its least tasks. Rule: docs/BUILDING.md, "Verdict".
pub fn final_checks(
    alloc: Global,
    names: &TaskNames,
    records: &Records,
    live: &[TaskNo],
) -> Result<Option<Refusal>, OutOfMemory>
    requires { AllBelow (length names.now) (numbers live.now) }
    ensures { IfOk result (FindsFirst (Wrote names.now records.now (numbers live.now)) (Missed names.now records.now (numbers live.now))) }
{
    let found = first_refusal(alloc, names.as_slice(), records, live)?;
    Ok(found)
}

// The same of the tasks in the order of their numbers.
fn first_refusal(
    alloc: Global,
    tasks: &[Task],
    records: &Records,
    live: &[TaskNo],
) -> Result<Option<Refusal>, OutOfMemory>
    requires distinct { AreDistinct tasks.now }
    requires encodable { AreEncodable tasks.now }
    requires live { AllBelow (length tasks.now) (numbers live.now) }
    ensures { IfOk result (FindsFirst (Wrote tasks.now records.now (numbers live.now)) (Missed tasks.now records.now (numbers live.now))) }
{
    let writes = writes_of(alloc, records, live)?;
    if let Some(refusal) = overlap(alloc, tasks, &writes)? {
        return Ok(Some(refusal));
    }
    if let Some(refusal) = nested(alloc, &writes)? {
        return Ok(Some(refusal));
    }
    let misses = misses_of(alloc, records, live)?;
    let found = hidden(alloc, tasks, &writes, &misses)?;
    Ok(found)
}
