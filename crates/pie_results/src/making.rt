//! The one call.
ghost use Rattle.std.specs.Prelude.{◌≡◌, List, All, length, IfOk};
ghost use Rattle.pie_graph.specs.Numbers.{numbers, AllBelow};
ghost use Rattle.pie_reach.specs.inner.Reaches.{IsAcyclic};
ghost use Rattle.pie_tables.specs.Tabled.{IsTables};
ghost use Rattle.pie_value.specs.Canonical.{IsEncodableTask};
ghost use Rattle.pie_value.specs.declared.task.Task.{Task};
ghost use Rattle.pie_value.specs.declared.verdict.Verdict.TheVariants.{Refused};
ghost use Rattle.pie_results.specs.inner.Live.{AreLive};
ghost use Rattle.pie_results.specs.inner.Made.{Checks, Collects, IsEmptyWhereRefused, IsKept, Makes};
ghost use Rattle.pie_results.specs.inner.Stored.{HaveEnded, StoredWhere};

use crate::failures::first_failure;
use crate::files::files_of;
use crate::outputs::{numbers_of, outputs_of};
use crate::records::ordered;
use pie_base::OutOfMemory;
use pie_checks::{Built, final_checks};
use pie_graph::{TaskNo, TaskRows};
use pie_reach::{heights, live};
use pie_tables::Tables;
use pie_value::{Refusal, Task, Verdict};
use pie_view::Stage;
use std::alloc::Global;

/// What a build makes of its tables. It is refused where a root failed, as the first of these says, or where the last
/// checks of its live tasks refuse it. Else the records of the live tasks come in store order, and the files that those of
/// them wrote which ran in this build. The records of live tasks are moved out, so the tables are of no use afterwards.
/// Rule: docs/BUILDING.md, "Verdict".
pub fn results<R: TaskRows>(
    alloc: Global,
    tables: &mut Tables,
    rows: &R,
    stage: &Stage,
    roots: &[Task],
) -> Result<Built, OutOfMemory>
    requires tables { IsTables tables.old }
    requires rows { length tables.old.names ≡ length (R.rows rows.now) }
    requires acyclic { IsAcyclic (R.rows rows.now) }
    requires roots { All IsEncodableTask roots.now }
    ensures refused_empty { IfOk result IsEmptyWhereRefused }
    ensures kept { IfOk result IsKept }
    ensures makes { IfOk result (Makes tables.old (R.rows rows.now) stage.now roots.now) }
    ensures stored { IfOk result (λ b. HaveEnded tables.old.names tables.old.records (R.rows rows.now) roots.now
        → StoredWhere b.verdict tables.old.names roots.now b) }
{
    match first_failure(tables, roots)? {
        Some(refusal) => Ok(refused(alloc, refusal)),
        None => {
            let built = checked(alloc, tables, rows, stage, roots)?;
            Ok(built)
        }
    }
}

// The same where no root failed.
fn checked<R: TaskRows>(
    alloc: Global,
    tables: &mut Tables,
    rows: &R,
    stage: &Stage,
    roots: &[Task],
) -> Result<Built, OutOfMemory>
    requires tables { IsTables tables.old }
    requires rows { length tables.old.names ≡ length (R.rows rows.now) }
    requires acyclic { IsAcyclic (R.rows rows.now) }
    requires roots { All IsEncodableTask roots.now }
    ensures refused_empty { IfOk result IsEmptyWhereRefused }
    ensures kept { IfOk result IsKept }
    ensures checks { IfOk result (Checks tables.old (R.rows rows.now) stage.now roots.now) }
    ensures stored { IfOk result (λ b. HaveEnded tables.old.names tables.old.records (R.rows rows.now) roots.now
        → StoredWhere b.verdict tables.old.names roots.now b) }
{
    let _names = tables.names.as_slice();
    let live = live_of(alloc, tables, rows, roots)?;
    match final_checks(alloc, &tables.names, &tables.records, live.as_slice())? {
        Some(refusal) => Ok(refused(alloc, refusal)),
        None => {
            let built = accepted(tables, rows, stage, live.as_slice(), roots)?;
            Ok(built)
        }
    }
}

// The tasks that roots reach.
fn live_of<R: TaskRows>(
    alloc: Global,
    tables: &Tables,
    rows: &R,
    roots: &[Task],
) -> Result<Vec<TaskNo>, OutOfMemory>
    requires rows { length tables.now.names ≡ length (R.rows rows.now) }
    requires roots { All IsEncodableTask roots.now }
    ensures live { IfOk result (λ live. AreLive tables.now.names roots.now (R.rows rows.now) (numbers live.items)) }
    ensures below { IfOk result (λ live. AllBelow (length tables.now.names) (numbers live.items)) }
{
    let _count = rows.count();
    let starts = numbers_of(tables, roots)?;
    let live = live(alloc, rows, starts.as_slice())?;
    Ok(live)
}

// What a build makes that is accepted.
fn accepted<R: TaskRows>(
    tables: &mut Tables,
    rows: &R,
    stage: &Stage,
    live: &[TaskNo],
    roots: &[Task],
) -> Result<Built, OutOfMemory>
    requires tables { IsTables tables.old }
    requires rows { length tables.old.names ≡ length (R.rows rows.now) }
    requires acyclic { IsAcyclic (R.rows rows.now) }
    requires live { AllBelow (length tables.old.names) (numbers live.now) }
    requires roots { All IsEncodableTask roots.now }
    ensures refused_empty { IfOk result IsEmptyWhereRefused }
    ensures kept { IfOk result IsKept }
    ensures collects { IfOk result (Collects tables.old (R.rows rows.now) stage.now roots.now (numbers live.now)) }
{
    let heights = heights(tables.alloc, rows)?;
    let files = files_of(tables, stage, live)?;
    let outputs = outputs_of(tables, roots)?;
    let rows = ordered(tables, heights.as_slice(), live)?;
    Ok(Built {
        verdict: Verdict::Accepted,
        rows,
        files,
        outputs,
    })
}

// A refused build makes nothing.
fn refused(alloc: Global, refusal: Refusal) -> Built
    ensures verdict { result.verdict ≡ Refused refusal }
    ensures stored { (names : List Task) (roots : List Task) → StoredWhere result.verdict names roots result }
    ensures refused_empty { IsEmptyWhereRefused result }
    ensures kept { IsKept result }
{
    Built {
        verdict: Verdict::Refused(refusal),
        rows: Vec::new(alloc),
        files: Vec::new(alloc),
        outputs: Vec::new(alloc),
    }
}
