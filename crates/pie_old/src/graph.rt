//! What the tasks of records required and wrote, by their numbers.
ghost use Rattle.std.specs.Prelude.{◌≡◌, ◌≤◌, length, map, IfOk};
ghost use Rattle.pie_graph.specs.Rows.{row_of};
ghost use Rattle.pie_store.specs.Canonical.{AreInOrder, tasks_in};
ghost use Rattle.pie_store.specs.inner.Ties.{AreNeeds};
ghost use Rattle.pie_walk.specs.States.{NeedsAreEarlier};
ghost use Rattle.pie_old.specs.inner.Rows.{AreRowsOf};

use crate::row::edges_of;
use pie_base::{MAX_TASKS, OutOfMemory};
use pie_graph::{Edges, TaskNo};
use pie_record::TaskRecord;
use pie_union::UnionRows;
use std::alloc::Global;

/// The rows of records in store order, which require the tasks of these numbers. The numbers are moved.
pub(crate) fn graph_of(
    alloc: Global,
    needs: Vec<Vec<TaskNo>>,
    rows: &[TaskRecord],
) -> Result<UnionRows, OutOfMemory>
    requires needs { AreNeeds (tasks_in rows.now) needs.items rows.now }
    requires few { length rows.now ≤ MAX_TASKS }
    requires order { AreInOrder rows.now }
    ensures rows { IfOk result (AreRowsOf (tasks_in rows.now) rows.now) }
    ensures earlier { IfOk result NeedsAreEarlier }
{
    let edges = all_edges(alloc, needs, rows)?;
    let graph = UnionRows::of(alloc, edges)?;
    Ok(graph)
}

// The edges of each record.
fn all_edges(
    alloc: Global,
    needs: Vec<Vec<TaskNo>>,
    rows: &[TaskRecord],
) -> Result<Vec<Edges>, OutOfMemory>
    requires { AreNeeds (tasks_in rows.now) needs.items rows.now }
    ensures { IfOk result (λ edges. AreRowsOf (tasks_in rows.now) rows.now (map row_of edges.items)) }
{
    let mut all = Vec::with_capacity(alloc, rows.len())?;
    let mut at = 0;
    for nos in needs {
        let edges = edges_of(alloc, nos, &rows[at])?;
        all.push(edges)?;
        at += 1;
    }
    Ok(all)
}
