//! From the records of a store to tables.
ghost use Rattle.std.specs.Prelude.{◌≡◌, ◌≤◌, All, length, IfOk, IfSome};
ghost use Rattle.pie_record.specs.Canonical.{IsStorable};
ghost use Rattle.pie_store.specs.Canonical.{AreInOrder, tasks_in};
ghost use Rattle.pie_store.specs.inner.Ties.{AreTies};
ghost use Rattle.pie_old.specs.inner.Loaded.{AreTablesOf, IsLoaded, IsOld};

use crate::graph::graph_of;
use crate::looking::looks_of;
use crate::numbering::records_of;
use crate::old::{Loaded, Old};
use crate::tying::ties_of;
use pie_base::{MAX_TASKS, OutOfMemory};
use pie_record::{TaskNames, TaskRecord};
use pie_store::{Rows, Ties};
use pie_tables::Tables;
use std::alloc::Global;

/// The tasks of records in store order, each with the number of its row. The records are moved.
pub fn load(alloc: Global, rows: Rows) -> Result<Loaded, OutOfMemory>
    requires storable { All IsStorable rows }
    requires order { AreInOrder rows }
    ensures { IfOk result (IsLoaded rows) }
{
    let (rows, ties) = rows.into_parts();
    if rows.len() > MAX_TASKS as usize {
        let task = rows[MAX_TASKS as usize].task.copy()?;
        return Ok(Loaded::Many(task));
    }
    let old = whole(alloc, ties, rows)?;
    Ok(Loaded::Whole(old))
}

// The tables of records that are few enough.
fn whole(alloc: Global, ties: Option<Ties>, rows: Vec<TaskRecord>) -> Result<Old, OutOfMemory>
    requires ties { IfSome ties (AreTies rows.items) }
    requires few { length rows.items ≤ MAX_TASKS }
    requires storable { All IsStorable rows.items }
    requires order { AreInOrder rows.items }
    ensures { IfOk result (IsOld rows.items) }
{
    let Ties { names, needs } = ties_of(alloc, ties, rows.as_slice())?;
    let graph = graph_of(alloc, needs, rows.as_slice())?;
    let looks_out = looks_of(alloc, rows.as_slice())?;
    let tables = tables_of(alloc, names, rows)?;
    Ok(Old {
        tables,
        rows: graph,
        looks_out,
    })
}

// The tables of records: none of the tasks ran.
fn tables_of(alloc: Global, names: TaskNames, rows: Vec<TaskRecord>) -> Result<Tables, OutOfMemory>
    requires names { names ≡ tasks_in rows.items }
    requires few { length rows.items ≤ MAX_TASKS }
    requires storable { All IsStorable rows.items }
    ensures { IfOk result (AreTablesOf rows.items) }
{
    let records = records_of(alloc, rows)?;
    let tables = Tables::new(alloc, names, records)?;
    Ok(tables)
}
