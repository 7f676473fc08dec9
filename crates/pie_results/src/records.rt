//! The records of live tasks in the order of a store.
ghost use Rattle.std.specs.Prelude.{◌≡◌, All, length, IfOk};
ghost use Rattle.pie_graph.specs.Numbers.{numbers, AllBelow};
ghost use Rattle.pie_record.specs.Canonical.{IsStorable};
ghost use Rattle.pie_tables.specs.Tabled.{IsTables};
ghost use Rattle.pie_results.specs.inner.Ordered.{AreOrdered, AreRecords, AreApart, recorded};

use crate::ascending::as_they_stand;
use crate::places::sorted;
use pie_base::OutOfMemory;
use pie_graph::TaskNo;
use pie_record::{Records, TaskRecord};
use pie_tables::Tables;
use std::alloc::Global;

/// The records of live tasks that are done, by height and task. They are moved out of the tables.
pub(crate) fn ordered(
    tables: &mut Tables,
    heights: &[u32],
    live: &[TaskNo],
) -> Result<Vec<TaskRecord>, OutOfMemory>
    requires tables { IsTables tables.old }
    requires live { AllBelow (length heights.now) (numbers live.now) }
    ensures storable { IfOk result (λ rows. All IsStorable rows.items) }
    ensures records { IfOk result (λ rows. AreRecords tables.old.names tables.old.records heights.now (numbers live.now) rows.items) }
{
    let nos = in_order(tables, heights, live)?;
    let rows = taken(tables.alloc, &mut tables.records, nos.as_slice())?;
    Ok(rows)
}

// The numbers of the live tasks that are done, by height and canonical bytes.
fn in_order(tables: &Tables, heights: &[u32], live: &[TaskNo]) -> Result<Vec<u32>, OutOfMemory>
    requires tables { IsTables tables.now }
    requires live { AllBelow (length heights.now) (numbers live.now) }
    ensures { IfOk result (λ nos. AreOrdered tables.now.records heights.now (numbers live.now) (numbers live.now) nos.items) }
{
    match as_they_stand(tables, heights, live)? {
        Some(nos) => Ok(nos),
        None => sorted(tables, heights, live),
    }
}

// Moves the records of numbered tasks out, in the order of this list.
fn taken(alloc: Global, records: &mut Records, nos: &[u32]) -> Result<Vec<TaskRecord>, OutOfMemory>
    requires { AreApart nos.now }
    ensures { IfOk result (λ rows. rows.items ≡ recorded records.old nos.now) }
{
    let mut rows = Vec::with_capacity(alloc, nos.len())?;
    for no in nos {
        records.move_to(TaskNo(*no), &mut rows)?;
    }
    Ok(rows)
}
