//! The numbers of live tasks in the order of a store.
ghost use Rattle.std.specs.Prelude.{◌≡◌, ◌<◌, ◌++◌, ◌∷◌, [], ℕ, List, length, IfOk, OnOk};
ghost use Rattle.std.specs.List.{Contains};
ghost use Rattle.pie_graph.specs.Numbers.{numbers, AllBelow};
ghost use Rattle.pie_tables.specs.Tabled.{IsTables};
ghost use Rattle.pie_results.specs.inner.Failures.{is_done as specs_is_done};
ghost use Rattle.pie_results.specs.inner.Ordered.{AreOrdered, ArePlaces, numbers_in};

use pie_base::OutOfMemory;
use pie_graph::TaskNo;
use pie_record::{Outcome, TaskRecord};
use pie_tables::Tables;
use pie_value::encode_task;
use std::alloc::Global;
use std::collections::BTreeMap;

/// The numbers of the live tasks that are done, by height and canonical bytes. A map puts them into order.
pub(crate) fn sorted(
    tables: &Tables,
    heights: &[u32],
    live: &[TaskNo],
) -> Result<Vec<u32>, OutOfMemory>
    requires tables { IsTables tables.now }
    requires live { AllBelow (length heights.now) (numbers live.now) }
    ensures { IfOk result (λ nos. AreOrdered tables.now.records heights.now (numbers live.now) (numbers live.now) nos.items) }
{
    let _names = tables.names.as_slice();
    let places = places_of(tables, heights, live)?;
    let nos = numbers_at(tables.alloc, &places)?;
    Ok(nos)
}

// The numbers at places.
fn numbers_at(
    alloc: Global,
    places: &BTreeMap<(u32, Vec<u8>), u32>,
) -> Result<Vec<u32>, OutOfMemory>
    ensures { IfOk result (λ nos. nos.items ≡ numbers_in places.now.entries) }
{
    let mut nos = Vec::new(alloc);
    for (_, no) in places {
        nos.push(*no)?;
    }
    Ok(nos)
}

// The live tasks that are done, by height and canonical bytes.
fn places_of(
    tables: &Tables,
    heights: &[u32],
    live: &[TaskNo],
) -> Result<BTreeMap<(u32, Vec<u8>), u32>, OutOfMemory>
    requires tables { IsTables tables.now }
    requires live { AllBelow (length heights.now) (numbers live.now) }
    ensures { IfOk result (λ places. ArePlaces tables.now.records heights.now (numbers live.now) (numbers live.now) places.entries) }
{
    let mut places = BTreeMap::new(tables.alloc);
    for no in live {
        put_place(tables, heights, *no, &mut places)?;
    }
    Ok(places)
}

// Adds a task under its height and its canonical bytes, if it is done.
fn put_place(
    tables: &Tables,
    heights: &[u32],
    no: TaskNo,
    places: &mut BTreeMap<(u32, Vec<u8>), u32>,
) -> Result<(), OutOfMemory>
    requires tables { IsTables tables.now }
    requires height { no.0 < length heights.now }
    ensures { (live seen : List ℕ) → Contains live no.0 → ArePlaces tables.now.records heights.now live seen places.old.entries
        → OnOk result (ArePlaces tables.now.records heights.now live (seen ++ no.0 ∷ []) places.new.entries) }
{
    match tables.records.get(no) {
        Some(rec) => {
            if is_done(rec) {
                let bytes = encode_task(tables.alloc, &rec.task)?;
                places.insert((heights[no.0 as usize], bytes), no.0)?;
            }
            Ok(())
        }
        None => Ok(()),
    }
}

/// Whether a task ended with an output.
pub(crate) fn is_done(rec: &TaskRecord) -> bool
    ensures { result ≡ specs_is_done rec.now.outcome }
{
    matches!(&rec.outcome, Outcome::Done(_))
}
