//! The largest records.

use crate::weighed::weight;
use pie_base::OutOfMemory;
use pie_record::TaskRecord;
use pie_value::show_task;
use std::alloc::Global;

// How many records are told.
const MOST: u32 = 5;

/// A line for each of the five largest records, its bytes and its task: the largest first, and of equal ones the first.
pub(crate) fn put_largest(
    alloc: Global,
    out: &mut String,
    rows: &[TaskRecord],
) -> Result<(), OutOfMemory> {
    let weights = weights_of(alloc, rows)?;
    let mut last = None;
    for _ in 0..MOST {
        let Some((bytes, at)) = next_below(weights.as_slice(), last) else {
            return Ok(());
        };
        last = Some((bytes, at));
        put_record(alloc, out, bytes, rows.get(at))?;
    }
    Ok(())
}

fn weights_of(alloc: Global, rows: &[TaskRecord]) -> Result<Vec<u64>, OutOfMemory> {
    let mut weights = Vec::with_capacity(alloc, rows.len())?;
    for rec in rows {
        weights.push(weight(rec))?;
    }
    Ok(weights)
}

// The greatest weight behind the last one, by weight and then by place, with its place.
fn next_below(weights: &[u64], last: Option<(u64, usize)>) -> Option<(u64, usize)> {
    let mut best = None;
    let mut at: usize = 0;
    for weight in weights {
        if is_behind(*weight, at, last) && is_better(*weight, best) {
            best = Some((*weight, at));
        }
        at = at.saturating_add(1);
    }
    best
}

fn is_behind(weight: u64, at: usize, last: Option<(u64, usize)>) -> bool {
    match last {
        Some((bytes, place)) => weight < bytes || (weight == bytes && at > place),
        None => true,
    }
}

fn is_better(weight: u64, best: Option<(u64, usize)>) -> bool {
    match best {
        Some((bytes, _)) => weight > bytes,
        None => true,
    }
}

fn put_record(
    alloc: Global,
    out: &mut String,
    bytes: u64,
    rec: Option<&TaskRecord>,
) -> Result<(), OutOfMemory> {
    let Some(rec) = rec else {
        return Ok(());
    };
    let task = show_task(alloc, &rec.task)?;
    let line = format!(in alloc; "largest {bytes} {task}\n")?;
    out.push_str(line.as_str())?;
    Ok(())
}
