//! Which old tasks may follow.
ghost use Rattle.std.specs.Prelude.{◌<◌, length};

use crate::functions::flag_of;
use pie_base::OutOfMemory;
use pie_graph::{TaskNo, TaskRows};
use pie_union::UnionRows;
use std::alloc::Global;

/// From which tasks one with a flag is reached by what they require, these themselves among them. The rows are those of a store, in which each task stands behind those that it
/// requires, so one pass is enough.
pub(crate) fn followers(
    alloc: Global,
    rows: &UnionRows,
    flags: &[bool],
) -> Result<Vec<bool>, OutOfMemory> {
    let mut marks = Vec::new(alloc);
    let count = rows.count();
    for n in 0..count {
        let follows = flag_of(flags, TaskNo(n))
            || requires_marked(rows, marks.as_slice(), TaskNo(n));
        marks.push(follows)?;
    }
    Ok(marks)
}

// Whether a task requires one with a mark.
fn requires_marked(rows: &UnionRows, marks: &[bool], no: TaskNo) -> bool
    requires { no.0 < length rows.now }
{
    for callee in rows.callees(no) {
        if flag_of(marks, *callee) {
            return true;
        }
    }
    false
}
