//! Rows to be walked, and whether two kinds of rows answer alike.
ghost use Rattle.std.specs.Prelude.{◌<◌, length, OnOk};
ghost use Rattle.pie_graph.specs.Numbers.{numbers, AllBelow};

use crate::drawn::path;
use pie_base::{MAX_TASKS, OutOfMemory, Path};
use pie_graph::{TaskNo, TaskRows};
use std::alloc::Global;
use std::process::Abort;
use std::test::Fail;

/// So many rows are added, as far as there is room.
pub(crate) fn grow<R: TaskRows>(rows: &mut R, count: u32) -> Result<(), Fail> {
    for _ in 0..count {
        if rows.count() < MAX_TASKS {
            rows.add()?;
        }
    }
    Ok(())
}

/// A number below a bound joins.
pub(crate) fn push_below(found: &mut Vec<TaskNo>, no: u32, bound: u32) -> Result<(), OutOfMemory>
    requires { AllBelow bound (numbers found.old.items) }
    ensures { OnOk result (AllBelow bound (numbers found.new.items)) }
{
    if no < bound {
        found.push(TaskNo(no))?;
    }
    Ok(())
}

fn same_callers<A: TaskRows, B: TaskRows>(a: &A, b: &B, no: TaskNo) -> Result<bool, OutOfMemory>
    requires a { no.0 < length (A.rows a.now) }
    requires b { no.0 < length (B.rows b.now) }
{
    let one = a.callers(no)?;
    let other = b.callers(no)?;
    Ok(one == other)
}

fn same_readers<A: TaskRows, B: TaskRows>(a: &A, b: &B, path: &Path) -> Result<bool, OutOfMemory> {
    let one = a.readers_of(path)?;
    let other = b.readers_of(path)?;
    Ok(one == other)
}

fn same_listers<A: TaskRows, B: TaskRows>(a: &A, b: &B, path: &Path) -> Result<bool, OutOfMemory> {
    let one = a.listers_of(path)?;
    let other = b.listers_of(path)?;
    Ok(one == other)
}

fn same_writers<A: TaskRows, B: TaskRows>(a: &A, b: &B, path: &Path) -> Result<bool, OutOfMemory> {
    let one = a.writers_of(path)?;
    let other = b.writers_of(path)?;
    Ok(one == other)
}

fn same_users<A: TaskRows, B: TaskRows>(a: &A, b: &B, path: &Path) -> Result<bool, OutOfMemory> {
    Ok(same_readers(a, b, path)? && same_listers(a, b, path)? && same_writers(a, b, path)?)
}

/// Both rows have the same count, the same callees and callers of each task, and the same users of each path.
pub(crate) fn compare<A: TaskRows, B: TaskRows>(
    rt: &impl Abort,
    alloc: Global,
    a: &A,
    b: &B,
) -> Result<(), Fail> {
    assert_eq!(rt; a.count(), b.count());
    for i in 0..a.count() {
        assert!(rt; i < b.count());
        assert_eq!(rt; a.callees(TaskNo(i)), b.callees(TaskNo(i)));
        assert!(rt; same_callers(a, b, TaskNo(i))?, "callers of {i}");
    }
    compare_users(rt, alloc, a, b)
}

fn compare_users<A: TaskRows, B: TaskRows>(
    rt: &impl Abort,
    alloc: Global,
    a: &A,
    b: &B,
) -> Result<(), Fail> {
    for i in 0..4 {
        let path = path(alloc, i)?;
        assert!(rt; same_users(a, b, &path)?, "users of path {i}");
    }
    Ok(())
}
