//! Live tasks and removals.

use crate::rows::grow;
use pie_base::Path;
use pie_graph::{Edges, PlainRows, TaskNo, TaskRows};
use pie_reach::{live, plan_removals};
use std::alloc::Global;
use std::process::Abort;
use std::test::Fail;

fn paths(alloc: Global, texts: &[&str]) -> Result<Vec<Path>, Fail> {
    let mut paths = Vec::new(alloc);
    for text in texts {
        paths.push(Path::read(alloc, *text)?)?;
    }
    Ok(paths)
}

// Whether these files go, in this order.
fn go(alloc: Global, there: &[Path], kept: &[&str], wanted: &[&str]) -> Result<bool, Fail> {
    let kept = paths(alloc, kept)?;
    let found = plan_removals(alloc, there, kept.as_slice())?;
    let wanted = paths(alloc, wanted)?;
    Ok(found.as_slice() == wanted.as_slice())
}

#[test]
fn files_that_are_not_kept_go_in_path_order(rt: HostRuntime) -> Result<(), Fail> {
    let alloc = rt.alloc();
    let there = paths(alloc, &["out/b", "out/a", "out/b"])?;
    assert!(&rt; go(alloc, &there, &["out/b"], &["out/a"])?);
    assert!(&rt; go(alloc, &there, &[], &["out/a", "out/b"])?);
    Ok(())
}

// The second of three tasks requires the third.
fn require(rt: &impl Abort, alloc: Global, rows: &mut PlainRows) -> Result<(), Fail> {
    grow(rows, 3)?;
    assert_eq!(rt; rows.count(), 3);
    let mut edges = Edges::new(alloc);
    edges.needs.push(TaskNo(2))?;
    rows.set_edges(TaskNo(1), edges)?;
    Ok(())
}

#[test]
fn tasks_that_no_root_reaches_are_not_live(rt: HostRuntime) -> Result<(), Fail> {
    let alloc = rt.alloc();
    let mut rows = PlainRows::new(alloc);
    require(&rt, alloc, &mut rows)?;
    assert_eq!(&rt; rows.count(), 3);
    let live = live(alloc, &rows, &[TaskNo(1)])?;
    assert!(&rt; live.as_slice() == [TaskNo(1), TaskNo(2)].as_slice());
    Ok(())
}
