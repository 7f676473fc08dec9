//! The files that go.
ghost use Rattle.std.specs.Prelude.{◌≡◌, ◌++◌, true, IfOk, OnOk};
ghost use Rattle.std.specs.List.{list_all};
ghost use Rattle.pie_base.specs.Path.{is_out};
ghost use Rattle.pie_diff.specs.Removals.{written_by as specs_written_by, writes_paths, AreRemovals};

use crate::Held;
use pie_base::{OutOfMemory, Path};
use pie_reach::plan_removals;
use pie_record::TaskRecord;
use std::alloc::Global;

/// The files that go once these are the records of the live tasks: those held that no record writes, in path order.
pub fn removals(alloc: Global, held: &Held, rows: &[TaskRecord]) -> Result<Vec<Path>, OutOfMemory>
    ensures gone { IfOk result (λ found. AreRemovals held.now rows.now found.items) }
    ensures out { IfOk result (λ found. list_all is_out found.items ≡ true) }
{
    let there = held.paths(alloc)?;
    let kept = written_by(alloc, rows)?;
    let found = plan_removals(alloc, there.as_slice(), kept.as_slice())?;
    Ok(found)
}

// The paths that records write, one record after another.
fn written_by(alloc: Global, rows: &[TaskRecord]) -> Result<Vec<Path>, OutOfMemory>
    ensures { IfOk result (λ paths. paths.items ≡ specs_written_by rows.now) }
{
    let mut paths = Vec::new(alloc);
    for row in rows {
        put_paths(&mut paths, row.writes.as_slice())?;
    }
    Ok(paths)
}

fn put_paths(paths: &mut Vec<Path>, writes: &[(Path, [u8; 32])]) -> Result<(), OutOfMemory>
    ensures { OnOk result (paths.new.items ≡ paths.old.items ++ writes_paths writes.now) }
{
    for (path, _) in writes {
        paths.push(path.copy()?)?;
    }
    Ok(())
}
