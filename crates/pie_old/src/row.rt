//! What the task of one record required and wrote.
ghost use Rattle.std.specs.Prelude.{◌≡◌, ℕ, IfOk};
ghost use Rattle.pie_graph.specs.Rows.{row_of};
ghost use Rattle.pie_old.specs.inner.Rows.{paths_in, row_with};

use pie_base::{OutOfMemory, Path};
use pie_graph::{Edges, TaskNo};
use pie_record::TaskRecord;
use std::alloc::Global;

/// The edges of a record that requires the tasks of these numbers.
pub(crate) fn edges_of(
    alloc: Global,
    needs: Vec<TaskNo>,
    rec: &TaskRecord,
) -> Result<Edges, OutOfMemory>
    ensures { IfOk result (λ edges. row_of edges ≡ row_with needs.items rec.now) }
{
    let writes = paths_of(alloc, rec.writes.as_slice())?;
    Ok(Edges {
        needs,
        reads: Vec::new(alloc),
        lists: Vec::new(alloc),
        writes,
    })
}

// The paths of writes.
fn paths_of(alloc: Global, writes: &[(Path, [u8; 32])]) -> Result<Vec<Path>, OutOfMemory>
    ensures { IfOk result (λ paths. paths.items ≡ paths_in writes.now) }
{
    let mut paths = Vec::with_capacity(alloc, writes.len())?;
    for (path, _) in writes {
        paths.push(path.copy()?)?;
    }
    Ok(paths)
}
