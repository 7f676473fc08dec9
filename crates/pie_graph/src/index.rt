//! An index of uses: pairs of what is used and the number of the user, in one order.
ghost use Rattle.std.specs.Prelude.{◌≡◌, ◌≤◌, ℕ, ◌&&◌, ◌||◌, ◌==◌, not, true, false, length, map, List, IfOk, OnOk, OnErr};
ghost use Rattle.pie_graph.specs.declared.uses.Use.{Use};
ghost use Rattle.pie_graph.specs.Index.{edge_cmp, holds, is_of, IsIndex};
ghost use Rattle.std.specs.Ordering.{is_eq};
ghost use Rattle.pie_graph.specs.Alone.{writes_alone};
ghost use Rattle.pie_graph.specs.Numbers.{numbers, Exactly};
ghost use Rattle.pie_graph.specs.Rows.{Row, row_at, no_edges};
ghost use Rattle.pie_graph.specs.Uses.{has, Has};

use crate::{TaskNo, Use};
use pie_base::{MAX_TASKS, OutOfMemory, Path};
use std::alloc::Global;
use std::collections::BTreeSet;

/// The writes of these paths, each with the number of the writer.
pub(crate) fn writes_of(
    alloc: Global,
    paths: &[Path],
    no: u32,
) -> Result<BTreeSet<(Use, u32)>, OutOfMemory>
    ensures { IfOk result (λ index. (edge : Use × ℕ) → holds index edge ≡ is_of (writes_alone paths.now) no edge) }
{
    let mut index = BTreeSet::new(alloc);
    for path in paths {
        let copy = path.copy()?;
        index.insert((Use::Writes(copy), no))?;
    }
    Ok(index)
}

/// Puts new edges in the place of old ones. Where memory is wanting, the index stays as it was.
pub(crate) fn replace_all(
    index: &mut BTreeSet<(Use, u32)>,
    old: &BTreeSet<(Use, u32)>,
    new: &BTreeSet<(Use, u32)>,
) -> Result<(), OutOfMemory>
    requires old_held { (edge : Use × ℕ) → holds old.now edge ≡ true → holds index.old edge ≡ true }
    requires new_old { (edge : Use × ℕ) → holds new.now edge ≡ true → holds index.old edge ≡ true → holds old.now edge ≡ true }
    ensures replaced { OnOk result ((edge : Use × ℕ) → holds index.new edge ≡ (holds new.now edge || (holds index.old edge && not (holds old.now edge)))) }
    ensures unchanged { OnErr result ((edge : Use × ℕ) → holds index.new edge ≡ holds index.old edge) }
{
    let added = add_all(index, new);
    if added.is_ok() {
        remove_all(index, old, new);
    } else {
        remove_all(index, new, old);
    }
    added
}

// Adds edges. Where memory is wanting, some of them may have been added.
fn add_all(
    index: &mut BTreeSet<(Use, u32)>,
    edges: &BTreeSet<(Use, u32)>,
) -> Result<(), OutOfMemory>
    ensures added { OnOk result ((edge : Use × ℕ) → holds index.new edge ≡ (holds index.old edge || holds edges.now edge)) }
    ensures kept { (edge : Use × ℕ) → holds index.old edge ≡ true → holds index.new edge ≡ true }
    ensures only { (edge : Use × ℕ) → holds index.new edge ≡ true → (holds index.old edge || holds edges.now edge) ≡ true }
{
    for edge in edges {
        let copy = copy_edge(edge)?;
        index.insert(copy)?;
    }
    Ok(())
}

// Removes the edges that don't stay.
fn remove_all(
    index: &mut BTreeSet<(Use, u32)>,
    edges: &BTreeSet<(Use, u32)>,
    staying: &BTreeSet<(Use, u32)>,
)
    ensures { (edge : Use × ℕ) → holds index.new edge ≡ (holds index.old edge && not (holds edges.now edge && not (holds staying.now edge))) }
{
    for edge in edges {
        remove_unless(index, edge, staying);
    }
}

// Removes an edge that doesn't stay.
fn remove_unless(
    index: &mut BTreeSet<(Use, u32)>,
    gone: &(Use, u32),
    staying: &BTreeSet<(Use, u32)>,
)
    ensures { (edge : Use × ℕ) → holds index.new edge ≡ (holds index.old edge && not (is_eq (edge_cmp gone.now edge) && not (holds staying.now gone.now))) }
{
    if !staying.contains(gone) {
        index.remove(gone);
    }
}

fn copy_edge(edge: &(Use, u32)) -> Result<(Use, u32), OutOfMemory>
    ensures { IfOk result (λ copy. copy ≡ edge.now) }
{
    let what = edge.0.copy()?;
    Ok((what, edge.1))
}

/// The numbers of the users, ascending.
pub(crate) fn users_of(
    alloc: Global,
    index: &BTreeSet<(Use, u32)>,
    what: Use,
) -> Result<Vec<TaskNo>, OutOfMemory>
    ensures { IfOk result (λ found. (rows : List Row) → length rows ≤ MAX_TASKS → IsIndex index.now rows
        → Exactly (λ k. Has (row_at rows k) what) (numbers found.items)) }
{
    let first = (what.copy()?, 0);
    let end = (what, MAX_TASKS);
    let mut found = Vec::new(alloc);
    for edge in index.range(first..end) {
        found.push(TaskNo(edge.1))?;
    }
    Ok(found)
}
