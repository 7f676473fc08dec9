//! The files that go.
ghost use Rattle.std.specs.Prelude.{◌≡◌, ◌&&◌, ◌||◌, not, ℕ, List, IfOk, OnOk};
ghost use Rattle.std.specs.BTreeSet.{contains, IsOrdered};
ghost use Rattle.pie_reach.specs.Plan.{path_cmp, IsPlan};
ghost use Rattle.pie_reach.specs.inner.Listed.{listed};

use pie_base::{OutOfMemory, Path};
use std::alloc::Global;
use std::collections::BTreeSet;

/// Those that are there and aren't kept, in path order, each once.
pub fn plan_removals(alloc: Global, there: &[Path], kept: &[Path]) -> Result<Vec<Path>, OutOfMemory>
    ensures { IfOk result (λ found. IsPlan there.now kept.now found.items) }
{
    let mut left = set_of(alloc, there)?;
    take_out(&mut left, kept);
    let found = list_of(alloc, &left)?;
    Ok(found)
}

fn set_of(alloc: Global, paths: &[Path]) -> Result<BTreeSet<Path>, OutOfMemory>
    ensures { IfOk result (λ set. (path : List ℕ) → contains path_cmp set path ≡ listed path paths.now) }
{
    let mut set = BTreeSet::new(alloc);
    for path in paths {
        let copy = path.copy()?;
        set.insert(copy)?;
    }
    Ok(set)
}

fn take_out(set: &mut BTreeSet<Path>, paths: &[Path])
    ensures { (path : List ℕ) → contains path_cmp set.new path ≡ (contains path_cmp set.old path && not (listed path paths.now)) }
{
    for path in paths {
        set.remove(path);
    }
}

fn list_of(alloc: Global, set: &BTreeSet<Path>) -> Result<Vec<Path>, OutOfMemory>
    ensures ordered { IsOrdered path_cmp set.now }
    ensures keys { IfOk result (λ list. list.items ≡ set.now.keys) }
{
    let mut list = Vec::new(alloc);
    for path in set {
        let copy = path.copy()?;
        list.push(copy)?;
    }
    Ok(list)
}
