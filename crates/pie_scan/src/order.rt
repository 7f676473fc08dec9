//! Paths in order, each once.
ghost use Rattle.std.specs.Prelude.{◌≡◌, ℕ, List, Some, IfOk, OnOk};
ghost use Rattle.std.specs.List.Sorted.{IsStrictlySortedBy};
ghost use Rattle.pie_files.specs.Directory.{in_path_order as specs_in_path_order};
ghost use Rattle.pie_files.specs.inner.Held.{is_among, Gains};
ghost use Rattle.pie_scan.specs.Entries.{path_cmp};

use pie_base::{OutOfMemory, Path};
use std::alloc::Global;
use std::collections::BTreeSet;

/// The distinct ones of these paths, in path order.
#[tactic(auto, using(crate::proofs::Growing::in_order_is))]
pub fn in_path_order(alloc: Global, paths: &[Path]) -> Result<Vec<Path>, OutOfMemory>
    ensures order { IfOk result (λ sorted. sorted.items ≡ specs_in_path_order paths.now) }
    ensures ordered { IfOk result (λ sorted. IsStrictlySortedBy path_cmp sorted.items) }
    ensures same { IfOk result (λ sorted. (q : List ℕ) → is_among q sorted.items ≡ is_among q paths.now) }
{
    let set = set_of(alloc, paths)?;
    let sorted = listed(alloc, &set)?;
    Ok(sorted)
}

fn set_of(alloc: Global, paths: &[Path]) -> Result<BTreeSet<Path>, OutOfMemory>
    ensures { IfOk result (λ set. (q : List ℕ) → is_among q set.keys ≡ is_among q paths.now) }
{
    let mut set = BTreeSet::new(alloc);
    for path in paths {
        put_one(&mut set, path)?;
    }
    Ok(set)
}

fn put_one(set: &mut BTreeSet<Path>, path: &Path) -> Result<(), OutOfMemory>
    ensures { OnOk result (Gains set.old.keys (Some path.now) set.new.keys) }
{
    let copy = path.copy()?;
    let _new = set.insert(copy)?;
    Ok(())
}

fn listed(alloc: Global, paths: &BTreeSet<Path>) -> Result<Vec<Path>, OutOfMemory>
    ensures same { IfOk result (λ list. list.items ≡ paths.now.keys) }
    ensures ordered { IfOk result (λ list. IsStrictlySortedBy path_cmp list.items) }
{
    let mut list = Vec::new(alloc);
    for path in paths.iter() {
        list.push(path.copy()?)?;
    }
    Ok(list)
}
