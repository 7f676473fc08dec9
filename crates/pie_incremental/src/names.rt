//! The names of a build.
ghost use Rattle.std.specs.Prelude.{◌≡◌, ◌++◌, IfOk, OnOk};
ghost use Rattle.std.specs.List.{fold};
ghost use Rattle.std.specs.BTreeSet.{insert_key};
ghost use Rattle.pie_store.specs.Pending.{in_order, path_cmp, AreInPathOrder};

use pie_base::{OutOfMemory, Path};
use std::alloc::Global;
use std::collections::BTreeSet;

/// The names of the list and the pending names together, each once, in path order.
pub fn joined_names(
    alloc: Global,
    named: &[Path],
    pending: &[Path],
) -> Result<Vec<Path>, OutOfMemory>
    ensures names { IfOk result (λ names. names.items ≡ in_order (named.now ++ pending.now)) }
    ensures order { IfOk result (λ names. AreInPathOrder names.items (named.now ++ pending.now)) }
{
    let set = set_of(alloc, named, pending)?;
    let names = list_of(alloc, &set)?;
    Ok(names)
}

fn set_of(alloc: Global, named: &[Path], pending: &[Path]) -> Result<BTreeSet<Path>, OutOfMemory>
    ensures { IfOk result (λ set. set.keys ≡ in_order (named.now ++ pending.now)) }
{
    let mut set = BTreeSet::new(alloc);
    add_all(&mut set, named)?;
    add_all(&mut set, pending)?;
    Ok(set)
}

fn add_all(set: &mut BTreeSet<Path>, paths: &[Path]) -> Result<(), OutOfMemory>
    ensures { OnOk result (set.new.keys ≡ fold (insert_key path_cmp) set.old.keys paths.now) }
{
    for path in paths {
        let copy = path.copy()?;
        set.insert(copy)?;
    }
    Ok(())
}

fn list_of(alloc: Global, set: &BTreeSet<Path>) -> Result<Vec<Path>, OutOfMemory>
    ensures { IfOk result (λ list. list.items ≡ set.now.keys) }
{
    let mut list = Vec::new(alloc);
    for path in set {
        let copy = path.copy()?;
        list.push(copy)?;
    }
    Ok(list)
}
