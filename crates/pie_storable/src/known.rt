//! The names of the functions of a table.
ghost use Rattle.std.specs.Prelude.{◌≡◌, ℕ, List, Some, IfOk};
ghost use Rattle.pie_store.specs.Ranks.{knows};
ghost use Rattle.pie_store.specs.inner.Known.{set_has};

use indexmap::IndexSet;
use pie_base::{OutOfMemory, Text};
use std::alloc::Global;

pub(crate) fn names_of(
    alloc: Global,
    funcs: &[(Text, [u8; 32])],
) -> Result<IndexSet<Vec<u8>>, OutOfMemory>
    ensures { IfOk result (λ names. (name : List ℕ) → set_has names name ≡ knows (Some funcs.now) name) }
{
    let mut names = IndexSet::new(alloc);
    for (name, _) in funcs {
        let bytes = Vec::from_slice(alloc, name.as_str().as_bytes())?;
        names.insert(bytes)?;
    }
    Ok(names)
}
