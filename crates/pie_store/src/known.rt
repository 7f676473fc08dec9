//! The names of the functions that a store knows.
ghost use Rattle.std.specs.Prelude.{◌≡◌, ◌||◌, ℕ, List, IfOk, OnOk};
ghost use Rattle.std.specs.List.{list_any};
ghost use Rattle.std.specs.Str.{bytes_eq};
ghost use Rattle.pie_store.specs.Ranks.{knows};
ghost use Rattle.pie_store.specs.inner.Known.{known_in, set_has};

use indexmap::IndexSet;
use pie_base::{OutOfMemory, Text};
use std::alloc::Global;

// The names of a table, or no table, where any name does.
#[derive(Drop)]
pub(crate) struct Known {
    names: Option<IndexSet<Vec<u8>>>,
}

impl Known {
    pub(crate) fn any() -> Known
        ensures { (name : List ℕ) → known_in result name ≡ knows None name }
    {
        Known { names: None }
    }

    pub(crate) fn of(alloc: Global, funcs: &[(Text, [u8; 32])]) -> Result<Known, OutOfMemory>
        ensures { IfOk result (λ k. (name : List ℕ) → known_in k name ≡ knows (Some funcs.now) name) }
    {
        let names = names_of(alloc, funcs)?;
        Ok(Known { names: Some(names) })
    }

    pub(crate) fn has(&self, name: &Text) -> bool
        ensures { result ≡ known_in self.now name.now }
    {
        match &self.names {
            Some(names) => names.contains(name.as_str().as_bytes()),
            None => true,
        }
    }
}

fn names_of(alloc: Global, funcs: &[(Text, [u8; 32])]) -> Result<IndexSet<Vec<u8>>, OutOfMemory>
    ensures { IfOk result (λ s. (name : List ℕ) → set_has s name ≡ list_any (λ (f : List ℕ × List ℕ). bytes_eq name f.0) funcs.now) }
{
    let mut names = IndexSet::new(alloc);
    for (name, _) in funcs {
        insert_name(alloc, &mut names, name)?;
    }
    Ok(names)
}

fn insert_name(alloc: Global, names: &mut IndexSet<Vec<u8>>, name: &Text) -> Result<(), OutOfMemory>
    ensures { OnOk result ((other : List ℕ) → set_has names.new other ≡ (bytes_eq other name.now || set_has names.old other)) }
{
    let bytes = Vec::from_slice(alloc, name.as_str().as_bytes())?;
    names.insert(bytes)?;
    Ok(())
}
