//! The paths that a task has observed or written.
ghost use Rattle.std.specs.Prelude.{◌≡◌, [], OnOk, OnErr};
ghost use Rattle.pie_operators.specs.Domain.{holds, with_path};

use indexmap::IndexSet;
use pie_base::{OutOfMemory, Path};
use std::alloc::Global;
use std::marker::Model;

/// Distinct paths in the order in which they came. Contracts see the list of their bytes.
#[derive(Drop)]
pub struct PathSet {
    alloc: Global,
    paths: IndexSet<Vec<u8>>,
}

impl Model for PathSet {
    ghost use Rattle.std.specs.Prelude.{List, ℕ, map};
    ghost use Rattle.pie_vm.specs.Stacks.{bytes_of};

    ghost Value = { List (List ℕ) };

    ghost view = { λ s. bytes_of s.paths.keys };
}

impl PathSet {
    /// No paths.
    pub fn new(alloc: Global) -> PathSet
        ensures { result ≡ [] }
    {
        PathSet {
            alloc,
            paths: IndexSet::new(alloc),
        }
    }

    /// Whether the path is among them.
    #[tactic(auto, using(crate::proofs::PathKeys::held))]
    pub fn contains(&self, path: &Path) -> bool
        ensures { result ≡ holds self.now path.now }
    {
        self.paths.contains(path.as_str().as_bytes())
    }

    /// Adds the path, unless it is among them.
    #[tactic(auto, using(crate::proofs::PathKeys::added))]
    pub fn add(&mut self, path: &Path) -> Result<(), OutOfMemory>
        ensures added { OnOk result (self.new ≡ with_path self.old path.now) }
        ensures unchanged { OnErr result (self.new ≡ self.old) }
    {
        let bytes = Vec::from_slice(self.alloc, path.as_str().as_bytes())?;
        self.paths.insert(bytes)?;
        Ok(())
    }
}
