//! A set of paths.
ghost use Rattle.std.specs.Prelude.{◌≡◌, ℕ, List, false, ◌||◌, OnOk};
ghost use Rattle.pie_base.specs.Path.{is_below};
ghost use Rattle.pie_named.specs.inner.Names.{has};
ghost use Rattle.pie_named.specs.inner.Above.{Adds};

use pie_base::{OutOfMemory, Path};
use std::alloc::Global;
use std::collections::BTreeSet;

/// Paths, each once. Contracts see them by `has`.
#[derive(Drop)]
pub(crate) struct Paths {
    alloc: Global,
    paths: BTreeSet<Path>,
}

impl Paths {
    /// No paths.
    pub(crate) fn new(alloc: Global) -> Paths
        ensures { (q : List ℕ) → has result q ≡ false }
    {
        Paths {
            alloc,
            paths: BTreeSet::new(alloc),
        }
    }

    /// Whether the path is one of them.
    pub(crate) fn has(&self, path: &Path) -> bool
        ensures { result ≡ has self.now path.now }
    {
        self.paths.contains(path)
    }

    /// One path more.
    pub(crate) fn add(&mut self, path: Path) -> Result<(), OutOfMemory>
        ensures { OnOk result (Adds self.old self.new path) }
    {
        self.paths.insert(path)?;
        Ok(())
    }

    /// The directories above a path.
    #[tactic(auto, using(crate::proofs::Above::begins_above, crate::proofs::Above::way_falls))]
    pub(crate) fn add_above(&mut self, path: &Path) -> Result<(), OutOfMemory>
        ensures { OnOk result ((q : List ℕ) → has self.new q ≡ (is_below q path.now || has self.old q)) }
    {
        let mut at = path.parent(self.alloc)?;
        'dirs: loop {
            match at {
                Some(dir) => {
                    let next = dir.parent(self.alloc)?;
                    self.add(dir)?;
                    at = next;
                }
                None => return Ok(()),
            }
        }
    }
}
