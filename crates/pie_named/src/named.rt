//! The names of what may have changed, and what is known of it.
ghost use Rattle.std.specs.Prelude.{◌≡◌, ℕ, List, false, cond, true, OnOk, ◌||◌};
ghost use Rattle.std.specs.Ordering.{nat_cmp, is_eq};
ghost use Rattle.std.specs.Cmp.Lexicographic.{slice_cmp};
ghost use Rattle.pie_base.specs.Path.{is_below};
ghost use Rattle.pie_files.specs.Directory.{Directory};
ghost use Rattle.pie_named.specs.inner.Names.{is_named, is_above};
ghost use Rattle.pie_named.specs.inner.Known.{IsTrueOf};

use crate::paths::Paths;
use crate::stamps::Stamps;
use pie_base::{OutOfMemory, Path};
use std::alloc::Global;

/// The paths that a build was told of, and what was asked of them and of the directories above. Each question is asked of the files once.
#[derive(Drop)]
pub struct Named {
    pub(crate) alloc: Global,
    names: Paths,
    /// The directories above the names.
    above: Paths,
    /// Whether files are there.
    pub(crate) there: Stamps,
    pub(crate) hashes: Stamps,
    pub(crate) marks: Stamps,
    pub(crate) lists: Stamps,
}

impl Named {
    /// No names, and nothing was asked yet.
    pub fn new(alloc: Global) -> Named
        ensures names { (q : List ℕ) → is_named result q ≡ false }
        ensures above { (q : List ℕ) → is_above result q ≡ false }
        ensures right { (d : Directory) → IsTrueOf d result }
    {
        Named {
            alloc,
            names: Paths::new(alloc),
            above: Paths::new(alloc),
            there: Stamps::new(alloc),
            hashes: Stamps::new(alloc),
            marks: Stamps::new(alloc),
            lists: Stamps::new(alloc),
        }
    }

    /// Whether the path is among the names.
    pub fn is_named(&self, path: &Path) -> bool
        ensures { result ≡ is_named self.now path.now }
    {
        self.names.has(path)
    }

    /// Whether a name lies below the directory, at any depth.
    pub fn is_above(&self, dir: &Path) -> bool
        ensures { result ≡ is_above self.now dir.now }
    {
        self.above.has(dir)
    }

    /// One name more. What was asked stays known.
    pub fn name(&mut self, path: &Path) -> Result<(), OutOfMemory>
        ensures names { OnOk result ((q : List ℕ) → is_named self.new q ≡ cond (is_eq (slice_cmp nat_cmp path.now q)) true (is_named self.old q)) }
        ensures above { OnOk result ((q : List ℕ) → is_above self.new q ≡ (is_below q path.now || is_above self.old q)) }
        ensures right { (d : Directory) → IsTrueOf d self.old → IsTrueOf d self.new }
    {
        self.names.add(path.copy()?)?;
        self.above.add_above(path)?;
        Ok(())
    }
}
