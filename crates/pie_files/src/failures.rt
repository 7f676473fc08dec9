//! Calls that are to fail, for the objects in memory.
ghost use Rattle.std.specs.Prelude.{◌≡◌, ◌≤◌, false, IsTrue, OnOk, OnErr};
ghost use Rattle.pie_files.specs.Faults.{Rose};

use pie_base::OutOfMemory;
use std::alloc::Global;

/// The numbers of the calls that are to fail, counted from 1, and how many have come.
#[derive(Drop)]
pub(crate) struct Failures {
    pub(crate) calls: u64,
    pub(crate) failing: Vec<u64>,
    pub(crate) faults: u64,
}

impl Failures {
    ghost use Rattle.pie_files.specs.inner.Failures.{IsInfallible};

    /// No call is to fail.
    pub(crate) fn new(alloc: Global) -> Failures
        ensures infallible { IsInfallible result }
        ensures faults { result.faults ≡ 0 }
    {
        Failures {
            calls: 0,
            failing: Vec::new(alloc),
            faults: 0,
        }
    }

    /// From now on the calls with these numbers fail.
    pub(crate) fn fail_at(&mut self, alloc: Global, calls: &[u64]) -> Result<(), OutOfMemory>
        ensures set { OnOk result (self.new.failing.items ≡ calls.now) }
        ensures faults { self.new.faults ≡ self.old.faults }
        ensures unchanged { OnErr result (self.new.failing.items ≡ self.old.failing.items) }
    {
        self.failing = calls.to_vec(alloc)?;
        Ok(())
    }

    /// Counts a call, and says whether it fails.
    pub(crate) fn next_fails(&mut self) -> bool
        ensures rose { IsTrue result → Rose self.old.faults self.new.faults }
        ensures stayed { result ≡ false → self.new.faults ≡ self.old.faults }
        ensures later { self.old.faults ≤ self.new.faults }
        ensures infallible { IsInfallible self.old → IsInfallible self.new × (result ≡ false) }
    {
        let Some(number) = self.calls.checked_add(1) else {
            return false;
        };
        self.calls = number;
        if self.failing.contains(&number) {
            self.faults = self.faults.saturating_add(1);
            return true;
        }
        false
    }
}
