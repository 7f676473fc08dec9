//! The observations and the writes of a task, in order.
ghost use Rattle.std.specs.Prelude.{◌≡◌, IfOk};

use crate::Dep;
use pie_base::{OutOfMemory, Path};
use std::alloc::Global;
use std::marker::Model;

/// The observations of a task in order. Contracts see the list of them.
#[derive(Drop)]
pub struct Deps {
    deps: Vec<Dep>,
}

impl Model for Deps {
    ghost use Rattle.std.specs.Prelude.{List};
    ghost use Rattle.pie_record.specs.declared.dep.Dep.{Dep};
    ghost use Rattle.pie_record.specs.inner.Codes.{coded_deps};

    ghost Value = { List Dep };

    ghost coded = { coded_deps };

    ghost view = { λ d. d.deps.items };
}

impl Deps {
    pub fn new(deps: Vec<Dep>) -> Deps
        ensures { result ≡ deps.items }
    {
        Deps { deps }
    }

    pub fn as_slice(&self) -> &[Dep]
        ensures { result.now ≡ self.now }
    {
        self.deps.as_slice()
    }

    pub fn into_vec(self) -> Vec<Dep>
        ensures { result.items ≡ self }
    {
        let Deps { deps } = self;
        deps
    }

    /// Equal observations, in a list of their own, which share the contents.
    pub fn copy(&self, alloc: Global) -> Result<Deps, OutOfMemory>
        ensures { IfOk result (λ copy. copy ≡ self.now) }
    {
        let deps = copied_deps(alloc, self.as_slice())?;
        Ok(Deps { deps })
    }
}

fn copied_deps(alloc: Global, deps: &[Dep]) -> Result<Vec<Dep>, OutOfMemory>
    ensures { IfOk result (λ copied. copied.items ≡ deps.now) }
{
    let mut copied = Vec::with_capacity(alloc, deps.len())?;
    for dep in deps {
        copied.push(dep.copy()?)?;
    }
    Ok(copied)
}

/// The paths that a task wrote, in the order of writing, each with the SHA-256 of what was written.
/// Contracts see the list of them.
#[derive(Drop)]
pub struct Writes {
    writes: Vec<(Path, [u8; 32])>,
}

impl Model for Writes {
    ghost use Rattle.std.specs.Prelude.{List, ℕ};

    ghost Value = { List (List ℕ × List ℕ) };

    ghost view = { λ w. w.writes.items };
}

impl Writes {
    pub fn new(writes: Vec<(Path, [u8; 32])>) -> Writes
        ensures { result ≡ writes.items }
    {
        Writes { writes }
    }

    pub fn as_slice(&self) -> &[(Path, [u8; 32])]
        ensures { result.now ≡ self.now }
    {
        self.writes.as_slice()
    }

    pub fn into_vec(self) -> Vec<(Path, [u8; 32])>
        ensures { result.items ≡ self }
    {
        let Writes { writes } = self;
        writes
    }

    /// Equal writes, in a list of their own, which share the paths.
    pub fn copy(&self, alloc: Global) -> Result<Writes, OutOfMemory>
        ensures { IfOk result (λ copy. copy ≡ self.now) }
    {
        let writes = copied_writes(alloc, self.as_slice())?;
        Ok(Writes { writes })
    }
}

fn copied_writes(
    alloc: Global,
    writes: &[(Path, [u8; 32])],
) -> Result<Vec<(Path, [u8; 32])>, OutOfMemory>
    ensures { IfOk result (λ copied. copied.items ≡ writes.now) }
{
    let mut copied = Vec::with_capacity(alloc, writes.len())?;
    for (path, hash) in writes {
        copied.push((path.copy()?, *hash))?;
    }
    Ok(copied)
}
