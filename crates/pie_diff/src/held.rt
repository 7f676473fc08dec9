//! What the directory holds under `out/`, as far as a build knows it.
ghost use Rattle.std.specs.Prelude.{◌≡◌, [], Some, None, IfOk, IfSome, OnOk, IsTrue, is_some};
ghost use Rattle.pie_base.specs.Path.{is_out};
ghost use Rattle.pie_files.specs.Reading.{ReadsOnly};
ghost use Rattle.pie_named.specs.Asking.{AsksFor};
ghost use Rattle.pie_diff.specs.Hashes.{held_at, hash_in, is_hash};
ghost use Rattle.pie_diff.specs.inner.Held.{first, paths_in, AreOut, Sets, SetsOut};

use pie_base::{OutOfMemory, Path};
use pie_files::{Files, FilesError};
use std::alloc::Global;
use std::collections::BTreeMap;
use std::marker::Model;

/// What the directory holds under `out/`, as far as a build knows: the SHA-256 of the content at each path.
/// Contracts see the paths with their hashes, in path order.
#[derive(Drop)]
pub struct Held {
    hashes: BTreeMap<Path, [u8; 32]>,
}

impl Model for Held {
    ghost use Rattle.std.specs.Prelude.{List, ℕ};
    ghost use Rattle.pie_diff.specs.inner.Held.{AreOut};

    ghost Value = { List (List ℕ × List ℕ) };

    ghost view = { λ h. h.hashes.entries };

    ghost invariant = { λ h. AreOut h.hashes.entries };
}

impl Held {
    /// Nothing is known to be there.
    pub fn new(alloc: Global) -> Held
        ensures { result ≡ [] }
    {
        Held {
            hashes: BTreeMap::new(alloc),
        }
    }

    /// A record of the earlier build wrote this. The first write of a path counts; one that isn't under `out/` changes nothing.
    pub fn wrote(&mut self, path: &Path, hash: [u8; 32]) -> Result<(), OutOfMemory>
        ensures { OnOk result (SetsOut self.old self.new path.now (first (held_at self.old path.now) hash)) }
    {
        if !path.under_out() {
            return Ok(());
        }
        if self.has(path) {
            return Ok(());
        }
        self.put(path, hash)
    }

    /// What the files have at a named path under `out/`. Another path changes nothing, and isn't asked for.
    #[tactic(auto, using(pie_files::proofs::Reading::reads, crate::proofs::Asking::looks))]
    pub fn look<F: Files>(&mut self, path: &Path, files: &mut F) -> Result<(), FilesError>
        ensures seen { IfSome (F.holds files.old) (λ d. OnOk result (SetsOut self.old self.new path.now (hash_in d path.now))) }
        ensures asks { AsksFor (λ p. p ≡ path.now) (F.asked files.old) (F.asked files.new) }
        ensures reads { ReadsOnly F.holds F.moment F.left_since F.images F.faults files.old files.new result }
    {
        if !path.under_out() {
            return Ok(());
        }
        match files.digest(path)? {
            Some(hash) => Ok(self.put(path, hash)?),
            None => {
                self.take(path);
                Ok(())
            }
        }
    }

    /// Whether the content with this hash is at a path.
    pub(crate) fn is(&self, path: &Path, hash: [u8; 32]) -> bool
        ensures { result ≡ is_hash (held_at self.now path.now) hash }
    {
        match self.hashes.get(path) {
            Some(held) => *held == hash,
            None => false,
        }
    }

    /// The paths, in path order.
    pub(crate) fn paths(&self, alloc: Global) -> Result<Vec<Path>, OutOfMemory>
        ensures paths { IfOk result (λ paths. paths.items ≡ paths_in self.now) }
        ensures out { AreOut self.now }
    {
        let mut paths = Vec::new(alloc);
        for path in self.hashes.keys() {
            paths.push(path.copy()?)?;
        }
        Ok(paths)
    }

    fn has(&self, path: &Path) -> bool
        ensures { result ≡ is_some (held_at self.now path.now) }
    {
        self.hashes.contains_key(path)
    }

    fn put(&mut self, path: &Path, hash: [u8; 32]) -> Result<(), OutOfMemory>
        requires { IsTrue (is_out path.now) }
        ensures { OnOk result (Sets self.old self.new path.now (Some hash)) }
    {
        let _old = self.hashes.insert(path.copy()?, hash)?;
        Ok(())
    }

    fn take(&mut self, path: &Path)
        ensures { Sets self.old self.new path.now None }
    {
        let _old = self.hashes.remove(path);
    }
}
