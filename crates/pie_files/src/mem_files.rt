//! Files in memory, some of whose calls fail.
ghost use Rattle.std.specs.Prelude.{◌≡◌, ◌++◌, [], ◌∷◌, true, OnOk, OnErr, IfOk, IfErr};
ghost use Rattle.std.specs.FinMap as fin;
ghost use Rattle.pie_files.specs.Directory.{Directory, with_file};
ghost use Rattle.pie_files.specs.Images.{Follows, Only, Sets};
ghost use Rattle.pie_files.specs.inner.Failures.{calls_in, listed_in, all_fail_so};
ghost use Rattle.pie_files.specs.inner.Marks.{are_marked};
ghost use Rattle.pie_files.specs.inner.Story.{picked_image};
ghost use Rattle.pie_files.specs.inner.SureFiles.{HasTurned, story_by};

use crate::{Call, Files, FilesError, Found, Logged, Pick, SureFiles, Within};
use pie_base::{OutOfMemory, Path};
use std::alloc::Global;

/// Files in memory. The calls that are told by `fail_at` fail: each is asked like any other, adds
/// one to the faults and changes nothing. The n-th write that succeeds gives the mark n, counted from 1.
#[derive(Drop)]
pub struct MemFiles {
    pub(crate) files: SureFiles,
    // How many calls there were, and the numbers of those that are to fail, counted from 1.
    pub(crate) calls: u64,
    pub(crate) failing: Vec<u64>,
    ghost counted: { calls ≡ calls_in (story_by files) },
    ghost listed: { failing.items ≡ listed_in [] (story_by files) },
    ghost failed: { all_fail_so 0 [] (story_by files) ≡ true },
}

impl MemFiles {
    ghost use Rattle.pie_files.specs.inner.MemFiles.{HasListed, IsTurn, held_in, began_in, story_in, asked_in, faults_in, InfallibleMemory, images_in};

    /// No file, and no call that is to fail.
    pub fn new(alloc: Global) -> MemFiles
        ensures empty { held_in result ≡ fin.empty }
        ensures asked { asked_in result ≡ [] }
        ensures faults { faults_in result ≡ 0 }
        ensures infallible { InfallibleMemory result }
        ensures rest { Only (held_in result) (images_in result) }
    {
        MemFiles {
            files: SureFiles::new(alloc),
            calls: 0,
            failing: Vec::new(alloc),
        }
    }

    /// Sets a file, with this mark; it counts as no call, and every image has it.
    #[tactic(auto, using(crate::proofs::Failing::calls_more, crate::proofs::Failing::failed_more, crate::proofs::Failing::listed_more, crate::proofs::Failing::fails_more))]
    pub fn put(&mut self, path: &Path, bytes: &[u8], mark: u64) -> Result<(), OutOfMemory>
        ensures set { OnOk result (held_in self.new ≡ with_file (held_in self.old) path.now bytes.now mark) }
        ensures images { OnOk result (Follows (Sets path.now bytes.now mark) (images_in self.old) (images_in self.new)) }
        ensures unchanged { OnErr result (held_in self.new ≡ held_in self.old) }
        ensures images_unchanged { OnErr result ((c : Directory) → images_in self.new c → images_in self.old c) }
        ensures asked { asked_in self.new ≡ asked_in self.old }
        ensures faults { faults_in self.new ≡ faults_in self.old }
    {
        self.files.put(path, bytes, mark)
    }

    /// From now on the calls with these numbers fail, and no others: counted from 1 since `new`, without those that were out of memory.
    #[tactic(auto, using(crate::proofs::Asked::asked_push, crate::proofs::Failing::calls_more, crate::proofs::Failing::failed_more, crate::proofs::Failing::listed_more, crate::proofs::Failing::fails_more))]
    pub fn fail_at(&mut self, calls: &[u64]) -> Result<(), OutOfMemory>
        ensures held { held_in self.new ≡ held_in self.old }
        ensures images { (c : Directory) → images_in self.new c → images_in self.old c }
        ensures asked { asked_in self.new ≡ asked_in self.old }
        ensures faults { faults_in self.new ≡ faults_in self.old }
        ensures noted { OnOk result (HasListed calls.now self.old self.new) }
        ensures unchanged { OnErr result (story_in self.new ≡ story_in self.old) }
    {
        let kept = calls.to_vec(self.files.alloc)?;
        let failing = calls.to_vec(self.files.alloc)?;
        self.files.note_failing(kept)?;
        self.failing = failing;
        Ok(())
    }

    /// One image that a crash now may leave, with no call that is to fail. What `put` set is in it.
    /// The half of a length is rounded down. Rule: docs/BUILDING.md, "The outside".
    #[tactic(auto, using(crate::proofs::Picking::picked_is_left))]
    pub fn crash(&self, pick: Pick) -> Result<MemFiles, OutOfMemory>
        ensures image { IfOk result (λ left. images_in self.now (held_in left)) }
        ensures picked { IfOk result (λ left. held_in left ≡ picked_image pick (began_in self.now) (story_in self.now)) }
        ensures asked { IfOk result (λ left. asked_in left ≡ []) }
        ensures faults { IfOk result (λ left. faults_in left ≡ 0) }
        ensures infallible { IfOk result (λ left. InfallibleMemory left) }
        ensures rest { IfOk result (λ left. Only (held_in left) (images_in left)) }
    {
        let files = self.files.crash(pick)?;
        Ok(MemFiles {
            calls: 0,
            failing: Vec::new(files.alloc),
            files,
        })
    }

    /// All that has happened, oldest first.
    pub fn log(&self) -> &[Logged]
        ensures story { result.now ≡ story_in self.now }
        ensures marked { are_marked 0 result.now ≡ true }
        ensures failed { all_fail_so 0 [] result.now ≡ true }
    {
        self.files.log()
    }

    // Gives the call its number, where it is not to fail; else notes that it failed.
    #[tactic(auto, using(crate::proofs::Failing::calls_more, crate::proofs::Failing::failed_more, crate::proofs::Failing::listed_more, crate::proofs::Failing::fails_more))]
    fn turn(&mut self, call: Call) -> Result<(u64, Call), FilesError>
        ensures held { held_in self.new ≡ held_in self.old }
        ensures passed { OnOk result (self.new ≡ self.old) }
        ensures number { IfOk result (λ r. IsTurn call self.old r.0 r.1) }
        ensures turned { IfErr result (HasTurned call self.old.files self.new.files) }
    {
        let Some(number) = self.calls.checked_add(1) else {
            return Err(FilesError::OutOfMemory);
        };
        if self.failing.contains(&number) {
            self.files.note_failed(call)?;
            self.calls = number;
            return Err(FilesError::Failed);
        }
        Ok((number, call))
    }

    // Notes a look, which fails if it is to.
    #[tactic(auto, using(crate::proofs::Failing::calls_more, crate::proofs::Failing::failed_more, crate::proofs::Failing::listed_more, crate::proofs::Failing::fails_more))]
    fn look(&mut self, call: Call) -> Result<(), FilesError>
        ensures held { held_in self.new ≡ held_in self.old }
        ensures began { began_in self.new ≡ began_in self.old }
        ensures noted { OnOk result (story_in self.new ≡ story_in self.old ++ Logged.Asked call ∷ []) }
        ensures turned { IfErr result (HasTurned call self.old.files self.new.files) }
    {
        let (number, call) = self.turn(call)?;
        self.files.note_asked(call)?;
        self.calls = number;
        Ok(())
    }
}

impl Files for MemFiles {
    ghost use Rattle.std.specs.Prelude.{Some};
    ghost use Rattle.pie_files.specs.inner.MemFiles.{held_in, began_in, story_in, asked_in, faults_in, images_in, moment_in, left_since_in};
    ghost use Rattle.pie_files.specs.inner.StoryLaws.{counts_now, holds_now, only_now};

    ghost holds = { λ s. Some (held_in s) };

    ghost asked = { λ s. Some (asked_in s) };

    ghost faults = { faults_in };

    ghost images = { images_in };

    ghost moment = { moment_in };

    ghost left_since = { left_since_in };

    ghost counts_now = { λ s. counts_now (began_in s) (story_in s) };

    ghost only_now = { λ s. only_now (began_in s) (story_in s) };

    ghost holds_now = { λ s d is. holds_now (began_in s) (held_in s) (story_in s) s.files.told d is };

    fn read(&mut self, path: &Path) -> Result<Option<Found>, FilesError> {
        let call = Call::Read(path.copy()?);
        let found = self.files.copy_of(path)?;
        self.look(call)?;
        Ok(found)
    }

    fn read_within(&mut self, path: &Path, most: usize) -> Result<Within, FilesError> {
        let call = Call::Read(path.copy()?);
        let found = self.files.copy_within(path, most)?;
        self.look(call)?;
        Ok(found)
    }

    fn exists(&mut self, path: &Path) -> Result<bool, FilesError> {
        let call = Call::Read(path.copy()?);
        let there = self.files.held.has(path);
        self.look(call)?;
        Ok(there)
    }

    fn digest(&mut self, path: &Path) -> Result<Option<[u8; 32]>, FilesError> {
        let call = Call::Read(path.copy()?);
        let digest = self.files.digest_of(path);
        self.look(call)?;
        Ok(digest)
    }

    fn mark(&mut self, path: &Path) -> Result<Option<u64>, FilesError> {
        let call = Call::Read(path.copy()?);
        let mark = self.files.mark_of(path);
        self.look(call)?;
        Ok(mark)
    }

    fn names(&mut self, dir: &Path) -> Result<Vec<Path>, FilesError> {
        let call = Call::Names(dir.copy()?);
        let paths = self.files.held.names(self.files.alloc, dir)?;
        self.look(call)?;
        Ok(paths)
    }

    fn all_under(&mut self, dir: &Path) -> Result<Vec<Path>, FilesError> {
        let call = Call::AllUnder(dir.copy()?);
        let paths = self.files.held.all_under(self.files.alloc, dir)?;
        self.look(call)?;
        Ok(paths)
    }

    #[tactic(auto, using(crate::proofs::Failing::calls_more, crate::proofs::Failing::failed_more, crate::proofs::Failing::listed_more, crate::proofs::Failing::fails_more))]
    fn write(&mut self, path: &Path, bytes: &[u8]) -> Result<(), FilesError> {
        let (number, _call) = self.turn(Call::Write(path.copy()?, None))?;
        self.files.write_file(path, bytes)?;
        self.calls = number;
        Ok(())
    }

    #[tactic(auto, using(crate::proofs::Failing::calls_more, crate::proofs::Failing::failed_more, crate::proofs::Failing::listed_more, crate::proofs::Failing::fails_more))]
    fn remove(&mut self, path: &Path) -> Result<(), FilesError> {
        let (number, _call) = self.turn(Call::Remove(path.copy()?))?;
        self.files.take_away(path)?;
        self.calls = number;
        Ok(())
    }

    #[tactic(auto, using(crate::proofs::Failing::calls_more, crate::proofs::Failing::failed_more, crate::proofs::Failing::listed_more, crate::proofs::Failing::fails_more))]
    fn sync(&mut self) -> Result<(), FilesError> {
        let (number, _call) = self.turn(Call::Sync)?;
        self.files.note_synced()?;
        self.calls = number;
        Ok(())
    }
}
