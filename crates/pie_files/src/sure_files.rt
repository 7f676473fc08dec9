//! Files in memory that never fail.
ghost use Rattle.std.specs.Prelude.{◌≡◌, ◌++◌, ◌+◌, ◌<◌, true, [], ◌∷◌, Some, OnOk, OnErr, IfOk, vec_len, vec_capacity};
ghost use Rattle.std.specs.Option.{option_map};
ghost use Rattle.std.specs.FinMap as fin;
ghost use Rattle.pie_files.specs.Directory.{Directory, file_at, with_file, without_file};
ghost use Rattle.pie_files.specs.inner.Held.{content_of, directory_code};
ghost use Rattle.pie_files.specs.inner.Within.{IsWithin};
ghost use Rattle.pie_files.specs.inner.Marks.{writes_by, writes_in, is_marked, are_marked};
ghost use Rattle.pie_files.specs.inner.Memory.{asked_of};
ghost use Rattle.pie_files.specs.Images.{Follows, Only, Sets};
ghost use Rattle.pie_files.specs.inner.Story.{picked, after_all, picked_image};
ghost use Rattle.pie_files.specs.declared.pick.Pick.TheVariants.{All};
ghost use Rattle.std.specs.Coded.{Coded-set};
ghost use Rattle.sha2.specs.Sha256.{sha256};

use crate::crashed::crashed;
use crate::held::Held;
use crate::{Call, Files, FilesError, Found, Pick, Within};
use pie_base::{OutOfMemory, Path};
use sha2::{Digest, Sha256};
use std::alloc::Global;

/// What has happened to files in memory, oldest first: each call, the bytes and the mark that
/// each `put` and each write left, and which calls were to fail.
#[derive(Drop)]
pub enum Logged {
    /// A file was set by `put`, outside the calls.
    Put(Path, Vec<u8>, u64),
    /// From here on the calls with these numbers fail: `MemFiles::fail_at`, which is no call.
    FailsAt(Vec<u64>),
    /// A look that was answered.
    Asked(Call),
    /// A call that failed. It changed nothing.
    Failed(Call),
    /// A write that succeeded.
    Wrote(Path, Vec<u8>, u64),
    /// A removal that succeeded.
    Removed(Path),
    /// A sync that succeeded.
    Synced,
}

/// Files in memory. A call on them never fails. The n-th write that succeeds gives the mark n, counted from 1.
#[derive(Drop)]
pub struct SureFiles {
    pub(crate) alloc: Global,
    // The directory at first, which outlasts a crash.
    pub(crate) began: Held,
    pub(crate) held: Held,
    pub(crate) log: Vec<Logged>,
    pub(crate) writes: u64,
    ghost told: { held ≡ after_all began log.items } by { Coded-set directory_code _ _ },
    ghost counted: { writes ≡ writes_in log.items },
    ghost marked: { are_marked 0 log.items ≡ true },
}

impl SureFiles {
    ghost use Rattle.pie_files.specs.inner.SureFiles.{HasPut, HasWritten, held_by, began_by, story_by, asked_by, images_by};

    /// No file.
    pub fn new(alloc: Global) -> SureFiles
        ensures empty { held_by result ≡ fin.empty }
        ensures asked { asked_by result ≡ [] }
        ensures story { story_by result ≡ [] }
        ensures rest { Only (held_by result) (images_by result) }
    {
        SureFiles {
            alloc,
            began: Held::new(alloc),
            held: Held::new(alloc),
            log: Vec::new(alloc),
            writes: 0,
        }
    }

    /// Sets a file, with this mark; it counts as no call, and every image has it.
    pub fn put(&mut self, path: &Path, bytes: &[u8], mark: u64) -> Result<(), OutOfMemory>
        ensures set { OnOk result (held_by self.new ≡ with_file (held_by self.old) path.now bytes.now mark) }
        ensures images { OnOk result (Follows (Sets path.now bytes.now mark) (images_by self.old) (images_by self.new)) }
        ensures unchanged { OnErr result (held_by self.new ≡ held_by self.old) }
        ensures images_unchanged { OnErr result ((c : Directory) → images_by self.new c → images_by self.old c) }
        ensures asked { asked_by self.new ≡ asked_by self.old }
        ensures noted { OnOk result (HasPut path.now bytes.now mark self.old self.new) }
        ensures story { OnErr result (story_by self.new ≡ story_by self.old) }
    {
        let kept = copied(self.alloc, bytes)?;
        let put = Logged::Put(path.copy()?, kept, mark);
        self.set(path, bytes, mark, put, self.writes)?;
        Ok(())
    }

    /// All that has happened, oldest first.
    pub fn log(&self) -> &[Logged]
        ensures story { result.now ≡ story_by self.now }
        ensures marked { are_marked 0 result.now ≡ true }
    {
        self.log.as_slice()
    }

    /// Files that hold one image which a crash now may leave.
    pub(crate) fn crash(&self, pick: Pick) -> Result<SureFiles, OutOfMemory>
        ensures held { IfOk result (λ left. held_by left ≡ picked_image pick (began_by self.now) (story_by self.now)) }
        ensures began { IfOk result (λ left. began_by left ≡ held_by left) }
        ensures story { IfOk result (λ left. story_by left ≡ []) }
    {
        let began = crashed(self.alloc, &self.began, self.log.as_slice(), pick)?;
        let held = began.copy(self.alloc)?;
        Ok(SureFiles {
            alloc: self.alloc,
            began,
            held,
            log: Vec::new(self.alloc),
            writes: 0,
        })
    }

    /// Notes a look that is answered.
    #[tactic(auto, using(crate::proofs::Leaving::after_more, crate::proofs::Asked::asked_push, crate::proofs::Marked::writes_more, crate::proofs::Marked::marked_more))]
    pub(crate) fn note_asked(&mut self, call: Call) -> Result<(), OutOfMemory>
        ensures held { held_by self.new ≡ held_by self.old }
        ensures began { began_by self.new ≡ began_by self.old }
        ensures noted { OnOk result (story_by self.new ≡ story_by self.old ++ Logged.Asked call ∷ []) }
        ensures asked { OnOk result (asked_by self.new ≡ asked_by self.old ++ call ∷ []) }
        ensures unchanged { OnErr result (story_by self.new ≡ story_by self.old) }
        ensures asked_unchanged { OnErr result (asked_by self.new ≡ asked_by self.old) }
    {
        note(&mut self.log, Logged::Asked(call))
    }

    /// Notes a call that fails.
    #[tactic(auto, using(crate::proofs::Leaving::after_more, crate::proofs::Marked::writes_more, crate::proofs::Marked::marked_more))]
    pub(crate) fn note_failed(&mut self, call: Call) -> Result<(), OutOfMemory>
        ensures held { held_by self.new ≡ held_by self.old }
        ensures began { began_by self.new ≡ began_by self.old }
        ensures noted { OnOk result (story_by self.new ≡ story_by self.old ++ Logged.Failed call ∷ []) }
        ensures unchanged { OnErr result (story_by self.new ≡ story_by self.old) }
    {
        note(&mut self.log, Logged::Failed(call))
    }

    /// Notes which calls are to fail.
    #[tactic(auto, using(crate::proofs::Leaving::after_more, crate::proofs::Marked::writes_more, crate::proofs::Marked::marked_more))]
    pub(crate) fn note_failing(&mut self, numbers: Vec<u64>) -> Result<(), OutOfMemory>
        ensures held { held_by self.new ≡ held_by self.old }
        ensures began { began_by self.new ≡ began_by self.old }
        ensures noted { OnOk result (story_by self.new ≡ story_by self.old ++ Logged.FailsAt numbers ∷ []) }
        ensures unchanged { OnErr result (story_by self.new ≡ story_by self.old) }
    {
        note(&mut self.log, Logged::FailsAt(numbers))
    }

    /// Makes the file hold these bytes, with the next mark.
    pub(crate) fn write_file(&mut self, path: &Path, bytes: &[u8]) -> Result<(), OutOfMemory>
        ensures written { OnOk result (held_by self.new ≡ with_file (held_by self.old) path.now bytes.now (self.old.writes + 1)) }
        ensures began { began_by self.new ≡ began_by self.old }
        ensures noted { OnOk result (HasWritten path.now bytes.now self.old self.new) }
        ensures asked { OnOk result (asked_by self.new ≡ asked_by self.old ++ Call.Write path.now (Some (self.old.writes + 1)) ∷ []) }
        ensures unchanged { OnErr result ((held_by self.new ≡ held_by self.old) × (asked_by self.new ≡ asked_by self.old)) }
        ensures story { OnErr result (story_by self.new ≡ story_by self.old) }
    {
        let Some(mark) = self.writes.checked_add(1) else {
            return Err(OutOfMemory);
        };
        let kept = copied(self.alloc, bytes)?;
        let logged = Logged::Wrote(path.copy()?, kept, mark);
        self.set(path, bytes, mark, logged, mark)?;
        Ok(())
    }

    // Sets a file and logs it; takes all its memory before it changes anything.
    #[tactic(auto, using(crate::proofs::Leaving::after_more, crate::proofs::Asked::asked_push, crate::proofs::Marked::writes_more, crate::proofs::Marked::marked_more))]
    fn set(
        &mut self,
        path: &Path,
        bytes: &[u8],
        mark: u64,
        logged: Logged,
        writes: u64,
    ) -> Result<(), OutOfMemory>
        requires picked { picked All (held_by self.old) logged ≡ with_file (held_by self.old) path.now bytes.now mark }
        requires marked { is_marked self.old.writes logged ≡ true }
        requires counted { writes ≡ self.old.writes + writes_by logged }
        ensures set { OnOk result (held_by self.new ≡ with_file (held_by self.old) path.now bytes.now mark) }
        ensures began { began_by self.new ≡ began_by self.old }
        ensures noted { OnOk result (story_by self.new ≡ story_by self.old ++ logged ∷ []) }
        ensures asked { OnOk result (asked_by self.new ≡ asked_by self.old ++ asked_of (logged ∷ [])) }
        ensures unchanged { OnErr result ((held_by self.new ≡ held_by self.old) × (asked_by self.new ≡ asked_by self.old) × (story_by self.new ≡ story_by self.old)) }
    {
        let found = Found {
            bytes: bytes.to_vec(self.alloc)?,
            mark,
        };
        let path = path.copy()?;
        self.log.reserve(1)?;
        self.held.insert(path, found)?;
        push_reserved(&mut self.log, logged);
        self.writes = writes;
        Ok(())
    }

    /// Takes a file away and logs it.
    #[tactic(auto, using(crate::proofs::Leaving::after_more, crate::proofs::Marked::writes_more, crate::proofs::Marked::marked_more))]
    pub(crate) fn take_away(&mut self, path: &Path) -> Result<(), OutOfMemory>
        ensures taken { OnOk result (held_by self.new ≡ without_file (held_by self.old) path.now) }
        ensures began { began_by self.new ≡ began_by self.old }
        ensures noted { OnOk result (story_by self.new ≡ story_by self.old ++ Logged.Removed path.now ∷ []) }
        ensures unchanged { OnErr result ((held_by self.new ≡ held_by self.old) × (story_by self.new ≡ story_by self.old)) }
    {
        let logged = Logged::Removed(path.copy()?);
        note(&mut self.log, logged)?;
        self.held.remove(path);
        Ok(())
    }

    /// Notes a sync that succeeds.
    #[tactic(auto, using(crate::proofs::Leaving::after_more, crate::proofs::Marked::writes_more, crate::proofs::Marked::marked_more))]
    pub(crate) fn note_synced(&mut self) -> Result<(), OutOfMemory>
        ensures held { held_by self.new ≡ held_by self.old }
        ensures began { began_by self.new ≡ began_by self.old }
        ensures noted { OnOk result (story_by self.new ≡ story_by self.old ++ Logged.Synced ∷ []) }
        ensures unchanged { OnErr result (story_by self.new ≡ story_by self.old) }
    {
        note(&mut self.log, Logged::Synced)
    }

    /// The file at a path, where it has at most so many bytes.
    pub(crate) fn copy_within(&self, path: &Path, most: usize) -> Result<Within, OutOfMemory>
        ensures { IfOk result (λ found. IsWithin most found (file_at (held_by self.now) path.now)) }
    {
        match self.held.get(path) {
            Some(found) => within(self.alloc, found, most),
            None => Ok(Within::Absent),
        }
    }

    /// The digest of the file at a path.
    pub(crate) fn digest_of(&self, path: &Path) -> Option<[u8; 32]>
        ensures { result ≡ option_map (λ f. sha256 f.0) (file_at (held_by self.now) path.now) }
    {
        match self.held.get(path) {
            Some(found) => Some(hash_of(found.bytes.as_slice())),
            None => None,
        }
    }

    /// The mark of the file at a path.
    pub(crate) fn mark_of(&self, path: &Path) -> Option<u64>
        ensures { result ≡ option_map (λ f. f.1) (file_at (held_by self.now) path.now) }
    {
        match self.held.get(path) {
            Some(found) => Some(found.mark),
            None => None,
        }
    }

    /// A copy of the file at a path.
    pub(crate) fn copy_of(&self, path: &Path) -> Result<Option<Found>, OutOfMemory>
        ensures { IfOk result (λ found. option_map content_of found ≡ file_at (held_by self.now) path.now) }
    {
        match self.held.get(path) {
            Some(found) => Ok(Some(Found {
                bytes: found.bytes.to_vec(self.alloc)?,
                mark: found.mark,
            })),
            None => Ok(None),
        }
    }
}

// A copy of a file that has at most so many bytes.
fn within(alloc: Global, found: &Found, most: usize) -> Result<Within, OutOfMemory>
    ensures { IfOk result (λ copy. IsWithin most copy (Some (content_of found.now))) }
{
    if found.bytes.len() > most {
        return Ok(Within::Long);
    }
    Ok(Within::Whole(Found {
        bytes: found.bytes.to_vec(alloc)?,
        mark: found.mark,
    }))
}

fn hash_of(bytes: &[u8]) -> [u8; 32]
    ensures { result ≡ sha256 bytes.now }
{
    let mut hasher = Sha256::new();
    hasher.update(bytes);
    hasher.finalize()
}

fn copied(alloc: Global, bytes: &[u8]) -> Result<Vec<u8>, OutOfMemory>
    ensures { IfOk result (λ copy. copy.items ≡ bytes.now) }
{
    Ok(bytes.to_vec(alloc)?)
}

// Adds to the log, or leaves it as it is.
fn note(log: &mut Vec<Logged>, logged: Logged) -> Result<(), OutOfMemory>
    ensures noted { OnOk result (log.new.items ≡ log.old.items ++ logged ∷ []) }
    ensures unchanged { OnErr result (log.new.items ≡ log.old.items) }
{
    log.push(logged)?;
    Ok(())
}

// Adds to a log that has room.
fn push_reserved(log: &mut Vec<Logged>, logged: Logged)
    requires { vec_len log.old < vec_capacity log.old }
    ensures { log.new.items ≡ log.old.items ++ logged ∷ [] }
{
    let _room = log.push(logged);
}

impl Files for SureFiles {
    ghost use Rattle.std.specs.Prelude.{Some};
    ghost use Rattle.pie_files.specs.inner.SureFiles.{held_by, asked_by, images_by, moment_by, left_since_by};
    ghost use Rattle.pie_files.specs.inner.StoryLaws.{counts_now, holds_now, only_now};

    ghost holds = { λ s. Some (held_by s) };

    ghost asked = { λ s. Some (asked_by s) };

    ghost faults = { λ _. 0 };

    ghost images = { images_by };

    ghost moment = { moment_by };

    ghost left_since = { left_since_by };

    ghost counts_now = { λ s. counts_now s.began s.log.items };

    ghost only_now = { λ s. only_now s.began s.log.items };

    ghost holds_now = { λ s d is. holds_now s.began s.held s.log.items s.told d is };

    fn read(&mut self, path: &Path) -> Result<Option<Found>, FilesError> {
        let call = Call::Read(path.copy()?);
        let found = self.copy_of(path)?;
        self.note_asked(call)?;
        Ok(found)
    }

    fn read_within(&mut self, path: &Path, most: usize) -> Result<Within, FilesError> {
        let call = Call::Read(path.copy()?);
        let found = self.copy_within(path, most)?;
        self.note_asked(call)?;
        Ok(found)
    }

    fn exists(&mut self, path: &Path) -> Result<bool, FilesError> {
        let call = Call::Read(path.copy()?);
        let there = self.held.has(path);
        self.note_asked(call)?;
        Ok(there)
    }

    fn digest(&mut self, path: &Path) -> Result<Option<[u8; 32]>, FilesError> {
        let call = Call::Read(path.copy()?);
        let digest = self.digest_of(path);
        self.note_asked(call)?;
        Ok(digest)
    }

    fn mark(&mut self, path: &Path) -> Result<Option<u64>, FilesError> {
        let call = Call::Read(path.copy()?);
        let mark = self.mark_of(path);
        self.note_asked(call)?;
        Ok(mark)
    }

    fn names(&mut self, dir: &Path) -> Result<Vec<Path>, FilesError> {
        let call = Call::Names(dir.copy()?);
        let paths = self.held.names(self.alloc, dir)?;
        self.note_asked(call)?;
        Ok(paths)
    }

    fn all_under(&mut self, dir: &Path) -> Result<Vec<Path>, FilesError> {
        let call = Call::AllUnder(dir.copy()?);
        let paths = self.held.all_under(self.alloc, dir)?;
        self.note_asked(call)?;
        Ok(paths)
    }

    fn write(&mut self, path: &Path, bytes: &[u8]) -> Result<(), FilesError> {
        self.write_file(path, bytes)?;
        Ok(())
    }

    fn remove(&mut self, path: &Path) -> Result<(), FilesError> {
        self.take_away(path)?;
        Ok(())
    }

    fn sync(&mut self) -> Result<(), FilesError> {
        self.note_synced()?;
        Ok(())
    }
}
