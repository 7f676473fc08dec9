//! The files of a project, as a trait: what a build may ask of the outside.
ghost use Rattle.std.specs.Prelude.{◌≡◌, ◌≤◌, List, ℕ, Option, Some, IfSome, IfOk, OnOk, IsErrOf, is_some};
ghost use Rattle.std.specs.Option.{option_map};
ghost use Rattle.sha2.specs.Sha256.{sha256};
ghost use Rattle.pie_files.specs.declared.files.Call.{Call};
ghost use Rattle.pie_files.specs.Directory.{Directory, file_at, with_file, without_file, files_under, entries_of};
ghost use Rattle.pie_files.specs.inner.Within.{IsWithin};
ghost use Rattle.pie_files.specs.Calls.{Called, IsWrite, Wrote, MayHaveWritten, MayHaveRemoved};
ghost use Rattle.pie_files.specs.Images.{MayLeave, Stays, MayWrite, MayRemove, Only};

use pie_base::{OutOfMemory, Path};
use std::alloc::{AllocError, AllocFailed};

/// Why a call on the files gave no answer.
#[derive(Clone, Copy, Debug, PartialEq, Eq)]
pub enum FilesError {
    /// The outside failed. It comes only where the count of faults rose in the call.
    Failed,
    OutOfMemory,
}

impl From<OutOfMemory> for FilesError {
    ghost use Rattle.pie_files.specs.declared.files.FilesError.TheVariants.{OutOfMemory};

    ghost from_gives = { λ _ e. e ≡ OutOfMemory };

    fn from(_: OutOfMemory) -> Self {
        FilesError::OutOfMemory
    }
}

impl From<AllocError> for FilesError {
    ghost use Rattle.pie_files.specs.declared.files.FilesError.TheVariants.{OutOfMemory};

    ghost from_gives = { λ _ e. e ≡ OutOfMemory };

    fn from(_: AllocError) -> Self {
        FilesError::OutOfMemory
    }
}

impl<T: Drop> From<AllocFailed<T>> for FilesError {
    ghost use Rattle.pie_files.specs.declared.files.FilesError.TheVariants.{OutOfMemory};

    ghost from_gives = { λ _ e. e ≡ OutOfMemory };

    fn from(_: AllocFailed<T>) -> Self {
        FilesError::OutOfMemory
    }
}

/// A file as `read` finds it.
#[derive(Drop)]
pub struct Found {
    pub bytes: Vec<u8>,
    /// A number that the files give the file when it is written; it has no unit.
    pub mark: u64,
}

/// What `read_within` finds at a path.
#[derive(Drop)]
pub enum Within {
    /// No file is there.
    Absent,
    /// The file has more bytes than were wanted. None of them is handed out.
    Long,
    Whole(Found),
}

/// A call on the files, as the objects in memory list it.
#[derive(Drop)]
pub enum Call {
    /// A look at one file: `read`, `read_within`, `exists`, `digest` or `mark`.
    Read(Path),
    Names(Path),
    AllUnder(Path),
    /// With the mark that was given, where the write succeeded.
    Write(Path, Option<u64>),
    Remove(Path),
    Sync,
}

/// The files of a project directory. After out of memory nothing has changed.
/// Rule: docs/BUILDING.md, "The outside".
pub trait Files {
    /// The directory, where the object tells it.
    ghost holds: { Self → Option Directory };

    /// All calls so far, oldest first, where the object tells them.
    ghost asked: { Self → Option (List Call) };

    /// How often the outside has failed. It never falls.
    ghost faults: { Self → ℕ };

    /// What a crash now may leave, where the directory is observable.
    ghost images: { Self → Directory → Type 0 };

    /// A count of moments. It never falls.
    ghost moment: { Self → ℕ };

    /// What a crash at this moment or a later one may have left, where the directory is observable.
    ghost left_since: { Self → ℕ → Directory → Type 0 };

    /// The file at a path, or `None` where there is none.
    fn read(&mut self, path: &Path) -> Result<Option<Found>, FilesError>
        ensures found { IfSome (holds self.old) (λ d. IfOk result (λ found. option_map (λ f. (f.bytes.items, f.mark)) found ≡ file_at d path.now)) }
        ensures same { holds self.new ≡ holds self.old }
        ensures crash { MayLeave holds moment left_since images Stays self.old self.new }
        ensures called { Called asked faults (λ c. c ≡ Call.Read path.now) self.old self.new result };

    /// The file at a path, where it has at most so many bytes. A longer one is told by its size.
    fn read_within(&mut self, path: &Path, most: usize) -> Result<Within, FilesError>
        ensures found { IfSome (holds self.old) (λ d. IfOk result (λ found. IsWithin most found (file_at d path.now))) }
        ensures same { holds self.new ≡ holds self.old }
        ensures crash { MayLeave holds moment left_since images Stays self.old self.new }
        ensures called { Called asked faults (λ c. c ≡ Call.Read path.now) self.old self.new result };

    /// Whether a file is at a path. Its bytes aren't asked for.
    fn exists(&mut self, path: &Path) -> Result<bool, FilesError>
        ensures found { IfSome (holds self.old) (λ d. IfOk result (λ there. there ≡ is_some (file_at d path.now))) }
        ensures same { holds self.new ≡ holds self.old }
        ensures crash { MayLeave holds moment left_since images Stays self.old self.new }
        ensures called { Called asked faults (λ c. c ≡ Call.Read path.now) self.old self.new result };

    /// The SHA-256 of the file at a path, or `None` where there is none. Its bytes needn't fit into memory.
    fn digest(&mut self, path: &Path) -> Result<Option<[u8; 32]>, FilesError>
        ensures found { IfSome (holds self.old) (λ d. IfOk result (λ digest. digest ≡ option_map (λ f. sha256 f.0) (file_at d path.now))) }
        ensures same { holds self.new ≡ holds self.old }
        ensures crash { MayLeave holds moment left_since images Stays self.old self.new }
        ensures called { Called asked faults (λ c. c ≡ Call.Read path.now) self.old self.new result };

    /// The mark of the file at a path, or `None` where there is none. Its bytes aren't asked for.
    fn mark(&mut self, path: &Path) -> Result<Option<u64>, FilesError>
        ensures found { IfSome (holds self.old) (λ d. IfOk result (λ mark. mark ≡ option_map (λ f. f.1) (file_at d path.now))) }
        ensures same { holds self.new ≡ holds self.old }
        ensures crash { MayLeave holds moment left_since images Stays self.old self.new }
        ensures called { Called asked faults (λ c. c ≡ Call.Read path.now) self.old self.new result };

    /// The entries of a directory in path order: the paths right below it at which or below which
    /// a file is.
    fn names(&mut self, dir: &Path) -> Result<Vec<Path>, FilesError>
        ensures listed { IfSome (holds self.old) (λ d. IfOk result (λ paths. paths.items ≡ entries_of d dir.now)) }
        ensures same { holds self.new ≡ holds self.old }
        ensures crash { MayLeave holds moment left_since images Stays self.old self.new }
        ensures called { Called asked faults (λ c. c ≡ Call.Names dir.now) self.old self.new result };

    /// The files below a directory, at any depth, in path order.
    fn all_under(&mut self, dir: &Path) -> Result<Vec<Path>, FilesError>
        ensures listed { IfSome (holds self.old) (λ d. IfOk result (λ paths. paths.items ≡ files_under d dir.now)) }
        ensures same { holds self.new ≡ holds self.old }
        ensures crash { MayLeave holds moment left_since images Stays self.old self.new }
        ensures called { Called asked faults (λ c. c ≡ Call.AllUnder dir.now) self.old self.new result };

    /// Makes the file hold these bytes, with some mark.
    /// After `Failed` it may hold any bytes or be as before.
    fn write(&mut self, path: &Path, bytes: &[u8]) -> Result<(), FilesError>
        ensures written { OnOk result (Wrote holds asked path.now bytes.now self.old self.new) }
        ensures failed { IsErrOf result FilesError.Failed → IfSome (holds self.old) (λ d. MayHaveWritten d path.now (holds self.new)) }
        ensures unchanged { IsErrOf result FilesError.OutOfMemory → holds self.new ≡ holds self.old }
        ensures crash { MayLeave holds moment left_since images (MayWrite path.now) self.old self.new }
        ensures called { Called asked faults (IsWrite path.now result) self.old self.new result };

    /// Takes the file away. To remove what isn't there changes nothing.
    /// After `Failed` it may be there or not.
    fn remove(&mut self, path: &Path) -> Result<(), FilesError>
        ensures removed { IfSome (holds self.old) (λ d. OnOk result (holds self.new ≡ Some (without_file d path.now))) }
        ensures failed { IsErrOf result FilesError.Failed → IfSome (holds self.old) (λ d. MayHaveRemoved d path.now (holds self.new)) }
        ensures unchanged { IsErrOf result FilesError.OutOfMemory → holds self.new ≡ holds self.old }
        ensures crash { MayLeave holds moment left_since images (MayRemove path.now) self.old self.new }
        ensures called { Called asked faults (λ c. c ≡ Call.Remove path.now) self.old self.new result };

    /// Makes what was done so far outlast a crash.
    fn sync(&mut self) -> Result<(), FilesError>
        ensures same { holds self.new ≡ holds self.old }
        ensures durable { IfSome (holds self.old) (λ d. OnOk result (Only d (images self.new))) }
        ensures crash { MayLeave holds moment left_since images Stays self.old self.new }
        ensures called { Called asked faults (λ c. c ≡ Call.Sync) self.old self.new result };

    /// What a crash may leave now it may have left since each earlier moment.
    ghost counts_now: { (files : Self) (t : ℕ) (c : Directory) → t ≤ moment files → images files c → left_since files t c };

    /// What the files hold a crash may leave now.
    ghost holds_now: { (files : Self) (d : Directory) → holds files ≡ Some d → images files d };

    /// What it may have left since now it may leave now.
    ghost only_now: { (files : Self) (c : Directory) → left_since files (moment files) c → images files c };
}
