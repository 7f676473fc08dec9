//! Looks at a folder.
ghost use Rattle.std.specs.Prelude.{◌≡◌};

use std::alloc::{AllocError, AllocFailed};

/// What kind of entry stands at a place.
#[derive(Clone, Copy, Debug, PartialEq, Eq)]
pub enum Kind {
    File,
    Dir,
    Link,
    /// A pipe, a socket or a device.
    Other,
}

/// What a look tells of something that can be done.
#[derive(Clone, Copy, Debug, PartialEq, Eq)]
pub enum Judged {
    Yes,
    No,
    /// No look tells it.
    Unknown,
}

/// An entry, as a look finds it.
#[derive(Clone, Copy, Debug, PartialEq, Eq)]
pub struct Entry {
    pub kind: Kind,
    /// Of a folder: whether entries of it can be listed, made and removed by the user, as far as its rights tell.
    pub is_usable: Judged,
    /// The number of the file system.
    pub system: u64,
}

/// The names in a folder.
#[derive(Drop)]
pub struct Names {
    /// Those that are UTF-8.
    pub names: Vec<String>,
    /// How many others there are.
    pub odd: u64,
}

/// Why a look found nothing.
#[derive(Clone, Copy, Debug, PartialEq, Eq)]
pub enum LookError {
    /// Nothing is there, or links lead round in a cycle.
    Absent,
    /// The user hasn't the right to.
    Denied,
    /// The system refused it otherwise.
    Failed,
    OutOfMemory,
}

impl From<AllocError> for LookError {
    ghost use Rattle.pie_doctor.specs.declared.look.LookError.TheVariants.{OutOfMemory};

    ghost from_gives = { λ _ e. e ≡ OutOfMemory };

    fn from(_: AllocError) -> Self {
        LookError::OutOfMemory
    }
}

impl<T: Drop> From<AllocFailed<T>> for LookError {
    ghost use Rattle.pie_doctor.specs.declared.look.LookError.TheVariants.{OutOfMemory};

    ghost from_gives = { λ _ e. e ≡ OutOfMemory };

    fn from(_: AllocFailed<T>) -> Self {
        LookError::OutOfMemory
    }
}

/// A folder that is looked at. A place is `.`, or names with a `/` between them. Each call takes the folder by a shared reference: no look can change it.
pub trait Look {
    /// What stands at a place. A link at its end isn't followed.
    fn entry(&self, place: &str) -> Result<Entry, LookError>;

    /// What stands where a link leads to.
    fn beyond(&self, place: &str) -> Result<Entry, LookError>;

    /// The names in a folder, in no order.
    fn names(&self, place: &str) -> Result<Names, LookError>;

    /// Whether a file can be opened to be read. It is asked of files alone.
    fn open(&self, place: &str) -> Result<(), LookError>;
}
