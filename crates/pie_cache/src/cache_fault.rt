//! Why bytes are no file of the cache.
ghost use Rattle.std.specs.Prelude.{◌≡◌};

use pie_base::OutOfMemory;
use std::alloc::{AllocError, AllocFailed};
use thiserror::Error;

/// Why bytes are no file of the cache, in the order in which it is tested; of entries the first from the left. Offsets are bytes
/// from 0. Rule: docs/FORMATS.md, "The cache".
#[derive(Clone, Copy, Debug, PartialEq, Eq, Error)]
pub enum CacheFault {
    /// There are fewer than 38 bytes.
    #[error("there are fewer than 38 bytes")]
    Short,
    /// The first four bytes are others than `PIEC`.
    #[error("the first four bytes are others than PIEC")]
    Magic,
    /// The version isn't 1.
    #[error("the version isn't 1")]
    Version,
    /// The last 32 bytes aren't the SHA-256 of those before them.
    #[error("the last 32 bytes aren't the SHA-256 of those before them")]
    Digest,
    /// The number of entries isn't one of 1 to 4.
    #[error("the number of entries isn't one of 1 to 4")]
    Count,
    /// At this offset an entry begins that can't be read, or one with a content that hasn't the hash of its write.
    #[error("the entry at {0} can't be read")]
    Entry(usize),
    /// There are bytes between the last entry and the digest.
    #[error("there are bytes between the last entry and the digest")]
    Rest,
    /// No memory was to be had.
    #[error("out of memory")]
    OutOfMemory,
}

impl From<AllocError> for CacheFault {
    ghost use Rattle.pie_cache.specs.declared.cache_fault.CacheFault.TheVariants.{OutOfMemory};

    ghost from_gives = { λ _ e. e ≡ OutOfMemory };

    fn from(_: AllocError) -> Self {
        CacheFault::OutOfMemory
    }
}

impl<T: Drop> From<AllocFailed<T>> for CacheFault {
    ghost use Rattle.pie_cache.specs.declared.cache_fault.CacheFault.TheVariants.{OutOfMemory};

    ghost from_gives = { λ _ e. e ≡ OutOfMemory };

    fn from(_: AllocFailed<T>) -> Self {
        CacheFault::OutOfMemory
    }
}

impl From<OutOfMemory> for CacheFault {
    ghost use Rattle.pie_cache.specs.declared.cache_fault.CacheFault.TheVariants.{OutOfMemory};

    ghost from_gives = { λ _ e. e ≡ OutOfMemory };

    fn from(_: OutOfMemory) -> Self {
        CacheFault::OutOfMemory
    }
}
