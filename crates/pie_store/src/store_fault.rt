//! Why bytes are no store.
ghost use Rattle.std.specs.Prelude.{◌≡◌};

use pie_base::OutOfMemory;
use std::alloc::{AllocError, AllocFailed};

/// Why bytes are no store, in the order in which it is tested; of rows and orders the first from the left.
/// Offsets are bytes from 0. Rule: docs/FORMATS.md, "The store".
#[derive(Clone, Copy, Debug, PartialEq, Eq)]
pub enum StoreFault {
    /// There are fewer bytes than any store of this version has.
    Short,
    /// The first four bytes are others than `PIES`.
    Magic,
    /// The version is neither 1 nor 2.
    Version,
    /// The last 32 bytes aren't the SHA-256 of those before them.
    Digest,
    /// At this offset a function, a root, a number or a record begins that can't be read.
    Row(usize),
    /// At this offset a function or a record begins that doesn't follow those before it, or a root without a record.
    Order(usize),
    /// There are bytes between the last record and the digest.
    Rest,
    OutOfMemory,
}

impl From<AllocError> for StoreFault {
    ghost use Rattle.pie_store.specs.declared.store_fault.StoreFault.TheVariants.{OutOfMemory};

    ghost from_gives = { λ _ e. e ≡ OutOfMemory };

    fn from(_: AllocError) -> Self {
        StoreFault::OutOfMemory
    }
}

impl<T: Drop> From<AllocFailed<T>> for StoreFault {
    ghost use Rattle.pie_store.specs.declared.store_fault.StoreFault.TheVariants.{OutOfMemory};

    ghost from_gives = { λ _ e. e ≡ OutOfMemory };

    fn from(_: AllocFailed<T>) -> Self {
        StoreFault::OutOfMemory
    }
}

impl From<OutOfMemory> for StoreFault {
    ghost use Rattle.pie_store.specs.declared.store_fault.StoreFault.TheVariants.{OutOfMemory};

    ghost from_gives = { λ _ e. e ≡ OutOfMemory };

    fn from(_: OutOfMemory) -> Self {
        StoreFault::OutOfMemory
    }
}
