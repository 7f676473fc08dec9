//! Why the bytes of `pie.roots` are no roots.
ghost use Rattle.std.specs.Prelude.{◌≡◌};

use pie_base::OutOfMemory;
use std::alloc::{AllocError, AllocFailed};

/// Why the bytes of `pie.roots` are no roots, in the order in which it is tested.
#[derive(Clone, Copy, Debug, PartialEq, Eq)]
pub enum RootsFault {
    /// There are more than 1,048,576 bytes.
    TooLong,
    /// The bytes aren't UTF-8.
    NotText,
    /// The first line, counted from 1, that is neither blank nor a task of the pipeline.
    BadRoot(u32),
    /// No memory was to be had; it says nothing of the bytes.
    OutOfMemory,
}

impl From<OutOfMemory> for RootsFault {
    ghost use Rattle.pie_roots.specs.declared.roots_fault.RootsFault.TheVariants.{OutOfMemory};

    ghost from_gives = { λ _ e. e ≡ OutOfMemory };

    fn from(_: OutOfMemory) -> Self {
        RootsFault::OutOfMemory
    }
}

impl From<AllocError> for RootsFault {
    ghost use Rattle.pie_roots.specs.declared.roots_fault.RootsFault.TheVariants.{OutOfMemory};

    ghost from_gives = { λ _ e. e ≡ OutOfMemory };

    fn from(_: AllocError) -> Self {
        RootsFault::OutOfMemory
    }
}

impl<T: Drop> From<AllocFailed<T>> for RootsFault {
    ghost use Rattle.pie_roots.specs.declared.roots_fault.RootsFault.TheVariants.{OutOfMemory};

    ghost from_gives = { λ _ e. e ≡ OutOfMemory };

    fn from(_: AllocFailed<T>) -> Self {
        RootsFault::OutOfMemory
    }
}
