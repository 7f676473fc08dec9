//! Why bytes are no manifest.
ghost use Rattle.std.specs.Prelude.{◌≡◌};

use pie_base::OutOfMemory;
use std::alloc::{AllocError, AllocFailed};

/// Why bytes are no manifest, in the order in which it is tested; of entries and orders the first from the left, and of one thing
/// the entry before the order. Offsets are bytes from 0. Rule: docs/FORMATS.md, "The manifest".
#[derive(Clone, Copy, Debug, PartialEq, Eq)]
pub enum ManifestFault {
    /// There are fewer than 81 bytes.
    Short,
    /// The first four bytes are others than `PIEM`.
    Magic,
    /// The version isn't 1.
    Version,
    /// The last 32 bytes aren't the SHA-256 of those before them.
    Digest,
    /// At this offset a number, a top or an entry begins that can't be read, or an entry under `out/` whose mark isn't 0.
    Entry(usize),
    /// At this offset a top or an entry begins that doesn't come after the one before it.
    Order(usize),
    /// There are bytes between the last entry and the digest.
    Rest,
    OutOfMemory,
}

impl From<AllocError> for ManifestFault {
    ghost use Rattle.pie_scan.specs.declared.manifest_fault.ManifestFault.TheVariants.{OutOfMemory};

    ghost from_gives = { λ _ e. e ≡ OutOfMemory };

    fn from(_: AllocError) -> Self {
        ManifestFault::OutOfMemory
    }
}

impl<T: Drop> From<AllocFailed<T>> for ManifestFault {
    ghost use Rattle.pie_scan.specs.declared.manifest_fault.ManifestFault.TheVariants.{OutOfMemory};

    ghost from_gives = { λ _ e. e ≡ OutOfMemory };

    fn from(_: AllocFailed<T>) -> Self {
        ManifestFault::OutOfMemory
    }
}

impl From<OutOfMemory> for ManifestFault {
    ghost use Rattle.pie_scan.specs.declared.manifest_fault.ManifestFault.TheVariants.{OutOfMemory};

    ghost from_gives = { λ _ e. e ≡ OutOfMemory };

    fn from(_: OutOfMemory) -> Self {
        ManifestFault::OutOfMemory
    }
}
