//! Why tokens are no value.
ghost use Rattle.std.specs.Prelude.{◌≡◌};

use pie_base::OutOfMemory;
use std::alloc::{AllocError, AllocFailed};

// Why nothing is read at a reader's place.
#[derive(Clone, Copy, Debug, PartialEq, Eq)]
pub enum RootFault {
    Bad,
    OutOfMemory,
}

impl From<OutOfMemory> for RootFault {
    ghost use Rattle.pie_roots.specs.declared.fault.RootFault.TheVariants.{OutOfMemory};

    ghost from_gives = { λ _ e. e ≡ OutOfMemory };

    fn from(_: OutOfMemory) -> Self {
        RootFault::OutOfMemory
    }
}

impl From<AllocError> for RootFault {
    ghost use Rattle.pie_roots.specs.declared.fault.RootFault.TheVariants.{OutOfMemory};

    ghost from_gives = { λ _ e. e ≡ OutOfMemory };

    fn from(_: AllocError) -> Self {
        RootFault::OutOfMemory
    }
}

impl<T: Drop> From<AllocFailed<T>> for RootFault {
    ghost use Rattle.pie_roots.specs.declared.fault.RootFault.TheVariants.{OutOfMemory};

    ghost from_gives = { λ _ e. e ≡ OutOfMemory };

    fn from(_: AllocFailed<T>) -> Self {
        RootFault::OutOfMemory
    }
}
