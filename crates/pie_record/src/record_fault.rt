//! Why bytes are refused.
ghost use Rattle.std.specs.Prelude.{◌≡◌};

use pie_base::OutOfMemory;
use std::alloc::{AllocError, AllocFailed};

/// Why bytes begin with no record. They are read from the left, and the fault at the least place is answered.
#[derive(Clone, Copy, Debug, PartialEq, Eq)]
pub enum RecordFault {
    /// The bytes end where more are needed.
    Short,
    /// No kind of observation has this number, or no stamp that the kind allows has this tag.
    BadTag,
    /// A path that is none, or a written path outside `out/`, with all its bytes there.
    BadPath,
    /// A task or a value that is none, with all its bytes there.
    BadValue,
    OutOfMemory,
}

impl From<AllocError> for RecordFault {
    ghost use Rattle.pie_record.specs.declared.record_fault.RecordFault.TheVariants.{OutOfMemory};

    ghost from_gives = { λ _ e. e ≡ OutOfMemory };

    fn from(_: AllocError) -> Self {
        RecordFault::OutOfMemory
    }
}

impl<T: Drop> From<AllocFailed<T>> for RecordFault {
    ghost use Rattle.pie_record.specs.declared.record_fault.RecordFault.TheVariants.{OutOfMemory};

    ghost from_gives = { λ _ e. e ≡ OutOfMemory };

    fn from(_: AllocFailed<T>) -> Self {
        RecordFault::OutOfMemory
    }
}

impl From<OutOfMemory> for RecordFault {
    ghost use Rattle.pie_record.specs.declared.record_fault.RecordFault.TheVariants.{OutOfMemory};

    ghost from_gives = { λ _ e. e ≡ OutOfMemory };

    fn from(_: OutOfMemory) -> Self {
        RecordFault::OutOfMemory
    }
}
