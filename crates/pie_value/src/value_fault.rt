//! Why bytes are refused.
ghost use Rattle.std.specs.Prelude.{◌≡◌};

use pie_base::OutOfMemory;
use std::alloc::{AllocError, AllocFailed};

/// Why bytes are no canonical bytes. The fault at the least place is answered; at one place the first of these.
#[derive(Clone, Copy, Debug, PartialEq, Eq)]
pub enum ValueFault {
    /// The bytes end where more are needed.
    Short,
    /// No kind of value has this tag, or a truth value has another byte than 0 and 1.
    BadTag,
    /// A text that isn't UTF-8, or a path that is none, with all its bytes there.
    BadText,
    /// There are bytes after the value.
    Rest,
    /// At the tag of a value inside 64 others.
    TooDeep,
    OutOfMemory,
}

impl From<AllocError> for ValueFault {
    ghost use Rattle.pie_value.specs.declared.value_fault.ValueFault.TheVariants.{OutOfMemory};

    ghost from_gives = { λ _ e. e ≡ OutOfMemory };

    fn from(_: AllocError) -> Self {
        ValueFault::OutOfMemory
    }
}

impl<T: Drop> From<AllocFailed<T>> for ValueFault {
    ghost use Rattle.pie_value.specs.declared.value_fault.ValueFault.TheVariants.{OutOfMemory};

    ghost from_gives = { λ _ e. e ≡ OutOfMemory };

    fn from(_: AllocFailed<T>) -> Self {
        ValueFault::OutOfMemory
    }
}

impl From<OutOfMemory> for ValueFault {
    ghost use Rattle.pie_value.specs.declared.value_fault.ValueFault.TheVariants.{OutOfMemory};

    ghost from_gives = { λ _ e. e ≡ OutOfMemory };

    fn from(_: OutOfMemory) -> Self {
        ValueFault::OutOfMemory
    }
}
