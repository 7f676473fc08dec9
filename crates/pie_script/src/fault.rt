//! Why an input is refused.
ghost use Rattle.std.specs.Prelude.{◌≡◌};

use pie_base::OutOfMemory;
use std::alloc::{AllocError, AllocFailed};
use thiserror::Error;

/// Why an input is refused: too long, else the first bad line. Lines count from 1, empty ones too.
#[derive(Clone, Copy, Debug, PartialEq, Eq, Error)]
pub enum InputFault {
    /// This line isn't UTF-8.
    #[error("line {0} of the input isn't UTF-8")]
    NotText(u32),
    /// This line has what is no path, or in a script a path that no script may name.
    #[error("line {0} of the input has what is no path")]
    BadPath(u32),
    /// This line of a script has no form of a line, or is content that no `put` stands before.
    #[error("line {0} of the input is no line of a script")]
    BadWord(u32),
    /// The input has more than 16,777,216 bytes.
    #[error("the input has more than 16,777,216 bytes")]
    TooLong,
    #[error("out of memory")]
    OutOfMemory,
}

impl From<OutOfMemory> for InputFault {
    ghost use Rattle.pie_script.specs.declared.fault.InputFault.TheVariants.{OutOfMemory};

    ghost from_gives = { λ _ e. e ≡ OutOfMemory };

    fn from(_: OutOfMemory) -> Self {
        InputFault::OutOfMemory
    }
}

impl From<AllocError> for InputFault {
    ghost use Rattle.pie_script.specs.declared.fault.InputFault.TheVariants.{OutOfMemory};

    ghost from_gives = { λ _ e. e ≡ OutOfMemory };

    fn from(_: AllocError) -> Self {
        InputFault::OutOfMemory
    }
}

impl<T: Drop> From<AllocFailed<T>> for InputFault {
    ghost use Rattle.pie_script.specs.declared.fault.InputFault.TheVariants.{OutOfMemory};

    ghost from_gives = { λ _ e. e ≡ OutOfMemory };

    fn from(_: AllocFailed<T>) -> Self {
        InputFault::OutOfMemory
    }
}
