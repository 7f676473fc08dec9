//! Why tokens are no pipeline.
ghost use Rattle.std.specs.Prelude.{◌≡◌};

use pie_base::OutOfMemory;
use std::alloc::{AllocError, AllocFailed};

/// Why tokens are no pipeline. The lesser place is answered, and at one place `Expected`.
/// Each place is in bytes from 0.
#[derive(Clone, Copy, Debug, PartialEq, Eq)]
pub enum ParseError {
    /// The token that begins here can't stand here: with it the tokens before it begin no pipeline.
    /// Behind the last token it is the end of that token.
    Expected(usize),
    /// The opening bracket here stands inside 64 open ones.
    TooDeep(usize),
    /// No memory was to be had, or more than `MAX_CONDITIONS` conditions of `if` stand open.
    OutOfMemory,
}

// Why a part of the grammar can't be read at a reader's place.
#[derive(Clone, Copy, Debug, PartialEq, Eq)]
pub enum ParseFault {
    Expected,
    TooDeep,
    OutOfMemory,
}

impl From<OutOfMemory> for ParseFault {
    ghost use Rattle.pie_parser.specs.declared.error.ParseFault.TheVariants.{OutOfMemory};

    ghost from_gives = { λ _ e. e ≡ OutOfMemory };

    fn from(_: OutOfMemory) -> Self {
        ParseFault::OutOfMemory
    }
}

impl From<AllocError> for ParseFault {
    ghost use Rattle.pie_parser.specs.declared.error.ParseFault.TheVariants.{OutOfMemory};

    ghost from_gives = { λ _ e. e ≡ OutOfMemory };

    fn from(_: AllocError) -> Self {
        ParseFault::OutOfMemory
    }
}

impl<T: Drop> From<AllocFailed<T>> for ParseFault {
    ghost use Rattle.pie_parser.specs.declared.error.ParseFault.TheVariants.{OutOfMemory};

    ghost from_gives = { λ _ e. e ≡ OutOfMemory };

    fn from(_: AllocFailed<T>) -> Self {
        ParseFault::OutOfMemory
    }
}
