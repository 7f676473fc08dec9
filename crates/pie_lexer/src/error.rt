//! Why a text has no tokens.
ghost use Rattle.std.specs.Prelude.{◌≡◌};

use pie_base::OutOfMemory;
use std::alloc::{AllocError, AllocFailed};

/// Why a text has no tokens: the first place from the left where no token can be taken.
/// Each place is in bytes from 0.
#[derive(Clone, Copy, Debug, PartialEq, Eq)]
pub enum LexError {
    /// No token begins with the character that stands here.
    BadChar(usize),
    /// The text that is opened by the quote here isn't closed on its line.
    OpenText(usize),
    /// The backslash here stands before none of `"`, `\`, `n` and `t`.
    BadEscape(usize),
    /// The digits that begin here are more than 9223372036854775807.
    WideInt(usize),
    /// No memory was to be had; it says nothing of the text.
    OutOfMemory,
}

impl From<OutOfMemory> for LexError {
    ghost use Rattle.pie_lexer.specs.declared.error.LexError.TheVariants.{OutOfMemory};

    ghost from_gives = { λ _ e. e ≡ OutOfMemory };

    fn from(_: OutOfMemory) -> Self {
        LexError::OutOfMemory
    }
}

impl From<AllocError> for LexError {
    ghost use Rattle.pie_lexer.specs.declared.error.LexError.TheVariants.{OutOfMemory};

    ghost from_gives = { λ _ e. e ≡ OutOfMemory };

    fn from(_: AllocError) -> Self {
        LexError::OutOfMemory
    }
}

impl<T: Drop> From<AllocFailed<T>> for LexError {
    ghost use Rattle.pie_lexer.specs.declared.error.LexError.TheVariants.{OutOfMemory};

    ghost from_gives = { λ _ e. e ≡ OutOfMemory };

    fn from(_: AllocFailed<T>) -> Self {
        LexError::OutOfMemory
    }
}
