//! An input that is read to its end.
ghost use Rattle.std.specs.Prelude.{◌≡◌, ◌≤◌, ◌<◌, ◌++◌, true, length, take, List, ℕ, IfSome, IfOk, OnOk};
ghost use Rattle.pie_files.specs.Streams.{Counted, StaysInfallible};
ghost use Rattle.pie_input.specs.inner.Reading.{HasRead, Gathers};

use pie_base::{MAX_INPUT_BYTES, OutOfMemory};
use pie_files::{Source, SourceError};
use std::alloc::{AllocError, AllocFailed, Global};

/// What an input has.
#[derive(Drop)]
pub enum Input {
    /// All its bytes.
    Whole(Vec<u8>),
    /// It has more than 16,777,216 bytes, and isn't read to its end.
    TooLong,
}

/// Why an input wasn't read.
#[derive(Clone, Copy, Debug, PartialEq, Eq)]
pub enum InputError {
    /// The input failed. It comes only where its count of faults rose in the call.
    Failed,
    OutOfMemory,
}

impl From<SourceError> for InputError {
    ghost use Rattle.pie_input.specs.declared.input.InputError.TheVariants.{Failed};

    ghost from_gives = { λ _ e. e ≡ Failed };

    fn from(_: SourceError) -> Self {
        InputError::Failed
    }
}

impl From<OutOfMemory> for InputError {
    ghost use Rattle.pie_input.specs.declared.input.InputError.TheVariants.{OutOfMemory};

    ghost from_gives = { λ _ e. e ≡ OutOfMemory };

    fn from(_: OutOfMemory) -> Self {
        InputError::OutOfMemory
    }
}

impl From<AllocError> for InputError {
    ghost use Rattle.pie_input.specs.declared.input.InputError.TheVariants.{OutOfMemory};

    ghost from_gives = { λ _ e. e ≡ OutOfMemory };

    fn from(_: AllocError) -> Self {
        InputError::OutOfMemory
    }
}

impl<T: Drop> From<AllocFailed<T>> for InputError {
    ghost use Rattle.pie_input.specs.declared.input.InputError.TheVariants.{OutOfMemory};

    ghost from_gives = { λ _ e. e ≡ OutOfMemory };

    fn from(_: AllocFailed<T>) -> Self {
        InputError::OutOfMemory
    }
}

/// The bytes of an input. Rule: docs/BUILDING.md, "Statuses".
pub fn read_input<I: Source>(alloc: Global, input: &mut I) -> Result<Input, InputError>
    ensures read { IfSome (I.left input.old) (λ bytes. IfOk result (HasRead bytes (I.left input.new))) }
    ensures counted { Counted I.faults InputError.Failed input.old input.new result }
    ensures infallible { StaysInfallible I.infallible I.faults input.old input.new }
{
    let mut piece = vec![in alloc; 0u8; 65_536]?;
    let mut bytes = Vec::new(alloc);
    while bytes.len() <= MAX_INPUT_BYTES {
        if !gather(input, piece.as_mut_slice(), &mut bytes)? {
            return Ok(Input::Whole(bytes));
        }
    }
    Ok(Input::TooLong)
}

// Takes a piece of the input, and answers whether there was one.
fn gather<I: Source>(
    input: &mut I,
    piece: &mut [u8],
    bytes: &mut Vec<u8>,
) -> Result<bool, InputError>
    requires { 0 < length piece.old }
    ensures gathers { IfSome (I.left input.old) (λ left. IfOk result (Gathers left bytes.old.items bytes.new.items (I.left input.new))) }
    ensures more { IfOk result (λ more. more ≡ true → length bytes.old.items < length bytes.new.items) }
    ensures room { length piece.new ≡ length piece.old }
    ensures counted { Counted I.faults InputError.Failed input.old input.new result }
    ensures infallible { StaysInfallible I.infallible I.faults input.old input.new }
{
    let n = input.take(piece)?;
    if n == 0 {
        return Ok(false);
    }
    bytes.extend_from_slice(&piece[..n])?;
    Ok(true)
}
