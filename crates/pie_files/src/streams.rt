//! An input and an output, as traits.
ghost use Rattle.std.specs.Prelude.{◌≡◌, ◌≤◌, ◌++◌, [], List, ℕ, Option, Some, IfSome, IfOk, OnErr, length, take};
ghost use Rattle.pie_files.specs.Streams.{Counted, Takes, StaysInfallible};

use pie_base::OutOfMemory;
use std::alloc::{AllocError, AllocFailed};

/// Why nothing was taken from an input.
#[derive(Clone, Copy, Debug, PartialEq, Eq)]
pub enum SourceError {
    /// The input failed. It comes only where the count of faults rose in the call.
    Failed,
}

/// Why nothing was put to an output.
#[derive(Clone, Copy, Debug, PartialEq, Eq)]
pub enum SinkError {
    /// The output failed. It comes only where the count of faults rose in the call.
    Failed,
    /// No memory for an output that keeps its bytes in memory.
    OutOfMemory,
}

impl From<OutOfMemory> for SinkError {
    ghost use Rattle.pie_files.specs.declared.streams.SinkError.TheVariants.{OutOfMemory};

    ghost from_gives = { λ _ e. e ≡ OutOfMemory };

    fn from(_: OutOfMemory) -> Self {
        SinkError::OutOfMemory
    }
}

impl From<AllocError> for SinkError {
    ghost use Rattle.pie_files.specs.declared.streams.SinkError.TheVariants.{OutOfMemory};

    ghost from_gives = { λ _ e. e ≡ OutOfMemory };

    fn from(_: AllocError) -> Self {
        SinkError::OutOfMemory
    }
}

impl<T: Drop> From<AllocFailed<T>> for SinkError {
    ghost use Rattle.pie_files.specs.declared.streams.SinkError.TheVariants.{OutOfMemory};

    ghost from_gives = { λ _ e. e ≡ OutOfMemory };

    fn from(_: AllocFailed<T>) -> Self {
        SinkError::OutOfMemory
    }
}

/// An input of bytes. A call that answers an error takes nothing.
pub trait Source {
    /// The bytes that are left, where the object tells them.
    ghost left: { Self → Option (List ℕ) };

    /// How often the input has failed. It never falls.
    ghost faults: { Self → ℕ };

    /// No call to come will fail.
    ghost infallible: { Self → Type 0 };

    /// Fills the front of the slice, and answers how many bytes it took.
    /// 0 for a slice that isn't empty is the end of the input.
    fn take(&mut self, into: &mut [u8]) -> Result<usize, SourceError>
        ensures bound { IfOk result (λ n. n ≤ length into.old) }
        ensures taken { IfSome (left self.old) (λ bytes. IfOk result (λ n. Takes bytes into.old n into.new (left self.new))) }
        ensures kept { OnErr result (left self.new ≡ left self.old) }
        ensures counted { Counted faults SourceError.Failed self.old self.new result }
        ensures infallible { StaysInfallible infallible faults self.old self.new };
}

/// An output of bytes. A call that answers an error puts nothing.
pub trait Sink {
    /// The bytes so far, where the object tells them.
    ghost held: { Self → Option (List ℕ) };

    /// How often the output has failed. It never falls.
    ghost faults: { Self → ℕ };

    /// No call to come will fail.
    ghost infallible: { Self → Type 0 };

    /// Puts bytes of the front of the piece, and answers how many: never 0 for a piece that isn't
    /// empty.
    fn put(&mut self, piece: &[u8]) -> Result<usize, SinkError>
        ensures bound { IfOk result (λ n. n ≤ length piece.now) }
        ensures some { IfOk result (λ n. n ≡ 0 → piece.now ≡ []) }
        ensures gained { IfSome (held self.old) (λ bytes. IfOk result (λ n. held self.new ≡ Some (bytes ++ take n piece.now))) }
        ensures kept { OnErr result (held self.new ≡ held self.old) }
        ensures counted { Counted faults SinkError.Failed self.old self.new result }
        ensures infallible { StaysInfallible infallible faults self.old self.new };
}
