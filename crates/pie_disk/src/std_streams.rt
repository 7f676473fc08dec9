//! Standard input and standard output: the trusted edge.
ghost use Rattle.std.specs.Prelude.{◌≡◌};

use crate::told::{explain_reason, explain_refusal};
use pie_files::{Sink, SinkError, Source, SourceError};
use std::io::{Read, Write};

/// Standard input. It tells no contents.
#[derive(Drop)]
pub struct StdSource {
    rt: HostRuntime,
    faults: u64,
}

impl StdSource {
    pub fn new(rt: HostRuntime) -> StdSource {
        StdSource { rt, faults: 0 }
    }
}

impl Source for StdSource {
    ghost use Rattle.std.specs.Prelude.{None};

    ghost left = { λ _. None };

    ghost faults = { λ s. s.faults };

    ghost infallible = { λ _. ⊥ };

    fn take(&mut self, into: &mut [u8]) -> Result<usize, SourceError> {
        match self.rt.stdin().read(into) {
            Ok(n) => Ok(n),
            Err(e) => {
                explain_refusal(self.rt, "read", "standard input", &e);
                self.faults = self.faults.saturating_add(1);
                Err(SourceError::Failed)
            }
        }
    }
}

/// Standard output. It tells no contents.
#[derive(Drop)]
pub struct StdSink {
    rt: HostRuntime,
    faults: u64,
}

impl StdSink {
    pub fn new(rt: HostRuntime) -> StdSink {
        StdSink { rt, faults: 0 }
    }
}

impl Sink for StdSink {
    ghost use Rattle.std.specs.Prelude.{None};

    ghost held = { λ _. None };

    ghost faults = { λ s. s.faults };

    ghost infallible = { λ _. ⊥ };

    fn put(&mut self, piece: &[u8]) -> Result<usize, SinkError> {
        match self.rt.stdout().write(piece) {
            Ok(n) if n > 0 || piece.is_empty() => return Ok(n),
            Ok(_) => explain_reason(self.rt, "write", "standard output", "it takes nothing"),
            Err(e) => explain_refusal(self.rt, "write", "standard output", &e),
        }
        self.faults = self.faults.saturating_add(1);
        Err(SinkError::Failed)
    }
}
