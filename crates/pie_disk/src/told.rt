//! Faults told on standard error, where the environment asks for it.

use std::env::{Env, FillError};
use std::io::{self, ErrorKind, Write};

// The variable of the environment that asks for it, where it isn't empty.
const VARIABLE: &str = "PIE_EXPLAIN";

/// Tells a line on standard error, where the environment has `PIE_EXPLAIN` and it isn't empty. It
/// needs no memory.
pub fn explain(rt: HostRuntime, line: &str) {
    if is_wanted(rt) {
        let _told = tell(rt, line);
    }
}

/// Tells that the system refused a call at a place, in one line.
pub(crate) fn explain_refusal(rt: HostRuntime, call: &str, place: &str, error: &io::Error) {
    let kind = error.kind();
    let line = match kind {
        ErrorKind::Uncategorized => format!(in rt.alloc(); "{call} {place}: {error}"),
        _ => format!(in rt.alloc(); "{call} {place}: {kind}"),
    };
    if let Ok(line) = line {
        explain(rt, line.as_str());
    }
}

/// Tells why a call at a place was given up, in one line.
pub(crate) fn explain_reason(rt: HostRuntime, call: &str, place: &str, reason: &str) {
    if let Ok(line) = format!(in rt.alloc(); "{call} {place}: {reason}") {
        explain(rt, line.as_str());
    }
}

fn is_wanted(rt: HostRuntime) -> bool {
    match rt.var(VARIABLE, &mut [0u8; 1]) {
        Ok(len) => len > 0,
        Err(FillError::TooLong) => true,
        Err(FillError::NotPresent) => false,
    }
}

// In one piece, where there is memory for it, so that lines of two processes stay apart.
fn tell(rt: HostRuntime, line: &str) -> io::Result<()> {
    if let Ok(whole) = format!(in rt.alloc(); "pie: {line}\n") {
        return rt.stderr().write_all(whole.as_bytes());
    }
    rt.stderr().write_all(b"pie: ")?;
    rt.stderr().write_all(line.as_bytes())?;
    rt.stderr().write_all(b"\n")
}
