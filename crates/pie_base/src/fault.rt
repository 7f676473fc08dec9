//! The ways in which a task can fail.
ghost use Rattle.std.specs.Prelude.{◌≡◌, IfOk};

use crate::{OutOfMemory, Text};

/// A fault of a task. Rule: docs/LANGUAGE.md, "Faults".
#[derive(Drop)]
pub enum FaultKind {
    /// `read` met bytes that aren't UTF-8.
    NotText,
    /// `path` or `join` was given what makes no path.
    BadPath,
    /// `write` to a path that isn't under `out/`.
    BadWrite,
    /// `write` to a path that this task has written.
    WroteTwice,
    /// `write` to a path that this task has observed.
    ReadThenWrite,
    /// An observed path was written by two distinct tasks required so far.
    Clash,
    /// One tick too many.
    Budget,
    /// A value or a required task with too many canonical bytes, or a value that nests too deep.
    Big,
    /// A result that is no 64-bit signed integer.
    Overflow,
    /// A divisor 0.
    Zero,
    /// `get` of null.
    Null,
    /// `fail`, with its text.
    Said(Text),
    /// An index or a separator outside the range of a built-in.
    Range,
    /// `list` of a path that is no source.
    BadList,
    /// A task whose function isn't in the pipeline, or whose arguments don't have its types.
    Unknown,
}

impl FaultKind {
    /// An equal fault.
    pub fn copy(&self) -> Result<FaultKind, OutOfMemory>
        ensures { IfOk result (λ copy. copy ≡ self.now) }
    {
        match self {
            FaultKind::NotText => Ok(FaultKind::NotText),
            FaultKind::BadPath => Ok(FaultKind::BadPath),
            FaultKind::BadWrite => Ok(FaultKind::BadWrite),
            FaultKind::WroteTwice => Ok(FaultKind::WroteTwice),
            FaultKind::ReadThenWrite => Ok(FaultKind::ReadThenWrite),
            FaultKind::Clash => Ok(FaultKind::Clash),
            FaultKind::Budget => Ok(FaultKind::Budget),
            FaultKind::Big => Ok(FaultKind::Big),
            FaultKind::Overflow => Ok(FaultKind::Overflow),
            FaultKind::Zero => Ok(FaultKind::Zero),
            FaultKind::Null => Ok(FaultKind::Null),
            FaultKind::Said(text) => Ok(FaultKind::Said(text.copy()?)),
            FaultKind::Range => Ok(FaultKind::Range),
            FaultKind::BadList => Ok(FaultKind::BadList),
            FaultKind::Unknown => Ok(FaultKind::Unknown),
        }
    }
}
