//! The words that definitions and code share: kinds of path, events, answers, outcomes.

use crate::bytes::{Bytes, Names};

/// Where a path stands.
#[derive(Clone, Copy, Debug, PartialEq, Eq)]
pub enum Kind {
    /// Below `out`, with at least two segments: a file that tasks provide.
    Out,
    /// What the builder keeps for itself, and the path `out` alone: always absent to a task.
    Kept,
    /// Every other path.
    Source,
}

/// How a path is looked at.
#[derive(Clone, Copy, Debug, PartialEq, Eq)]
pub enum Look {
    /// Whether it is there.
    Exists,
    /// Its contents, stamped by their hash.
    ByHash,
    /// Its contents, stamped by the mark of a source file, and else by their hash.
    ByMark,
    /// The hash of its contents.
    Digest,
}

/// How a task is required.
#[derive(Clone, Copy, Debug, PartialEq, Eq)]
pub enum How {
    /// Its output, stamped whole.
    Whole,
    /// Its output, stamped by the hash of its canonical bytes.
    Hashed,
    /// Its success alone.
    Ran,
}

/// What a task can fail by.
#[derive(Drop)]
pub enum FaultKind {
    /// Contents that are no text were read as one.
    NotText,
    /// A text that makes no path.
    BadPath,
    /// A write to a path that is not under `out`.
    BadWrite,
    /// A second write to one path.
    WroteTwice,
    /// A write to a path that was looked at.
    ReadThenWrite,
    /// A look at a path that two required tasks wrote.
    Clash,
    /// Too many steps.
    Budget,
    /// A value, a listing or a required task that is too big.
    Big,
    /// A number out of range.
    Overflow,
    /// A division by nothing.
    Zero,
    /// Nothing where a value is needed.
    Null,
    /// What the task itself said.
    Said(Bytes),
    /// An index out of range.
    Range,
    /// A listing of what is no source directory.
    BadList,
    /// A task that the project does not have.
    Unknown,
}

/// What a running task is answered.
#[derive(Drop)]
pub enum Answer {
    /// Whether a path is there.
    Flag(bool),
    /// The contents at a path, if it is there.
    Contents(Option<Bytes>),
    /// The hash of the contents at a path, if it is there.
    HashOf(Option<Bytes>),
    /// The entries of a directory.
    Entries(Names),
    /// A write was made.
    Wrote,
    /// The output of a required task.
    Output(Bytes),
    /// A required task succeeded.
    Succeeded,
}

/// What a task does next.
#[derive(Drop)]
pub enum Event {
    /// It ends with this value.
    Done(Bytes),
    /// It fails.
    Fail(FaultKind),
    /// It looks at a path.
    LookAt(Look, Bytes),
    /// It lists a directory.
    ListOf(Bytes),
    /// It writes contents to a path.
    Write(Bytes, Bytes),
    /// It requires a task.
    Require(How, Bytes),
}

/// What a look finds.
#[derive(Drop)]
pub enum Seen {
    /// Nothing is there.
    Nothing,
    /// Contents with a mark.
    Holds(Bytes, u64),
    /// Two distinct tasks wrote the path.
    Clashing,
}

/// How a task ended.
#[derive(Drop)]
pub enum Outcome {
    /// With this value.
    Ended(Bytes),
    /// By a fault that arose in this task.
    Failed(Bytes, FaultKind),
    /// By a cycle: from the task that is required again to the one that requires it.
    Cycled(Names),
    /// By a chain of too many tasks.
    Many,
}

/// What the last checks look for.
#[derive(Clone, Copy, Debug, PartialEq, Eq)]
pub enum Check {
    /// A path that two tasks wrote.
    Overlapping,
    /// A written path that is a directory above another one.
    Nesting,
    /// A path that one task found absent and another wrote.
    Hiding,
}

/// What a check finds: a path with two tasks, or with another path and nothing.
#[derive(Drop)]
pub struct Finding {
    /// The path.
    pub path: Bytes,
    /// The lesser task, the upper path's lower one, or the reader.
    pub first: Bytes,
    /// The other task, nothing, or the writer.
    pub second: Bytes,
}

/// The verdict on a project.
#[derive(Drop)]
pub enum Verdict {
    /// None of the refusals holds.
    Accepted,
    /// Too many tasks are entered.
    Many,
    /// A root fails by a fault, which arose in this task.
    Fault(Bytes, FaultKind),
    /// A root fails by a cycle of these tasks.
    Cycle(Names),
    /// Two live tasks wrote the path, the lesser task first.
    Overlap(Bytes, Bytes, Bytes),
    /// A provided path is a directory above another one.
    Nested(Bytes, Bytes),
    /// A live task found the path absent, and another one, which comes last, wrote it.
    Hidden(Bytes, Bytes, Bytes),
}
