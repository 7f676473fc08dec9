//! What a running task asks for, and what it is answered.
use crate::{Blob, Items, Task, Value};
use pie_base::{FaultKind, Path};

/// How a file is observed.
#[derive(Clone, Copy, Debug, PartialEq, Eq)]
pub enum By {
    /// By the hash of its bytes.
    Hash,
    /// By its mark.
    Mark,
    /// By the hash of its bytes, which become a value of kind bytes.
    Raw,
}

/// How a required task is observed.
#[derive(Clone, Copy, Debug, PartialEq, Eq)]
pub enum How {
    /// By its whole output.
    Whole,
    /// By the hash of its output.
    Hashed,
    /// By its having been done; the output isn't looked at.
    Ran,
}

/// The next step of a running task that concerns the outside. Rule: docs/LANGUAGE.md, "Effects".
#[derive(Drop)]
pub enum Event {
    /// Whether a file is there.
    Exists(Path),
    /// The bytes of a file.
    Read(Path, By),
    /// The SHA-256 of a file.
    Digest(Path),
    /// What lies in a directory.
    List(Path),
    /// These bytes are to be written there.
    Write(Path, Blob),
    /// The output of a task.
    Require(Task, How),
    /// The task has ended with this output.
    Done(Value),
    /// The task has failed.
    Fail(FaultKind),
}

/// What an event is answered.
#[derive(Drop)]
pub enum Answer {
    /// To `Exists`.
    Flag(bool),
    /// To `Read`; none where no file is there.
    Bytes(Option<Blob>),
    /// To `Digest`; none where no file is there.
    Digest(Option<[u8; 32]>),
    /// To `List`: paths in order.
    Entries(Items),
    /// To `Write`.
    Wrote,
    /// To `Require` by whole output or by its hash.
    Output(Value),
    /// To `Require` of a task that only has to be done.
    Ran,
    /// To `Exists`, `Read` and `Digest` of a path that two of the required tasks wrote.
    Clash,
}
