//! What a task asks of the outside.
ghost use Rattle.std.specs.Prelude.{◌≡◌, IfOk};
ghost use Rattle.pie_operators.specs.Effects.{event_of};

use pie_base::{OutOfMemory, Path};
use pie_value::{Blob, By, Event, How, Task};

/// What is observed of a path.
#[derive(Clone, Copy, Debug, PartialEq, Eq)]
pub enum Observation {
    /// Whether a file is there.
    Exists,
    /// The bytes of the file.
    Read(By),
    /// The SHA-256 of the file.
    Digest,
    /// What lies in the directory.
    List,
}

/// A question to the outside. Rule: docs/LANGUAGE.md, "Effects".
#[derive(Drop)]
pub enum Question {
    Observe(Observation, Path),
    Write(Path, Blob),
    Require(Task, How),
}

impl Question {
    /// The event that puts the question. Bytes that become a value are observed by their hash.
    pub fn into_event(self) -> Event
        ensures { result ≡ event_of self }
    {
        match self {
            Question::Observe(Observation::Exists, path) => Event::Exists(path),
            Question::Observe(Observation::Read(By::Mark), path) => Event::Read(path, By::Mark),
            Question::Observe(Observation::Read(_), path) => Event::Read(path, By::Hash),
            Question::Observe(Observation::Digest, path) => Event::Digest(path),
            Question::Observe(Observation::List, path) => Event::List(path),
            Question::Write(path, bytes) => Event::Write(path, bytes),
            Question::Require(task, how) => Event::Require(task, how),
        }
    }
}
