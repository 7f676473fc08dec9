//! Why a build would run tasks.

use pie_base::Path;
use pie_record::DepKind;
use pie_store::Cause;
use pie_value::Task;

/// How the function of a task isn't as the store has it.
#[derive(Clone, Copy, Debug, PartialEq, Eq)]
pub enum FunctionNow {
    /// It has another digest.
    Changed,
    /// The pipeline has no function of this name any more.
    Gone,
    /// The store is of version 1 and of another pipeline: it doesn't say what the function was.
    Unknown,
}

/// Why a task would run.
#[derive(Drop)]
pub enum Reason {
    /// Its function isn't as it was.
    Function(FunctionNow),
    /// What it observed of this file in this way isn't as it was.
    Observed(DepKind, Path),
    /// The entries of a directory that it listed aren't as they were; the first named path below it, and how many more there are.
    Listed(Path, Option<Path>, usize),
    /// A file that it provided isn't there as it was written.
    Wrote(Path),
}

/// A task that a build takes up first.
#[derive(Drop)]
pub struct Due {
    pub task: Task,
    /// In the order of its record: its function, its observations, its writes.
    pub reasons: Vec<Reason>,
}

/// What a build would do with the tasks of the store, each in the order of the store.
#[derive(Drop)]
pub struct Whys {
    /// Those that it takes up first.
    pub due: Vec<Due>,
    /// Those that may follow: by their records they require one of the first, directly or through others.
    pub may: Vec<Task>,
    /// How many others there are, which no such build runs.
    pub kept: u32,
}

/// What a build would do.
#[derive(Drop)]
pub enum Why {
    /// It starts afresh, for this cause, and runs every task.
    Afresh(Cause),
    /// It goes on from the store.
    From(Box<Whys>),
}
