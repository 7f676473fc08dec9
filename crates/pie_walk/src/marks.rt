//! How far a task has come in a walk.

/// How far a task has come in a walk.
#[derive(Clone, Copy, Debug, PartialEq, Eq)]
pub enum Mark {
    /// It wasn't met.
    New,
    /// It stands on the stack, and what it requires is visited.
    Visited,
    /// It was taken: it is compared or runs, or waits for a task that it requires.
    Runs,
    /// All that it requires is settled, and so is the task.
    Settled,
}
