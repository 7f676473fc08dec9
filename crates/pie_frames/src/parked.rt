//! Tasks that were taken and run, or wait for one that they require.

use pie_graph::TaskNo;
use pie_running::{Caller, RunningTask};

/// A task that runs, and where its requires begin in its row.
#[derive(Drop)]
pub struct Running<'a> {
    pub task: RunningTask<'a>,
    pub from: usize,
}

/// A task that waits for one that it requires.
#[derive(Drop)]
pub struct Parked<'a> {
    pub caller: Caller<'a>,
    /// Where its requires begin in its row.
    pub from: usize,
    /// The number of the required task.
    pub callee: TaskNo,
}
