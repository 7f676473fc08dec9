//! Why a build starts afresh.

use crate::StoreFault;
use pie_value::{Task, Tasks};

/// Why a build starts afresh. Rule: docs/BUILDING.md, "Starting afresh".
#[derive(Drop)]
pub enum Cause {
    /// A build before this one was interrupted.
    Interrupted,
    /// There is no store.
    NoStore,
    /// The store can't be read.
    Damaged(StoreFault),
    /// The pending names can't be read.
    BadPending,
    /// Old and new requires together close this cycle.
    UnionCycle(Tasks),
    /// Old and entered tasks together are too many: the number of old tasks, counted up to 50,000, of entered
    /// tasks that aren't old, and the task that wasn't entered.
    UnionMany(u32, u32, Task),
}
