//! What became of a build.

use pie_base::Path;
use pie_store::Cause;
use pie_value::{Task, Value, Verdict};

/// What became of a build. Rule: docs/BUILDING.md, "What is printed".
#[derive(Drop)]
pub struct Report {
    pub verdict: Verdict,
    /// Why it started afresh, where it did.
    pub fresh: Option<Cause>,
    /// The tasks that were run, in the order of their starts.
    pub ran: Vec<Task>,
    /// The files that were written, in path order.
    pub wrote: Vec<Path>,
    /// The files that were removed, in path order.
    pub removed: Vec<Path>,
    /// How many tasks the roots reach.
    pub live: u32,
    /// The roots in order, each with what it gave.
    pub outputs: Vec<(Task, Value)>,
}
