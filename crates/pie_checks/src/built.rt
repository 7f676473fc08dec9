//! The result of a build.

use pie_base::Path;
use pie_record::TaskRecord;
use pie_value::{Task, Value, Verdict};

/// The result of a build. All lists are empty where it is refused.
#[derive(Drop)]
pub struct Built {
    pub verdict: Verdict,
    /// The records of the live tasks in store order.
    pub rows: Vec<TaskRecord>,
    /// The staged contents of the live tasks in path order.
    pub files: Vec<(Path, Vec<u8>)>,
    /// The output of each root, in the order of the roots.
    pub outputs: Vec<(Task, Value)>,
}
