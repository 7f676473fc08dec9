//! What the record of a task is compared with.

use pie_base::Path;
use pie_graph::{TaskNo, TaskRows};
use pie_named::Named;
use pie_tables::Tables;
use std::alloc::Global;

/// What the record of a task is compared with: the records of others, the rows of the graph, and what is known of the files.
pub struct Present<'a, R: TaskRows> {
    pub alloc: Global,
    pub tables: &'a Tables,
    pub rows: &'a R,
    pub named: &'a Named,
    /// The number of the task.
    pub no: TaskNo,
    /// The writes of the task itself.
    pub own: &'a [(Path, [u8; 32])],
}

impl<'a, R: TaskRows> Drop for Present<'a, R> {
    fn drop(self) {
        let Present {
            alloc: _,
            tables: _,
            rows: _,
            named: _,
            no: _,
            own: _,
        } = self;
    }
}
