//! The tasks of an earlier build.

use pie_tables::Tables;
use pie_union::UnionRows;
use pie_value::Task;

/// The tasks of an earlier build, numbered in the order of its store.
#[derive(Drop)]
pub struct Old {
    pub tables: Tables,
    /// What each task required and wrote.
    pub rows: UnionRows,
    /// Which tasks observed a file under `out/`.
    pub looks_out: Vec<bool>,
}

/// The records of a store by numbers.
#[derive(Drop)]
pub enum Loaded {
    Whole(Old),
    /// There are more tasks than a build may have. This is the first past the limit.
    Many(Task),
}
