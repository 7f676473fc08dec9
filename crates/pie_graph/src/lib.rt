//! Numbered rows of a graph of tasks: what each task requires, reads, lists and writes.
#![tactic(auto)]

mod edges;
mod index;
mod indexed;
mod marks;
mod plain;
mod rows;
mod uses;

pub use edges::{Edges, TaskNo};
pub use indexed::IndexedRows;
pub use marks::marked;
pub use plain::PlainRows;
pub use rows::TaskRows;
pub use uses::Use;
