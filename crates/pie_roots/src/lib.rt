//! The roots of a project: the tasks that `pie.roots` names, one a line.
#![tactic(auto)]

mod fault;
mod lead;
mod lines;
mod list;
mod reader;
mod root;
mod roots_fault;

pub use list::read_roots;
pub use root::{Root, read_root};
pub use roots_fault::RootsFault;
