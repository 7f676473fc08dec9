//! What the last build kept, told to a person: its tasks, who reads or writes a file, the graph, how large the store is, and its largest records.
#![tactic(auto)]

mod concerned;
mod counted;
mod drawn;
mod largest;
mod listed;
mod object;
mod text;
mod weighed;

pub use concerned::who;
pub use counted::sizes;
pub use drawn::graph;
pub use listed::tasks;
pub use object::graph_json;
