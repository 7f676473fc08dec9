//! What a build makes of its tables: why it is refused, or the records, files and outputs of its live tasks.
#![tactic(auto)]

mod ascending;
mod failures;
mod files;
mod making;
mod outputs;
mod places;
mod records;

pub use making::results;
