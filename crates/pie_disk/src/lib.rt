//! The real outside: the files of a directory, standard input and standard output.
#![tactic(auto)]

mod contents;
mod dir_files;
mod disk;
mod listing;
mod listings;
mod lock;
mod making;
mod removing;
mod seen;
mod std_streams;
mod syncing;
mod told;
mod writing;

pub use dir_files::DirFiles;
pub use std_streams::{StdSink, StdSource};
pub use told::explain;
