//! The outside of a build: files, an input and an output, as traits with their meanings, and in memory.
#![tactic(auto)]

mod crashed;
mod failures;
mod files;
mod held;
mod mem_files;
mod mem_streams;
mod pick;
mod streams;
mod sure_files;

pub use files::{Call, Files, FilesError, Found, Within};
pub use mem_files::MemFiles;
pub use mem_streams::{MemSink, MemSource};
pub use pick::Pick;
pub use streams::{Sink, SinkError, Source, SourceError};
pub use sure_files::{Logged, SureFiles};
