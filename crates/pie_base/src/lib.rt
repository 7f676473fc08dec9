//! Paths, texts, statuses, faults and limits: what every other crate of PIE stands on.
#![tactic(auto)]

mod fault;
mod limits;
mod memory;
mod path;
mod status;
mod text;

pub use fault::FaultKind;
pub use limits::{
    MAX_BRACKETS, MAX_CACHE_BYTES, MAX_DEPTH, MAX_INPUT_BYTES, MAX_NAMES, MAX_PATH_BYTES,
    MAX_PENDING_BYTES, MAX_PIPELINE_BYTES, MAX_TASKS, MAX_TICKS, MAX_VALUE_BYTES,
};
pub use memory::OutOfMemory;
pub use path::{Path, PathError};
pub use status::Status;
pub use text::Text;
