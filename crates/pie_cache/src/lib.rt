//! The record cache: what tasks gave in earlier builds, kept to be offered again, and the text of its files.
#![tactic(auto)]

mod cache;
mod cache_fault;
mod decoding;
mod drafting;
mod frame;
mod keeping;
mod opening;
mod places;
mod reading;
mod stored;
mod writer;

pub use cache::Cache;
pub use cache_fault::CacheFault;
pub use decoding::decode_entries;
pub use places::cache_path;
pub use writer::encode_entries;
