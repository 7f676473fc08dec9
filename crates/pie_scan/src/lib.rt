//! The manifest of a directory, the scan that makes its entries, and the paths that two scans tell apart.
#![tactic(auto)]

mod candidates;
mod decoding;
mod entry;
mod frame;
mod manifest;
mod manifest_fault;
mod merge;
mod order;
mod reading;
mod scanning;
mod writer;

pub use decoding::read_manifest;
pub use entry::Entry;
pub use manifest::{Entries, Manifest, Tops};
pub use manifest_fault::ManifestFault;
pub use merge::changed;
pub use order::in_path_order;
pub use scanning::scan;
pub use writer::write_manifest;
