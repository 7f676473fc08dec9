//! What is kept of a file that was scanned.

use pie_base::Path;

/// What is kept of a file that was scanned. Rule: docs/FORMATS.md, "The manifest".
#[derive(Drop)]
pub struct Entry {
    pub path: Path,
    /// The mark that the files give the file; 0 under `out/`.
    pub mark: u64,
    /// The SHA-256 of its bytes.
    pub hash: [u8; 32],
}
