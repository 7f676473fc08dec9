//! The steps of a script.

use pie_base::Path;

/// A step of a script. Rule: docs/FORMATS.md, "Scripts".
#[derive(Drop)]
pub enum Step {
    /// Writes a file with these bytes.
    Put(Path, Vec<u8>),
    /// Removes a file.
    Del(Path),
    /// Names a path that changed.
    Change(Path),
    /// Builds with the names since the build before.
    Build,
}
