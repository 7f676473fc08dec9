//! What a task observed.
ghost use Rattle.std.specs.Prelude.{◌≡◌, IfOk};

use pie_base::{OutOfMemory, Path};
use pie_value::{Stamp, Task};

/// How a task observed. Rule: docs/FORMATS.md, "Records".
#[derive(Clone, Copy, Debug, PartialEq, Eq)]
pub enum DepKind {
    /// Whether a file is there.
    Exists,
    /// The contents of a file, told apart by their SHA-256.
    ReadHash,
    /// The contents of a file, told apart by its mark.
    ReadMark,
    /// The SHA-256 of a file.
    Digest,
    /// The entries of a directory.
    List,
    /// The output of a task.
    Require,
    /// The output of a task, told apart by its SHA-256.
    RequireHash,
    /// That a task is done.
    Run,
}

/// What was observed.
#[derive(Drop)]
pub enum DepOn {
    /// A file or a directory.
    File(Path),
    /// A required task.
    Called(Task),
}

impl DepOn {
    /// An equal one, which shares the contents.
    pub fn copy(&self) -> Result<DepOn, OutOfMemory>
        ensures { IfOk result (λ copy. copy ≡ self.now) }
    {
        match self {
            DepOn::File(path) => Ok(DepOn::File(path.copy()?)),
            DepOn::Called(task) => Ok(DepOn::Called(task.copy()?)),
        }
    }
}

/// An observation: how, of what, and what is kept of the answer.
#[derive(Drop)]
pub struct Dep {
    pub kind: DepKind,
    pub what: DepOn,
    pub stamp: Stamp,
}

impl Dep {
    /// An equal observation, which shares the contents.
    pub fn copy(&self) -> Result<Dep, OutOfMemory>
        ensures { IfOk result (λ copy. copy ≡ self.now) }
    {
        let what = self.what.copy()?;
        let stamp = self.stamp.copy()?;
        Ok(Dep {
            kind: self.kind,
            what,
            stamp,
        })
    }
}
