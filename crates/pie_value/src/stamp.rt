//! Stamps: what is kept of an observation, to tell later whether it would be the same.
ghost use Rattle.std.specs.Prelude.{◌≡◌, IfOk};

use crate::Value;
use pie_base::OutOfMemory;

/// What is kept of an observation. Rule: docs/BUILDING.md, "Stamps".
#[derive(Drop)]
pub enum Stamp {
    /// No file was there.
    Absent,
    /// A file was there.
    Present,
    /// The SHA-256 of what was seen.
    Hash([u8; 32]),
    /// The mark of the file that was there.
    Mark(u64),
    /// The output of the required task.
    Whole(Value),
    /// The required task was done.
    Done,
}

impl Stamp {
    /// An equal stamp, which shares the contents.
    pub fn copy(&self) -> Result<Stamp, OutOfMemory>
        ensures { IfOk result (λ copy. copy ≡ self.now) }
    {
        match self {
            Stamp::Absent => Ok(Stamp::Absent),
            Stamp::Present => Ok(Stamp::Present),
            Stamp::Hash(hash) => Ok(Stamp::Hash(*hash)),
            Stamp::Mark(mark) => Ok(Stamp::Mark(*mark)),
            Stamp::Whole(value) => Ok(Stamp::Whole(value.copy()?)),
            Stamp::Done => Ok(Stamp::Done),
        }
    }
}
