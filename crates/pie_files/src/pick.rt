//! Which of its images a crash of files in memory leaves.

/// What a crash takes of the calls since the last sync that succeeded.
#[derive(Clone, Copy, Debug, PartialEq, Eq)]
pub enum Pick {
    /// Every call is done.
    All,
    /// No call is done.
    Nothing,
    /// Removals are done, and each written file has the first half of its bytes.
    Torn,
}
