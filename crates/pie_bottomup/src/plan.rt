//! What a build is of, from its beginning to its end.

use pie_base::Text;
use pie_code::Checked;
use pie_types::Typed;
use pie_value::Task;

/// The pipeline, the roots, and what is known of the functions of the earlier build. It never changes.
#[derive(Drop)]
pub struct Plan<'a> {
    pub(crate) typed: &'a Typed,
    pub(crate) code: &'a [Checked],
    /// The digests of the pipeline's functions.
    pub(crate) digests: &'a [(Text, [u8; 32])],
    pub(crate) roots: Vec<Task>,
    /// Of each task of the earlier build: its function has the digest that the store kept.
    pub(crate) same: Vec<bool>,
}
