//! What a build is of, from its beginning to its end.
use pie_code::Checked;
use pie_tables::Tables;
use pie_types::Typed;
use std::collections::BTreeMap;

/// The pipeline, and the records of the build before. It never changes.
#[derive(Drop)]
pub(crate) struct Plan<'a> {
    pub(crate) typed: &'a Typed,
    pub(crate) code: &'a [Checked],
    /// The present digest of each function by its name.
    pub(crate) digests: BTreeMap<String, [u8; 32]>,
    /// The tasks of the build before, with their records.
    pub(crate) earlier: Tables,
    /// Of each of them: its function has the digest that the store kept.
    pub(crate) same: Vec<bool>,
}
