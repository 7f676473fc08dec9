//! What a build begins from.

use pie_base::Path;
use pie_store::{Cause, StoreImage};

/// What a build begins from.
#[derive(Drop)]
pub enum Start {
    /// It starts afresh, for this cause.
    Afresh(Cause),
    /// It begins from what the build before left.
    From(Box<Base>),
}

/// What the build before left.
#[derive(Drop)]
pub struct Base {
    /// What the store says.
    pub image: StoreImage,
    /// The pending names; none where there is no file of them.
    pub names: Vec<Path>,
    pub own: OwnFiles,
}

/// The bytes of the builder's own files.
#[derive(Drop)]
pub struct OwnFiles {
    /// Those of `.pie/store`.
    pub store: Vec<u8>,
    /// Those of `.pie/pending`, where it is there.
    pub pending: Option<Vec<u8>>,
}
