//! What the digest of a function tells.
#![tactic(auto)]

mod laws;

pub use laws::digests_tell_functions;
