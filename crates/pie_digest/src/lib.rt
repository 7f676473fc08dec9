//! The digests of functions, by which a build knows that a function is as before.
#![tactic(auto)]

mod digests;

pub use digests::func_digests;
