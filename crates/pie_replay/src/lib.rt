//! Scripts, step by step: files that are put and removed, names, and builds by what changed.
#![tactic(auto)]

mod playing;
mod step;

pub use playing::replay;
