//! The arguments of a command line.
#![tactic(auto)]

mod command;
mod demo;
mod grammar;
mod words;

pub use command::Command;
pub use words::{USAGE, WordsFault, read_words};
