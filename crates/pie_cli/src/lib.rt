//! The program: words in, a report and a status out.
#![tactic(auto)]

mod cached;
mod check;
mod clean;
mod demo;
mod finding;
mod incremental;
mod listed;
mod print;
mod scan;
mod script;
mod told;
mod top;

pub use top::run;
