//! What `pie-inspect` answers. It changes no file.
#![tactic(auto)]

mod checking;
mod help;
mod looking;
mod reasons;
mod request;
mod top;

pub use top::run;
