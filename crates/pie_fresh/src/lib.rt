//! A clean build: the roots are evaluated from nothing, by machines that are suspended while a required task runs.
#![tactic(auto)]

mod build;
mod builder;
mod enter;
mod finish;
mod ledger;
mod looking;
mod observing;
mod requiring;
mod results;
mod turn;
mod writes;

pub use build::fresh;
