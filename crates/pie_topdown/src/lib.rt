//! A build that needs no list of changes: from the roots on down, each record is held against what is there now.
#![tactic(auto)]

mod begin;
mod builder;
mod checking;
mod cycle;
mod ending;
mod entering;
mod events;
mod hand;
mod ledger;
mod offering;
mod plan;
mod requiring;
mod roots;
mod settling;
mod sight;
mod standing;
mod writes;

pub use settling::topdown;
