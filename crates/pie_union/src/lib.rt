//! Rows of tasks that grow by single requires.
#![tactic(auto)]

mod ascending;
mod callers;
mod index;
mod rows;
mod writers;

pub use rows::UnionRows;
