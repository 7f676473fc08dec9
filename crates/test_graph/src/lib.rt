//! Tests of the rows of a graph and of walks over them.
#![tactic(auto)]

#[cfg(test)]
mod collect_tests;
#[cfg(test)]
mod drawn;
#[cfg(test)]
mod entered_tests;
#[cfg(test)]
mod order_tests;
#[cfg(test)]
mod queue_tests;
#[cfg(test)]
mod reach_tests;
#[cfg(test)]
mod rows;
#[cfg(test)]
mod rows_tests;
#[cfg(test)]
mod stage_tests;
#[cfg(test)]
mod union_tests;
#[cfg(test)]
mod view_tests;
