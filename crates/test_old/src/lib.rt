//! Tests of tables, of what an earlier store is loaded as, and of records that may be stored together.
#![tactic(auto)]

#[cfg(test)]
mod old_tests;
#[cfg(test)]
mod storable_tests;
#[cfg(test)]
mod tables_tests;
