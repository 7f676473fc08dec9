//! Tests of what is read of the outside: paths and texts, the words of a command line, change lists and scripts.
#![tactic(auto)]

#[cfg(test)]
mod base_tests;
#[cfg(test)]
mod input_tests;
#[cfg(test)]
mod script_tests;
#[cfg(test)]
mod words_tests;
