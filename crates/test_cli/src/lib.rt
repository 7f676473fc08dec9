//! Tests of `pie_cli`: whole runs of the program in memory.
#![tactic(auto)]

#[cfg(test)]
mod build_tests;
#[cfg(test)]
mod cached_tests;
#[cfg(test)]
mod demo_tests;
#[cfg(test)]
mod input_tests;
#[cfg(test)]
mod script_tests;
#[cfg(test)]
mod tests;
