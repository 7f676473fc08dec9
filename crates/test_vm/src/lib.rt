//! Tests of `pie_vm`: runs of the machine.
#![tactic(auto)]

#[cfg(test)]
mod effect_tests;
#[cfg(test)]
mod loop_tests;
#[cfg(test)]
mod tests;
