//! Tests of `pie_doctor`: folders in memory, and what is found in them.
#![tactic(auto)]

#[cfg(test)]
mod mem_look;
#[cfg(test)]
mod tests;
