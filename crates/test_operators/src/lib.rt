//! Tests of `pie_operators`: operators, effects and what answers give.
#![tactic(auto)]

#[cfg(test)]
mod growing_tests;
#[cfg(test)]
mod taking_tests;
#[cfg(test)]
mod tests;
