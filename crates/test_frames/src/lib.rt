//! Tests of `pie_frames`: small builds by hand.
#![tactic(auto)]

#[cfg(test)]
mod starts;
#[cfg(test)]
mod tests;
