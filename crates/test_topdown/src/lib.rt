//! Tests of `pie_topdown`, `pie_topdown_build` and `pie_auto`: builds that are given no list of changes, beside clean builds of copies.
#![tactic(auto)]

#[cfg(test)]
mod auto_tests;
#[cfg(test)]
mod cached_tests;
#[cfg(test)]
mod cases;
#[cfg(test)]
mod offer_tests;
#[cfg(test)]
mod offers;
#[cfg(test)]
mod tests;
