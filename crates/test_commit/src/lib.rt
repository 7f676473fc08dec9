//! Tests of stamps, of names held against the files, of what a build by what changed writes and removes, and of the commit.
#![tactic(auto)]

#[cfg(test)]
mod commit_tests;
#[cfg(test)]
mod diff_tests;
#[cfg(test)]
mod named_tests;
#[cfg(test)]
mod stamp_tests;
#[cfg(test)]
mod texts;
