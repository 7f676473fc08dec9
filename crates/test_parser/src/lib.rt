//! Tests of `pie_parser`: syntax trees and refusals of texts.
#![tactic(auto)]

#[cfg(test)]
mod tests;
