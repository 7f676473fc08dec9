//! Tests of `pie_report`: texts of reports.
#![tactic(auto)]

#[cfg(test)]
mod tests;
