//! Tests of `pie_scan` and `pie_listing`: manifests, scans, and what two scans tell apart.
#![tactic(auto)]

#[cfg(test)]
mod listing_tests;
#[cfg(test)]
mod manifest_tests;
#[cfg(test)]
mod scan_tests;
