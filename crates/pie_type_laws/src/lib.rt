//! A typed function is never stuck.
#![tactic(auto)]
