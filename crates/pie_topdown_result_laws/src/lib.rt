//! What a build without a list makes, once its roots are settled, is what a clean build makes.
#![tactic(auto)]

mod results;
mod settled;

pub use results::results_are_clean;
pub use settled::settled_tables_are_exact;
