//! What tasks of a pipeline never do, and what their listings tell.
#![tactic(auto)]

mod laws;

pub use laws::{listings_differ, tasks_have_manners, tasks_write_once};
