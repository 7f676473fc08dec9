//! What a builder does in the words of the language is what the tasks of the model do.
#![tactic(auto)]

mod builds;
mod events;
mod fits;
mod looks;
mod names;
mod requiring;
mod tables;
mod views;
mod visible;

pub use builds::{done_builds_are_clean, roots_are_done, stopped_builds_are_clean};
pub use events::{codes_are_found, events_are_the_models};
pub use fits::{answers_fit, tasks_are_known};
pub use looks::{listings_are_the_models, looks_are_the_models};
pub use names::{names_are_bytes, needs_are_called};
pub use requiring::requires_are_the_models;
pub use tables::{contents_are_by_number, records_are_by_number};
pub use views::{graphs_go_on, views_are_the_models};
pub use visible::{kinds_are_the_models, what_is_visible};
