//! What a stamp is taken of.

use pie_files::Found;
use pie_value::{Items, Value};

/// What a task saw when it asked.
#[derive(Drop)]
pub enum Observed {
    /// The file at a path, or `None` where there was none.
    File(Option<Found>),
    /// The entries of a directory, as paths.
    Entries(Items),
    /// The output of a required task.
    Output(Value),
}
