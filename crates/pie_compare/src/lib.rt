//! Whether the old record of a task stands.
#![tactic(auto)]

mod calls;
mod lists;
mod outs;
mod present;
mod standing;
mod touched;

pub use present::Present;
pub use standing::stands;
pub use touched::is_touched;
