//! The machine that runs code, one effect at a time.
#![tactic(auto)]

mod asking;
mod calling;
mod ending;
mod frame;
mod jumping;
mod machine;
mod moving;
mod operating;
mod paths;
mod running;
mod runs;
mod slots;
mod stack;
mod stepping;

pub use frame::Frame;
pub use machine::{Machine, MachineState};
pub use paths::PathSet;
pub use runs::Runs;
pub use slots::Slots;
pub use stack::Stack;
