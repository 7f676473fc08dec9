//! Bytecode: the instructions, what code means, and the test that lets code run.
#![tactic(auto)]

mod checked;
mod code;
mod error;
mod height_search;
mod heights;
mod instr;
mod jumps;
mod lows;
mod slots;
mod table;
mod verifying;

pub use checked::Checked;
pub use code::Code;
pub use error::CodeError;
pub use instr::{Constant, Each, Instr, Required};
pub use verifying::{checks, verify};
