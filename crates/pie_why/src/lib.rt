//! Why a build by what changed would run tasks: what it begins from, which old tasks it takes up first and for which reasons, and which may follow.
#![tactic(auto)]

mod digests;
mod due;
mod follow;
mod functions;
mod kept;
mod names;
mod object;
mod observed;
mod reason;
mod shown;
mod start;
mod task;
mod telling;
mod text;
mod unknown;
mod words;

pub use object::json;
pub use reason::{Due, FunctionNow, Reason, Why, Whys};
pub use shown::lines;
pub use start::{Left, Start, find_start};
pub use task::{OfTask, of_task};
pub use telling::tell_why;
