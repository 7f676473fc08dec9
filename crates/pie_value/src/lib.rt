//! Values, types, tasks, stamps and verdicts, and the canonical bytes of values and tasks.
#![tactic(auto)]

mod blob;
mod builtin;
mod decoding;
mod event;
mod limits;
mod order;
mod reader;
mod same;
mod shown;
mod stamp;
mod task;
mod ty;
mod typing;
mod value;
mod value_fault;
mod verdict;
mod writer;

pub use blob::Blob;
pub use builtin::Builtin;
pub use decoding::{decode, decode_front, decode_task_front};
pub use event::{Answer, By, Event, How};
pub use shown::{show, show_task};
pub use stamp::Stamp;
pub use task::Task;
pub use ty::{Part, Parts, Ty};
pub use value::{Items, Value, depth, size};
pub use value_fault::ValueFault;
pub use verdict::{Fault, Refusal, Tasks, Verdict};
pub use writer::{encode, encode_task, put_task, put_value};
