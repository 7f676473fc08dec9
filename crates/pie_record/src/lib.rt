//! Records of tasks: what a run observed, wrote and gave, and its canonical bytes.
#![tactic(auto)]

mod decoding;
mod dep;
mod expected;
mod lists;
mod names;
mod reader;
mod reading;
mod record_fault;
mod records;
mod tag;
mod task_record;
mod writer;

pub use decoding::decode_record;
pub use dep::{Dep, DepKind, DepOn};
pub use expected::Expected;
pub use lists::{Deps, Writes};
pub use names::TaskNames;
pub use reader::Reader;
pub use record_fault::RecordFault;
pub use records::Records;
pub use task_record::{Outcome, TaskRecord};
pub use writer::{encode_record, put_record};
