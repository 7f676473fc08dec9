//! How running ends.
use pie_base::FaultKind;
use pie_value::Value;

/// How running ends.
#[derive(Drop)]
pub(crate) enum Ending {
    /// With the output.
    Done(Value),
    /// With a fault.
    Fail(FaultKind),
}
