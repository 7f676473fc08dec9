//! Why the lines of an input give nothing.

use pie_script::InputFault;

/// Why an input gives no names or no steps.
#[derive(Clone, Copy, Debug, PartialEq, Eq)]
pub enum LinesError {
    /// It is too long, else its first bad line; this is never out of memory.
    Bad(InputFault),
    /// The input failed. It comes only where its count of faults rose in the call.
    Failed,
    OutOfMemory,
}
