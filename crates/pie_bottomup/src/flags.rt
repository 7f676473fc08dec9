//! Flags of tasks.
ghost use Rattle.std.specs.Prelude.{◌≡◌, false, slice_index_or};

use pie_graph::TaskNo;

/// The flag of a task, false past the last.
pub(crate) fn flag_of(flags: &[bool], no: TaskNo) -> bool
    ensures { result ≡ slice_index_or flags.now no.0 false }
{
    match flags.get(no.0 as usize) {
        Some(flag) => *flag,
        None => false,
    }
}
