//! The names of a change list that an input has.
ghost use Rattle.std.specs.Prelude.{IfSome};
ghost use Rattle.pie_files.specs.Streams.{StaysInfallible};
ghost use Rattle.pie_input.specs.inner.Answers.{HasNames, NamesRead, TellsLines};

use crate::{Input, InputError, LinesError, read_input};
use pie_base::Path;
use pie_files::Source;
use pie_script::{InputFault, read_changes};
use std::alloc::Global;

/// The paths of the change list that is left in an input, in the order of its lines. The input is read to its end, or up to the limit on its bytes.
/// Rule: docs/FORMATS.md, "Change lists".
pub fn read_names<I: Source>(alloc: Global, input: &mut I) -> Result<Vec<Path>, LinesError>
    ensures read { IfSome (I.left input.old) (λ bytes. NamesRead bytes (I.left input.new) result) }
    ensures told { TellsLines I.faults input.old input.new result }
    ensures infallible { StaysInfallible I.infallible I.faults input.old input.new }
{
    match read_input(alloc, input) {
        Ok(Input::Whole(bytes)) => names_in(alloc, bytes.as_slice()),
        Ok(Input::TooLong) => Err(LinesError::Bad(InputFault::TooLong)),
        Err(InputError::Failed) => Err(LinesError::Failed),
        Err(InputError::OutOfMemory) => Err(LinesError::OutOfMemory),
    }
}

// The names of the change list that these bytes are.
fn names_in(alloc: Global, bytes: &[u8]) -> Result<Vec<Path>, LinesError>
    ensures { HasNames bytes.now result }
{
    match read_changes(alloc, bytes) {
        Ok(paths) => Ok(paths),
        Err(InputFault::OutOfMemory) => Err(LinesError::OutOfMemory),
        Err(fault) => Err(LinesError::Bad(fault)),
    }
}
