//! The steps of a script that an input has.
ghost use Rattle.std.specs.Prelude.{IfSome};
ghost use Rattle.pie_files.specs.Streams.{StaysInfallible};
ghost use Rattle.pie_input.specs.inner.Answers.{HasSteps, StepsRead, TellsLines};

use crate::{Input, InputError, LinesError, read_input};
use pie_files::Source;
use pie_script::{InputFault, Step, read_script};
use std::alloc::Global;

/// The steps of the script that is left in an input, in their order. The input is read to its end, or up to the limit on its bytes.
/// Rule: docs/FORMATS.md, "Scripts".
pub fn read_steps<I: Source>(alloc: Global, input: &mut I) -> Result<Vec<Step>, LinesError>
    ensures read { IfSome (I.left input.old) (λ bytes. StepsRead bytes (I.left input.new) result) }
    ensures told { TellsLines I.faults input.old input.new result }
    ensures infallible { StaysInfallible I.infallible I.faults input.old input.new }
{
    match read_input(alloc, input) {
        Ok(Input::Whole(bytes)) => steps_in(alloc, bytes.as_slice()),
        Ok(Input::TooLong) => Err(LinesError::Bad(InputFault::TooLong)),
        Err(InputError::Failed) => Err(LinesError::Failed),
        Err(InputError::OutOfMemory) => Err(LinesError::OutOfMemory),
    }
}

// The steps of the script that these bytes are.
fn steps_in(alloc: Global, bytes: &[u8]) -> Result<Vec<Step>, LinesError>
    ensures { HasSteps bytes.now result }
{
    match read_script(alloc, bytes) {
        Ok(steps) => Ok(steps),
        Err(InputFault::OutOfMemory) => Err(LinesError::OutOfMemory),
        Err(fault) => Err(LinesError::Bad(fault)),
    }
}
