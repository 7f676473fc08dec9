//! Why code is refused.
ghost use Rattle.std.specs.Prelude.{◌≡◌};

use pie_base::OutOfMemory;

/// Why code is refused: the least place, counted from 0, at which something is wrong, and of what is wrong there
/// the first of these. Rule: docs/LANGUAGE.md, "Bytecode".
#[derive(Clone, Copy, Debug, PartialEq, Eq)]
pub enum CodeError {
    /// The instruction at the place jumps out of the code, or back to where no loop begins; or it begins a loop
    /// without a tick, or one that ends too early.
    Jump(usize),
    /// Two ways come to the instruction with different heights of the stack, or it doesn't find its operands.
    Height(usize),
    /// The number of a slot or of a text is out of range; at 0 also where there are more parameters than slots.
    Slot(usize),
    /// Running goes on behind the last instruction, or there is none; nothing else is wrong.
    NoEnd,
    /// No memory was to be had.
    OutOfMemory,
}

impl From<OutOfMemory> for CodeError {
    ghost use Rattle.pie_code.specs.declared.error.CodeError.TheVariants.{OutOfMemory};

    ghost from_gives = { λ _ e. e ≡ OutOfMemory };

    fn from(_: OutOfMemory) -> Self {
        CodeError::OutOfMemory
    }
}
