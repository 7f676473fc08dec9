//! Why a built-in function gives no value.
ghost use Rattle.std.specs.Prelude.{◌≡◌, Err};
ghost use Rattle.pie_value.specs.Tree.{TText};
ghost use Rattle.pie_value.specs.Values.{tree_of};
ghost use Rattle.pie_value.specs.BuiltinForms.{made as spec_made, made_number};
ghost use Rattle.pie_builtins.specs.Agreement.{AnswerAgrees};

use pie_base::{FaultKind, OutOfMemory, Text};
use pie_value::Value;
use std::alloc::{AllocError, AllocFailed, Global};

/// Why a built-in function gives no value.
#[derive(Drop)]
pub enum BuiltinFault {
    /// The fault of the task that called it.
    Fault(FaultKind),
    OutOfMemory,
}

impl From<AllocError> for BuiltinFault {
    ghost use Rattle.pie_builtins.specs.declared.fault.BuiltinFault.TheVariants.{OutOfMemory};

    ghost from_gives = { λ _ e. e ≡ OutOfMemory };

    fn from(_: AllocError) -> Self {
        BuiltinFault::OutOfMemory
    }
}

impl<T: Drop> From<AllocFailed<T>> for BuiltinFault {
    ghost use Rattle.pie_builtins.specs.declared.fault.BuiltinFault.TheVariants.{OutOfMemory};

    ghost from_gives = { λ _ e. e ≡ OutOfMemory };

    fn from(_: AllocFailed<T>) -> Self {
        BuiltinFault::OutOfMemory
    }
}

impl From<OutOfMemory> for BuiltinFault {
    ghost use Rattle.pie_builtins.specs.declared.fault.BuiltinFault.TheVariants.{OutOfMemory};

    ghost from_gives = { λ _ e. e ≡ OutOfMemory };

    fn from(_: OutOfMemory) -> Self {
        BuiltinFault::OutOfMemory
    }
}

/// The fault of the task that called a built-in function.
pub fn refused(kind: FaultKind) -> Result<Value, BuiltinFault>
    ensures { result ≡ Err (BuiltinFault.Fault kind) }
{
    Err(BuiltinFault::Fault(kind))
}

/// A new value, or the fault Big where it passes the limits.
pub fn made(value: Value) -> Result<Value, BuiltinFault>
    ensures { AnswerAgrees result (spec_made (tree_of value)) }
{
    if value.is_small() {
        Ok(value)
    } else {
        refused(FaultKind::Big)
    }
}

/// A new text, or the fault Big where it passes the limits.
pub fn made_text(alloc: Global, text: &str) -> Result<Value, BuiltinFault>
    ensures { AnswerAgrees result (spec_made (TText text.now)) }
{
    made(Value::Text(Text::new(alloc, text)?))
}

/// A length as an integer. One past the greatest integer belongs to nothing that memory holds, and is answered as want of it.
pub fn made_length(len: usize) -> Result<Value, BuiltinFault>
    ensures { AnswerAgrees result (made_number len) }
{
    match i64::try_from(len) {
        Ok(len) => made(Value::Int(len)),
        Err(_) => Err(BuiltinFault::OutOfMemory),
    }
}
