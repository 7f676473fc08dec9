//! Why an operator gives no value.
ghost use Rattle.std.specs.Prelude.{◌≡◌, Err};
ghost use Rattle.pie_value.specs.Values.{tree_of};
ghost use Rattle.pie_value.specs.BuiltinForms.{made as spec_made};
ghost use Rattle.pie_operators.specs.inner.Agreement.{ResultAgrees};

use pie_base::{FaultKind, OutOfMemory};
use pie_value::Value;
use std::alloc::{AllocError, AllocFailed};

/// Why an operator gives no value.
#[derive(Drop)]
pub enum OperatorFault {
    /// The fault of the task that it stands in.
    Fault(FaultKind),
    OutOfMemory,
}

impl From<AllocError> for OperatorFault {
    ghost use Rattle.pie_operators.specs.declared.fault.OperatorFault.TheVariants.{OutOfMemory};

    ghost from_gives = { λ _ e. e ≡ OutOfMemory };

    fn from(_: AllocError) -> Self {
        OperatorFault::OutOfMemory
    }
}

impl<T: Drop> From<AllocFailed<T>> for OperatorFault {
    ghost use Rattle.pie_operators.specs.declared.fault.OperatorFault.TheVariants.{OutOfMemory};

    ghost from_gives = { λ _ e. e ≡ OutOfMemory };

    fn from(_: AllocFailed<T>) -> Self {
        OperatorFault::OutOfMemory
    }
}

impl From<OutOfMemory> for OperatorFault {
    ghost use Rattle.pie_operators.specs.declared.fault.OperatorFault.TheVariants.{OutOfMemory};

    ghost from_gives = { λ _ e. e ≡ OutOfMemory };

    fn from(_: OutOfMemory) -> Self {
        OperatorFault::OutOfMemory
    }
}

/// The fault of the task that an operator stands in.
pub fn refused(kind: FaultKind) -> Result<Value, OperatorFault>
    ensures { result ≡ Err (OperatorFault.Fault kind) }
{
    Err(OperatorFault::Fault(kind))
}

/// A new value, or the fault Big where it passes the limits.
pub fn made(value: Value) -> Result<Value, OperatorFault>
    ensures { ResultAgrees result (spec_made (tree_of value)) }
{
    if value.is_small() {
        Ok(value)
    } else {
        refused(FaultKind::Big)
    }
}
