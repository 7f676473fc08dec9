//! Why an evaluation gives no value.
ghost use Rattle.std.specs.Prelude.{◌≡◌, Err};
ghost use Rattle.pie_semantics_program.specs.Coming.{stopped as spec_stopped};
ghost use Rattle.pie_semantics_program.specs.declared.stop.Stop.{Stop};

use pie_base::{FaultKind, OutOfMemory};
use pie_operators::OperatorFault;
use pie_value::{Event, Value};
use std::alloc::{AllocError, AllocFailed};

/// Why an evaluation gives no value.
#[derive(Drop)]
pub enum Stop {
    /// The fault of the task.
    Fault(FaultKind),
    /// The first effect that no answer is left for.
    Wants(Event),
    OutOfMemory,
}

impl From<OutOfMemory> for Stop {
    ghost use Rattle.pie_semantics_program.specs.declared.stop.Stop.TheVariants.{OutOfMemory};

    ghost from_gives = { λ _ e. e ≡ OutOfMemory };

    fn from(_: OutOfMemory) -> Self {
        Stop::OutOfMemory
    }
}

impl From<AllocError> for Stop {
    ghost use Rattle.pie_semantics_program.specs.declared.stop.Stop.TheVariants.{OutOfMemory};

    ghost from_gives = { λ _ e. e ≡ OutOfMemory };

    fn from(_: AllocError) -> Self {
        Stop::OutOfMemory
    }
}

impl<T: Drop> From<AllocFailed<T>> for Stop {
    ghost use Rattle.pie_semantics_program.specs.declared.stop.Stop.TheVariants.{OutOfMemory};

    ghost from_gives = { λ _ e. e ≡ OutOfMemory };

    fn from(_: AllocFailed<T>) -> Self {
        Stop::OutOfMemory
    }
}

/// What an operator or a built-in function answered, as what the evaluation gave.
pub fn stopped(answer: Result<Value, OperatorFault>) -> Result<Value, Stop>
    ensures { result ≡ spec_stopped answer }
{
    match answer {
        Ok(value) => Ok(value),
        Err(OperatorFault::Fault(kind)) => Err(Stop::Fault(kind)),
        Err(OperatorFault::OutOfMemory) => Err(Stop::OutOfMemory),
    }
}
