//! Why a pipeline has no types.
ghost use Rattle.std.specs.Prelude.{◌≡◌};

use pie_base::OutOfMemory;
use pie_value::Ty;
use std::alloc::{AllocError, AllocFailed};

/// Why a pipeline has no types.
#[derive(Drop)]
pub enum TypeError {
    /// The first refusal in the order of checking.
    Fault(TypeFault),
    /// No memory was to be had, or the type of a name has more than `MAX_TYPE_PARTS` parts.
    OutOfMemory,
}

/// A refusal, and the bytes from 0 of what is refused, from `at` up to `end`.
/// Rule: docs/LANGUAGE.md, "Order of checking".
#[derive(Drop)]
pub struct TypeFault {
    pub kind: TypeKind,
    pub at: usize,
    pub end: usize,
}

/// What is refused.
#[derive(Drop)]
pub enum TypeKind {
    /// No value of this name is in scope, or no type has this name.
    UnknownName,
    /// No function has this name, or it is called in another way.
    UnknownFunction,
    /// A type was expected, and another was found, in this order.
    Mismatch(Ty, Ty),
    /// Another number of arguments, or no item of this number in a tuple.
    Arity,
    /// The name is taken.
    Duplicate,
    /// The name would be the 256th in scope.
    TooManyNames,
}

impl From<OutOfMemory> for TypeError {
    ghost use Rattle.pie_types.specs.declared.error.TypeError.TheVariants.{OutOfMemory};

    ghost from_gives = { λ _ e. e ≡ OutOfMemory };

    fn from(_: OutOfMemory) -> Self {
        TypeError::OutOfMemory
    }
}

impl From<AllocError> for TypeError {
    ghost use Rattle.pie_types.specs.declared.error.TypeError.TheVariants.{OutOfMemory};

    ghost from_gives = { λ _ e. e ≡ OutOfMemory };

    fn from(_: AllocError) -> Self {
        TypeError::OutOfMemory
    }
}

impl<T: Drop> From<AllocFailed<T>> for TypeError {
    ghost use Rattle.pie_types.specs.declared.error.TypeError.TheVariants.{OutOfMemory};

    ghost from_gives = { λ _ e. e ≡ OutOfMemory };

    fn from(_: AllocFailed<T>) -> Self {
        TypeError::OutOfMemory
    }
}
