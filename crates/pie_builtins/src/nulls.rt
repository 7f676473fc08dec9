//! The built-in functions on values that may be null.
ghost use Rattle.pie_value.specs.declared.builtin.Builtin.TheVariants.{Get, IsNull, Some as SomeOf};
ghost use Rattle.pie_value.specs.Values.{trees_of};
ghost use Rattle.pie_value.specs.Builtins.{answer_of};
ghost use Rattle.pie_builtins.specs.Agreement.{AnswerAgrees};

use crate::BuiltinFault;
use crate::fault::{made, refused};
use pie_base::FaultKind;
use pie_value::Value;

/// The value itself, as one that may be null.
pub fn some(args: &[Value]) -> Result<Value, BuiltinFault>
    ensures { AnswerAgrees result (answer_of SomeOf (trees_of args.now)) }
{
    match args {
        [Value::Null] => refused(FaultKind::Unknown),
        [value] => Ok(value.copy()?),
        _ => refused(FaultKind::Unknown),
    }
}

/// The value, or the fault Null for null.
pub fn get(args: &[Value]) -> Result<Value, BuiltinFault>
    ensures { AnswerAgrees result (answer_of Get (trees_of args.now)) }
{
    match args {
        [Value::Null] => refused(FaultKind::Null),
        [value] => Ok(value.copy()?),
        _ => refused(FaultKind::Unknown),
    }
}

/// Whether the value is null.
pub fn is_null(args: &[Value]) -> Result<Value, BuiltinFault>
    ensures { AnswerAgrees result (answer_of IsNull (trees_of args.now)) }
{
    match args {
        [Value::Null] => made(Value::Bool(true)),
        [_] => made(Value::Bool(false)),
        _ => refused(FaultKind::Unknown),
    }
}
