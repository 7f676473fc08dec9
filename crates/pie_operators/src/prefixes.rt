//! The operators before one operand.
ghost use Rattle.pie_value.specs.Values.{tree_of};
ghost use Rattle.pie_operators.specs.Operators.{unary_answer};
ghost use Rattle.pie_operators.specs.inner.Agreement.{ResultAgrees};

use crate::fault::refused;
use crate::{OperatorFault, Unary, numbers};
use pie_base::FaultKind;
use pie_value::Value;

/// What an operator answers to its operand.
/// Rule: docs/LANGUAGE.md, "Operators".
pub fn unary(operator: Unary, operand: &Value) -> Result<Value, OperatorFault>
    ensures { ResultAgrees result (unary_answer operator (tree_of operand.now)) }
{
    match (operator, operand) {
        (Unary::Neg, Value::Int(n)) => numbers::negated(*n),
        (Unary::Not, Value::Bool(b)) => Ok(Value::Bool(!*b)),
        _ => refused(FaultKind::Unknown),
    }
}
