//! The comparisons of values by their order.
ghost use Rattle.std.specs.Prelude.{◌≡◌};
ghost use Rattle.std.specs.Ordering.{is_ge, is_gt, is_le, is_lt};
ghost use Rattle.pie_value.specs.Values.{tree_of};
ghost use Rattle.pie_operators.specs.Operators.{compared, order_of};
ghost use Rattle.pie_operators.specs.inner.Agreement.{ResultAgrees};

use crate::OperatorFault;
use crate::fault::refused;
use pie_base::FaultKind;
use pie_value::Value;
use std::cmp::Ordering;

/// How two integers, texts or paths are ordered; other values aren't.
pub fn order(a: &Value, b: &Value) -> Option<Ordering>
    ensures { result ≡ order_of (tree_of a.now) (tree_of b.now) }
{
    match (a, b) {
        (Value::Int(a), Value::Int(b)) => Some(a.cmp(b)),
        (Value::Text(a), Value::Text(b)) => Some(a.as_str().cmp(b.as_str())),
        (Value::Path(a), Value::Path(b)) => Some(a.as_str().cmp(b.as_str())),
        _ => None,
    }
}

pub fn less(a: &Value, b: &Value) -> Result<Value, OperatorFault>
    ensures { ResultAgrees result (compared is_lt (tree_of a.now) (tree_of b.now)) }
{
    match order(a, b) {
        Some(order) => Ok(Value::Bool(order.is_lt())),
        None => refused(FaultKind::Unknown),
    }
}

pub fn less_equal(a: &Value, b: &Value) -> Result<Value, OperatorFault>
    ensures { ResultAgrees result (compared is_le (tree_of a.now) (tree_of b.now)) }
{
    match order(a, b) {
        Some(order) => Ok(Value::Bool(order.is_le())),
        None => refused(FaultKind::Unknown),
    }
}

pub fn greater(a: &Value, b: &Value) -> Result<Value, OperatorFault>
    ensures { ResultAgrees result (compared is_gt (tree_of a.now) (tree_of b.now)) }
{
    match order(a, b) {
        Some(order) => Ok(Value::Bool(order.is_gt())),
        None => refused(FaultKind::Unknown),
    }
}

pub fn greater_equal(a: &Value, b: &Value) -> Result<Value, OperatorFault>
    ensures { ResultAgrees result (compared is_ge (tree_of a.now) (tree_of b.now)) }
{
    match order(a, b) {
        Some(order) => Ok(Value::Bool(order.is_ge())),
        None => refused(FaultKind::Unknown),
    }
}
