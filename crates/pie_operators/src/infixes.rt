//! The operators between two operands.

ghost use Rattle.std.specs.Prelude.{◌≡◌, ◌≢◌, ◌-ℤ◌, ◌*ℤ◌, int_div};
ghost use Rattle.pie_value.specs.Values.{tree_of};
ghost use Rattle.pie_operators.specs.Operators.{binary_answer, of_ints, checked, divided, remainder, same_tree};
ghost use Rattle.pie_operators.specs.inner.Agreement.{ResultAgrees};
ghost use Rattle.pie_operators.specs.declared.operator.Binary.TheVariants.{Add};

use crate::fault::refused;
use crate::{Binary, OperatorFault, comparing, numbers, sums};
use pie_base::FaultKind;
use pie_value::Value;
use std::alloc::Global;

/// What an operator answers to its operands. Both are given up, so that a list can grow in place.
/// Rule: docs/LANGUAGE.md, "Operators".
pub fn binary(alloc: Global, operator: Binary, a: Value, b: Value) -> Result<Value, OperatorFault>
    ensures { ResultAgrees result (binary_answer operator (tree_of a) (tree_of b)) }
{
    match operator {
        Binary::Add => sums::sum(alloc, a, b),
        _ => answered(operator, &a, &b),
    }
}

// What an operator that only looks at its operands answers.
fn answered(operator: Binary, a: &Value, b: &Value) -> Result<Value, OperatorFault>
    requires { operator ≢ Add }
    ensures { ResultAgrees result (binary_answer operator (tree_of a.now) (tree_of b.now)) }
{
    match operator {
        Binary::Add => unreachable!(),
        Binary::Sub => subtracted(a, b),
        Binary::Mul => multiplied(a, b),
        Binary::Div => divided(a, b),
        Binary::Rem => left_over(a, b),
        Binary::Eq => Ok(Value::Bool(same(a, b))),
        Binary::Ne => Ok(Value::Bool(!same(a, b))),
        Binary::Lt => comparing::less(a, b),
        Binary::Le => comparing::less_equal(a, b),
        Binary::Gt => comparing::greater(a, b),
        Binary::Ge => comparing::greater_equal(a, b),
    }
}

fn subtracted(a: &Value, b: &Value) -> Result<Value, OperatorFault>
    ensures { ResultAgrees result (of_ints (λ n m. checked (n -ℤ m)) (tree_of a.now) (tree_of b.now)) }
{
    match (a, b) {
        (Value::Int(a), Value::Int(b)) => numbers::difference(*a, *b),
        _ => refused(FaultKind::Unknown),
    }
}

fn multiplied(a: &Value, b: &Value) -> Result<Value, OperatorFault>
    ensures { ResultAgrees result (of_ints (λ n m. checked (n *ℤ m)) (tree_of a.now) (tree_of b.now)) }
{
    match (a, b) {
        (Value::Int(a), Value::Int(b)) => numbers::product(*a, *b),
        _ => refused(FaultKind::Unknown),
    }
}

fn divided(a: &Value, b: &Value) -> Result<Value, OperatorFault>
    ensures { ResultAgrees result (of_ints (divided int_div) (tree_of a.now) (tree_of b.now)) }
{
    match (a, b) {
        (Value::Int(a), Value::Int(b)) => numbers::quotient(*a, *b),
        _ => refused(FaultKind::Unknown),
    }
}

fn left_over(a: &Value, b: &Value) -> Result<Value, OperatorFault>
    ensures { ResultAgrees result (of_ints remainder (tree_of a.now) (tree_of b.now)) }
{
    match (a, b) {
        (Value::Int(a), Value::Int(b)) => numbers::remainder(*a, *b),
        _ => refused(FaultKind::Unknown),
    }
}

// Whether the values are equal.
fn same(a: &Value, b: &Value) -> bool
    ensures { result ≡ same_tree (tree_of a.now) (tree_of b.now) }
{
    a.same(b)
}
