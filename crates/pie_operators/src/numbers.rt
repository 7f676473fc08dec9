//! The operators on integers.
ghost use Rattle.std.specs.Prelude.{◌+ℤ◌, ◌-ℤ◌, ◌*ℤ◌, neg_ℤ, int_div};
ghost use Rattle.pie_operators.specs.Operators.{checked, divided, remainder as spec_remainder};
ghost use Rattle.pie_operators.specs.inner.Agreement.{ResultAgrees};

use crate::OperatorFault;
use crate::fault::refused;
use pie_base::FaultKind;
use pie_value::Value;

pub fn negated(n: i64) -> Result<Value, OperatorFault>
    ensures { ResultAgrees result (checked (neg_ℤ n)) }
{
    match n.checked_neg() {
        Some(n) => Ok(Value::Int(n)),
        None => refused(FaultKind::Overflow),
    }
}

pub fn sum(a: i64, b: i64) -> Result<Value, OperatorFault>
    ensures { ResultAgrees result (checked (a +ℤ b)) }
{
    match a.checked_add(b) {
        Some(n) => Ok(Value::Int(n)),
        None => refused(FaultKind::Overflow),
    }
}

pub fn difference(a: i64, b: i64) -> Result<Value, OperatorFault>
    ensures { ResultAgrees result (checked (a -ℤ b)) }
{
    match a.checked_sub(b) {
        Some(n) => Ok(Value::Int(n)),
        None => refused(FaultKind::Overflow),
    }
}

pub fn product(a: i64, b: i64) -> Result<Value, OperatorFault>
    ensures { ResultAgrees result (checked (a *ℤ b)) }
{
    match a.checked_mul(b) {
        Some(n) => Ok(Value::Int(n)),
        None => refused(FaultKind::Overflow),
    }
}

/// The quotient, towards 0.
pub fn quotient(a: i64, b: i64) -> Result<Value, OperatorFault>
    ensures { ResultAgrees result (divided int_div a b) }
{
    if b == 0 {
        return refused(FaultKind::Zero);
    }
    match a.checked_div(b) {
        Some(n) => Ok(Value::Int(n)),
        None => refused(FaultKind::Overflow),
    }
}

/// The remainder, with the sign of the dividend.
pub fn remainder(a: i64, b: i64) -> Result<Value, OperatorFault>
    ensures { ResultAgrees result (spec_remainder a b) }
{
    if b == 0 {
        return refused(FaultKind::Zero);
    }
    match a.checked_rem(b) {
        Some(n) => Ok(Value::Int(n)),
        None => refused(FaultKind::Overflow),
    }
}
