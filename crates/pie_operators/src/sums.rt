//! What `+` joins.
ghost use Rattle.std.specs.Prelude.{◌≡◌, ◌++◌, OnOk};
ghost use Rattle.pie_value.specs.Tree.{TInt, TText, TBytes, TList, items_of};
ghost use Rattle.pie_value.specs.Values.{tree_of, trees_of};
ghost use Rattle.pie_value.specs.BuiltinForms.{made as spec_made};
ghost use Rattle.pie_value.specs.BuiltinItems.{joined};
ghost use Rattle.pie_operators.specs.Operators.{sum_of};
ghost use Rattle.pie_operators.specs.inner.Agreement.{ResultAgrees};

use crate::fault::{made, refused};
use crate::{OperatorFault, numbers};
use pie_base::{FaultKind, OutOfMemory, Text};
use pie_value::{Blob, Items, Value};
use std::alloc::Global;

/// Integers, texts, bytes or lists, one after another. A list with no other owner grows in place.
pub fn sum(alloc: Global, a: Value, b: Value) -> Result<Value, OperatorFault>
    ensures { ResultAgrees result (sum_of (tree_of a) (tree_of b)) }
{
    match a {
        Value::Int(a) => to_int(a, &b),
        Value::Text(a) => to_text(alloc, a.as_str(), &b),
        Value::Bytes(a) => to_bytes(alloc, a.as_slice(), &b),
        Value::List(a) => to_list(alloc, a, &b),
        _ => refused(FaultKind::Unknown),
    }
}

fn to_int(a: i64, b: &Value) -> Result<Value, OperatorFault>
    ensures { ResultAgrees result (sum_of (TInt a) (tree_of b.now)) }
{
    match b {
        Value::Int(b) => numbers::sum(a, *b),
        _ => refused(FaultKind::Unknown),
    }
}

fn to_text(alloc: Global, a: &str, b: &Value) -> Result<Value, OperatorFault>
    ensures { ResultAgrees result (sum_of (TText a.now) (tree_of b.now)) }
{
    match b {
        Value::Text(b) => texts(alloc, a, b.as_str()),
        _ => refused(FaultKind::Unknown),
    }
}

fn to_bytes(alloc: Global, a: &[u8], b: &Value) -> Result<Value, OperatorFault>
    ensures { ResultAgrees result (sum_of (TBytes a.now) (tree_of b.now)) }
{
    match b {
        Value::Bytes(b) => blobs(alloc, a, b.as_slice()),
        _ => refused(FaultKind::Unknown),
    }
}

fn to_list(alloc: Global, a: Items, b: &Value) -> Result<Value, OperatorFault>
    ensures { ResultAgrees result (sum_of (TList (items_of a)) (tree_of b.now)) }
{
    match b {
        Value::List(b) => lists(alloc, a, b),
        _ => refused(FaultKind::Unknown),
    }
}

fn texts(alloc: Global, a: &str, b: &str) -> Result<Value, OperatorFault>
    ensures { ResultAgrees result (spec_made (TText (a.now ++ b.now))) }
{
    let mut text = String::from_str(alloc, a)?;
    text.push_str(b)?;
    made(Value::Text(Text::new(alloc, text.as_str())?))
}

fn blobs(alloc: Global, a: &[u8], b: &[u8]) -> Result<Value, OperatorFault>
    ensures { ResultAgrees result (spec_made (TBytes (a.now ++ b.now))) }
{
    let mut bytes = Vec::from_slice(alloc, a)?;
    bytes.extend_from_slice(b)?;
    made(Value::Bytes(Blob::shared(alloc, bytes)?))
}

#[tactic(auto, using(crate::proofs::Grown::joined_items))]
fn lists(alloc: Global, a: Items, b: &Items) -> Result<Value, OperatorFault>
    ensures { ResultAgrees result (spec_made (TList (joined (items_of a) (items_of b.now)))) }
{
    let mut items = a;
    push_all(&mut items, alloc, b.as_slice())?;
    made(Value::List(items))
}

// Copies of some values more.
fn push_all(items: &mut Items, alloc: Global, values: &[Value]) -> Result<(), OutOfMemory>
    ensures { OnOk result (items.new ≡ items.old ++ trees_of values.now) }
{
    for value in values {
        items.push(alloc, value.copy()?)?;
    }
    Ok(())
}
