//! Lists and tuples that grow, and the items of tuples.
ghost use Rattle.std.specs.Prelude.{◌≡◌, slice_get, IfOk};
ghost use Rattle.pie_value.specs.Tree.{TList, TTuple, Nil, Cons, items_of, list_of};
ghost use Rattle.pie_value.specs.Values.{tree_of, trees_of};
ghost use Rattle.pie_value.specs.BuiltinItems.{joined};
ghost use Rattle.pie_operators.specs.Operators.{item_at, item_or_unknown, list_with, tuple_with};
ghost use Rattle.pie_operators.specs.inner.Agreement.{ResultAgrees};

use crate::OperatorFault;
use crate::fault::{made, refused};
use pie_base::{FaultKind, OutOfMemory};
use pie_value::{Items, Value};
use std::alloc::Global;

/// A list with one more item, which has to keep the limits. A list with no other owner grows in place.
pub fn push_to_list(alloc: Global, list: Value, item: Value) -> Result<Value, OperatorFault>
    ensures { ResultAgrees result (list_with (tree_of list) (tree_of item)) }
{
    match list {
        Value::List(items) => made(Value::List(pushed(alloc, items, item)?)),
        _ => refused(FaultKind::Unknown),
    }
}

/// A tuple with one more item, which has to keep the limits.
pub fn push_to_tuple(alloc: Global, tuple: Value, item: Value) -> Result<Value, OperatorFault>
    ensures { ResultAgrees result (tuple_with (tree_of tuple) (tree_of item)) }
{
    match tuple {
        Value::Tuple(items) => made(Value::Tuple(pushed(alloc, items, item)?)),
        _ => refused(FaultKind::Unknown),
    }
}

/// An item of a tuple, counted from 0.
pub fn item_of(tuple: &Value, number: u32) -> Result<Value, OperatorFault>
    ensures { ResultAgrees result (item_at number (tree_of tuple.now)) }
{
    match tuple {
        Value::Tuple(items) => item_there(items, number as usize),
        _ => refused(FaultKind::Unknown),
    }
}

#[tactic(auto, using(crate::proofs::Grown::pushed_items))]
fn pushed(alloc: Global, items: Items, item: Value) -> Result<Items, OutOfMemory>
    ensures { IfOk result (λ more. items_of more ≡ joined (items_of items) (Cons (tree_of item) Nil)) }
{
    let mut more = items;
    more.push(alloc, item)?;
    Ok(more)
}

#[tactic(auto, using(pie_value::proofs::Elements::list_of_items))]
fn item_there(items: &Items, place: usize) -> Result<Value, OperatorFault>
    ensures { ResultAgrees result (item_or_unknown (slice_get (list_of (items_of items.now)) place)) }
{
    item_among(items.as_slice(), place)
}

// The same of values in a slice.
fn item_among(items: &[Value], place: usize) -> Result<Value, OperatorFault>
    ensures { ResultAgrees result (item_or_unknown (slice_get (trees_of items.now) place)) }
{
    match items.get(place) {
        Some(item) => Ok(item.copy()?),
        None => refused(FaultKind::Unknown),
    }
}
