//! The built-in functions on lists.
ghost use Rattle.std.specs.Prelude.{◌≡◌, IfOk, reverse as reversed, slice_get};
ghost use Rattle.pie_value.specs.declared.builtin.Builtin.TheVariants.{At, Reverse};
ghost use Rattle.pie_value.specs.Tree.{TList, items_of, list_of};
ghost use Rattle.pie_value.specs.Values.{tree_of, trees_of};
ghost use Rattle.pie_value.specs.BuiltinForms.{at_place, made as spec_made};
ghost use Rattle.pie_value.specs.Builtins.{answer_of, item_or_fault};
ghost use Rattle.pie_builtins.specs.Agreement.{AnswerAgrees};

use crate::BuiltinFault;
use crate::fault::{made, refused};
use pie_base::{FaultKind, OutOfMemory};
use pie_value::{Items, Value};
use std::alloc::Global;

/// The item at a place, counted from 0.
pub fn at(args: &[Value]) -> Result<Value, BuiltinFault>
    ensures { AnswerAgrees result (answer_of At (trees_of args.now)) }
{
    match args {
        [Value::List(items), Value::Int(place)] => item_at(items, *place),
        _ => refused(FaultKind::Unknown),
    }
}

/// The items backwards.
pub fn reverse(alloc: Global, args: &[Value]) -> Result<Value, BuiltinFault>
    ensures { AnswerAgrees result (answer_of Reverse (trees_of args.now)) }
{
    match args {
        [Value::List(items)] => turned(alloc, items),
        _ => refused(FaultKind::Unknown),
    }
}

// The item at a place, counted from 0.
fn item_at(items: &Items, place: i64) -> Result<Value, BuiltinFault>
    ensures { AnswerAgrees result (at_place place (λ i. item_or_fault (slice_get (list_of (items_of items.now)) i))) }
{
    match usize::try_from(place) {
        Ok(place) => item_there(items, place),
        Err(_) => refused(FaultKind::Range),
    }
}

// The same at a place that is no number below 0.
#[tactic(auto, using(pie_value::proofs::Elements::list_of_items))]
fn item_there(items: &Items, place: usize) -> Result<Value, BuiltinFault>
    ensures { AnswerAgrees result (item_or_fault (slice_get (list_of (items_of items.now)) place)) }
{
    item_among(items.as_slice(), place)
}

// The same of values in a slice.
fn item_among(items: &[Value], place: usize) -> Result<Value, BuiltinFault>
    ensures { AnswerAgrees result (item_or_fault (slice_get (trees_of items.now) place)) }
{
    match items.get(place) {
        Some(item) => Ok(item.copy()?),
        None => refused(FaultKind::Range),
    }
}

// A new list of the items backwards.
#[tactic(auto, using(pie_value::proofs::Elements::list_of_items))]
fn turned(alloc: Global, items: &Items) -> Result<Value, BuiltinFault>
    ensures { AnswerAgrees result (spec_made (TList (items_of (reversed (list_of (items_of items.now)))))) }
{
    made(Value::List(backwards(alloc, items.as_slice())?))
}

// Copies of the items backwards.
#[tactic(auto, using(crate::proofs::Listed::one_before))]
fn backwards(alloc: Global, items: &[Value]) -> Result<Items, OutOfMemory>
    ensures { IfOk result (λ turned. turned ≡ reversed (trees_of items.now)) }
{
    let mut turned = Items::new();
    let mut left = items.len();
    while left > 0 {
        left -= 1;
        turned.push(alloc, items[left].copy()?)?;
    }
    Ok(turned)
}
