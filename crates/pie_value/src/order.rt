//! The order of tasks, which is that of their canonical bytes. A length stands before the bytes that it counts,
//! so a shorter text comes first.
ghost use Rattle.std.specs.Prelude.{◌≡◌, ◌<◌, ◌^◌, ◌∷◌, [], length};
ghost use Rattle.pie_value.specs.Tree.{items_of, count_of};
ghost use Rattle.pie_value.specs.Values.{tree_of, trees_of};
ghost use Rattle.pie_value.specs.Canonical.{be32, counted, enc_items, enc_task, HaveShortParts, IsEncodableTask};
ghost use Rattle.pie_value.specs.Order.{byte_order, Decides, tag_number, OrdersContents, Orders, OrdersItems, OrdersTexts, OrdersLists};

use crate::{Items, Task, Value};
use pie_base::Text;
use std::cmp::Ordering;

impl Task {
    /// Which of two tasks comes first: the order of their canonical bytes.
    #[tactic(auto, using(crate::proofs::Orders::task_second, crate::proofs::Orders::task_first))]
    pub fn cmp(&self, other: &Task) -> Ordering
        ensures { IsEncodableTask self.now → IsEncodableTask other.now → result ≡ byte_order (enc_task self.now) (enc_task other.now) }
    {
        match text_order(&self.func, &other.func) {
            Ordering::Equal => items_order(&self.args, &other.args),
            first => first,
        }
    }
}

#[cycle(ordering)]
#[tactic(auto, using(crate::proofs::Orders::kind_second, crate::proofs::Orders::kind_first))]
fn value_order(a: &Value, b: &Value) -> Ordering
    ensures { Orders (tree_of a.now) (tree_of b.now) result }
{
    match tag_of(a).cmp(&tag_of(b)) {
        Ordering::Equal => contents_order(a, b),
        first => first,
    }
}

// Of values of one kind.
#[cycle(ordering)]
fn contents_order(a: &Value, b: &Value) -> Ordering
    ensures { tag_number (tree_of a.now) ≡ tag_number (tree_of b.now) → OrdersContents (tree_of a.now) (tree_of b.now) result }
{
    match (a, b) {
        (Value::Bool(a), Value::Bool(b)) => bytes_order(&[u8::from(*a)], &[u8::from(*b)]),
        (Value::Int(a), Value::Int(b)) => bytes_order(&a.to_be_bytes(), &b.to_be_bytes()),
        (Value::Text(a), Value::Text(b)) => text_order(a, b),
        (Value::Path(a), Value::Path(b)) => counted_order(
            a.as_str().as_bytes(),
            b.as_str().as_bytes(),
        ),
        (Value::List(a), Value::List(b)) => items_order(a, b),
        (Value::Tuple(a), Value::Tuple(b)) => items_order(a, b),
        (Value::Bytes(a), Value::Bytes(b)) => counted_order(a.as_slice(), b.as_slice()),
        _ => Ordering::Equal,
    }
}

#[cycle(ordering)]
#[tactic(auto, using(crate::proofs::Orders::items_second, crate::proofs::Orders::items_first, crate::proofs::Elements::count_of_trees))]
fn items_order(a: &Items, b: &Items) -> Ordering
    ensures { OrdersLists (items_of a.now) (items_of b.now) result }
{
    let a = a.as_slice();
    let b = b.as_slice();
    match a.len().cmp(&b.len()) {
        Ordering::Equal => values_order(a, b),
        first => first,
    }
}

// Of as many values.
#[cycle(ordering)]
#[tactic(auto, using(crate::proofs::Orders::left_second, crate::proofs::Orders::left_first, crate::proofs::Orders::none_left))]
fn values_order(a: &[Value], b: &[Value]) -> Ordering
    requires { length a.now ≡ length b.now }
    ensures { OrdersItems (items_of (trees_of a.now)) (items_of (trees_of b.now)) result }
{
    for i in 0..a.len() {
        match value_order(&a[i], &b[i]) {
            Ordering::Equal => {}
            first => return first,
        }
    }
    Ordering::Equal
}

fn text_order(a: &Text, b: &Text) -> Ordering
    ensures { OrdersTexts a.now b.now result }
{
    counted_order(a.as_str().as_bytes(), b.as_str().as_bytes())
}

#[tactic(auto, using(crate::proofs::Orders::counted_second, crate::proofs::Orders::counted_first))]
fn counted_order(a: &[u8], b: &[u8]) -> Ordering
    ensures { OrdersTexts a.now b.now result }
{
    match a.len().cmp(&b.len()) {
        Ordering::Equal => bytes_order(a, b),
        first => first,
    }
}

#[tactic(auto, using(crate::proofs::Orders::same_length))]
fn bytes_order(a: &[u8], b: &[u8]) -> Ordering
    ensures { length a.now ≡ length b.now → Decides a.now b.now result }
{
    a.cmp(b)
}

fn tag_of(value: &Value) -> u8
    ensures { result ≡ tag_number (tree_of value.now) }
{
    match value {
        Value::Unit => 0,
        Value::Bool(_) => 1,
        Value::Int(_) => 2,
        Value::Text(_) => 3,
        Value::Path(_) => 4,
        Value::List(_) => 5,
        Value::Tuple(_) => 6,
        Value::Null => 7,
        Value::Bytes(_) => 8,
    }
}
