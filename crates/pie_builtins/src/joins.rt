//! The built-in functions that join the items of a list.
ghost use Rattle.std.specs.Prelude.{◌≡◌, ◌++◌, string_bytes, OnOk};
ghost use Rattle.pie_value.specs.Tree.{TList, TText, items_of};
ghost use Rattle.pie_value.specs.declared.builtin.Builtin.TheVariants.{Flatten, JoinText};
ghost use Rattle.pie_value.specs.Values.{tree_of, trees_of};
ghost use Rattle.pie_value.specs.BuiltinItems.{all_as, all_joined as spec_all_joined, as_list, as_text};
ghost use Rattle.pie_value.specs.BuiltinTexts.{with_between};
ghost use Rattle.pie_value.specs.BuiltinForms.{given, made as spec_made};
ghost use Rattle.pie_value.specs.Builtins.{answer_of};
ghost use Rattle.pie_builtins.specs.Agreement.{AnswerAgrees};
ghost use Rattle.pie_builtins.specs.Gathered.{all_lists as spec_all_lists, all_texts as spec_all_texts, each_after, items_among, items_in as spec_items_in};
ghost use Rattle.pie_builtins.specs.Gathered.{text_in, texts_between};

use crate::BuiltinFault;
use crate::fault::{made, made_text, refused};
use pie_base::{FaultKind, MAX_VALUE_BYTES, OutOfMemory};
use pie_value::{Items, Value};
use std::alloc::Global;

/// The items with the text between them.
pub fn join_text(alloc: Global, args: &[Value]) -> Result<Value, BuiltinFault>
    ensures { AnswerAgrees result (answer_of JoinText (trees_of args.now)) }
{
    match args {
        [Value::List(items), Value::Text(between)] => {
            texts_joined(alloc, items.as_slice(), between.as_str())
        }
        _ => refused(FaultKind::Unknown),
    }
}

/// The items of the items.
pub fn flatten(alloc: Global, args: &[Value]) -> Result<Value, BuiltinFault>
    ensures { AnswerAgrees result (answer_of Flatten (trees_of args.now)) }
{
    match args {
        [Value::List(items)] => lists_joined(alloc, items.as_slice()),
        _ => refused(FaultKind::Unknown),
    }
}

// The texts with another between them, where all items are texts.
#[tactic(auto, using(crate::proofs::Gathering::texts_not_all, crate::proofs::Gathering::texts_all))]
fn texts_joined(alloc: Global, items: &[Value], between: &str) -> Result<Value, BuiltinFault>
    ensures { AnswerAgrees result (given (all_as as_text (items_of (trees_of items.now))) (λ texts. spec_made (TText (with_between between.now texts)))) }
{
    if !all_texts(items) {
        return refused(FaultKind::Unknown);
    }
    all_joined(alloc, items, between)
}

// The texts with another between them.
fn all_joined(alloc: Global, items: &[Value], between: &str) -> Result<Value, BuiltinFault>
    ensures { AnswerAgrees result (spec_made (TText (texts_between between.now (trees_of items.now)))) }
{
    match items {
        [] => made_text(alloc, ""),
        [first, others @ ..] => each_joined(alloc, text_of(first), others, between),
    }
}

// The first text, and the others each after the text between them.
#[tactic(auto, using(crate::proofs::Joining::too_long))]
fn each_joined(
    alloc: Global,
    first: &str,
    others: &[Value],
    between: &str,
) -> Result<Value, BuiltinFault>
    ensures { AnswerAgrees result (spec_made (TText (first.now ++ each_after between.now (trees_of others.now)))) }
{
    let mut out = String::from_str(alloc, first)?;
    for other in others {
        if out.len() as u64 > MAX_VALUE_BYTES {
            return refused(FaultKind::Big);
        }
        push_after(&mut out, between, text_of(other))?;
    }
    made_text(alloc, out.as_str())
}

// One more text, after the text between.
fn push_after(out: &mut String, between: &str, text: &str) -> Result<(), OutOfMemory>
    ensures { OnOk result (string_bytes out.new ≡ string_bytes out.old ++ (between.now ++ text.now)) }
{
    out.push_str(between)?;
    out.push_str(text)?;
    Ok(())
}

// The lists one after another, where all items are lists.
#[tactic(auto, using(crate::proofs::Gathering::lists_not_all, crate::proofs::Gathering::lists_all))]
fn lists_joined(alloc: Global, items: &[Value]) -> Result<Value, BuiltinFault>
    ensures { AnswerAgrees result (given (all_as as_list (items_of (trees_of items.now))) (λ lists. spec_made (TList (spec_all_joined lists)))) }
{
    if !all_lists(items) {
        return refused(FaultKind::Unknown);
    }
    each_list(alloc, items)
}

// The items of the items that are lists.
#[tactic(auto, using(crate::proofs::Joining::too_many_items))]
fn each_list(alloc: Global, lists: &[Value]) -> Result<Value, BuiltinFault>
    ensures { AnswerAgrees result (spec_made (TList (items_of (items_among (trees_of lists.now))))) }
{
    let mut items = Items::new();
    for list in lists {
        if items.bytes() > MAX_VALUE_BYTES {
            return refused(FaultKind::Big);
        }
        push_all(&mut items, alloc, items_in(list))?;
    }
    made(Value::List(items))
}

// Copies of some values more.
fn push_all(items: &mut Items, alloc: Global, values: &[Value]) -> Result<(), OutOfMemory>
    ensures { OnOk result (items.new ≡ items.old ++ trees_of values.now) }
{
    for value in values {
        items.push(alloc, value.copy()?)?;
    }
    Ok(())
}

// Whether all values are texts.
fn all_texts(values: &[Value]) -> bool
    ensures { result ≡ spec_all_texts (trees_of values.now) }
{
    for value in values {
        let Value::Text(_) = value else {
            return false;
        };
    }
    true
}

// Whether all values are lists.
fn all_lists(values: &[Value]) -> bool
    ensures { result ≡ spec_all_lists (trees_of values.now) }
{
    for value in values {
        let Value::List(_) = value else {
            return false;
        };
    }
    true
}

// The characters of a text, none of another value.
fn text_of(value: &Value) -> &str
    ensures { result.now ≡ text_in (tree_of value.now) }
{
    match value {
        Value::Text(text) => text.as_str(),
        _ => "",
    }
}

// The items of a list, none of another value.
#[tactic(auto, using(pie_value::proofs::Elements::list_of_items))]
fn items_in(value: &Value) -> &[Value]
    ensures { trees_of result.now ≡ spec_items_in (tree_of value.now) }
{
    match value {
        Value::List(items) => items.as_slice(),
        _ => &[],
    }
}
