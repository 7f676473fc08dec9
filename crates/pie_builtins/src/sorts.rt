//! Lists in ascending order.
ghost use Rattle.std.specs.Prelude.{◌≡◌, map, option_map, IfOk};
ghost use Rattle.std.specs.Ordering.{int_cmp, nat_cmp};
ghost use Rattle.std.specs.Cmp.Lexicographic.{slice_cmp};
ghost use Rattle.pie_value.specs.Tree.{TInt, TList, TPath, TText, items_of};
ghost use Rattle.pie_value.specs.declared.builtin.Builtin.TheVariants.{Sort};
ghost use Rattle.pie_value.specs.Values.{tree_of, trees_of};
ghost use Rattle.pie_value.specs.BuiltinItems.{all_as, as_int, as_path, as_text, sorted_by};
ghost use Rattle.pie_value.specs.BuiltinForms.{made as spec_made};
ghost use Rattle.pie_value.specs.Builtins.{answer_of, sort_answer};
ghost use Rattle.pie_builtins.specs.Agreement.{AnswerAgrees};
ghost use Rattle.pie_builtins.specs.Laws.{IsSortedList, LawOf};

use crate::BuiltinFault;
use crate::fault::{made, refused};
use pie_base::{FaultKind, OutOfMemory, Path, Text};
use pie_value::{Items, Value};
use std::alloc::Global;

/// The items in ascending order, where all are integers, texts or paths.
pub fn sort(alloc: Global, args: &[Value]) -> Result<Value, BuiltinFault>
    ensures answer { AnswerAgrees result (answer_of Sort (trees_of args.now)) }
    ensures law { IfOk result (λ value. LawOf Sort (trees_of args.now) (tree_of value)) }
{
    match args {
        [Value::List(items)] => list_sorted(alloc, items),
        _ => refused(FaultKind::Unknown),
    }
}

// The items of a list in ascending order.
fn list_sorted(alloc: Global, items: &Items) -> Result<Value, BuiltinFault>
    ensures answer { let ts = items_of items.now in AnswerAgrees result (sort_answer ts (all_as as_int ts) (all_as as_text ts) (all_as as_path ts)) }
    ensures law { IfOk result (λ value. IsSortedList (items_of items.now) (tree_of value)) }
{
    sorted(alloc, items.as_slice())
}

// The same of items in a slice: all of them are of one kind.
fn sorted(alloc: Global, items: &[Value]) -> Result<Value, BuiltinFault>
    ensures { let ts = items_of (trees_of items.now) in AnswerAgrees result (sort_answer ts (all_as as_int ts) (all_as as_text ts) (all_as as_path ts)) }
{
    if let Some(ints) = all_ints(alloc, items)? {
        return sorted_ints(alloc, ints);
    }
    if let Some(texts) = all_texts(alloc, items)? {
        return sorted_texts(alloc, texts);
    }
    match all_paths(alloc, items)? {
        Some(paths) => sorted_paths(alloc, paths),
        None => refused(FaultKind::Unknown),
    }
}

// The items as integers, where each is one.
fn all_ints(alloc: Global, items: &[Value]) -> Result<Option<Vec<i64>>, OutOfMemory>
    ensures { IfOk result (λ found. option_map (λ ints. ints.items) found ≡ all_as as_int (items_of (trees_of items.now))) }
{
    let mut ints = Vec::new(alloc);
    for item in items {
        match int_in(item) {
            Some(n) => ints.push(n)?,
            None => return Ok(None),
        }
    }
    Ok(Some(ints))
}

// The items as texts, where each is one.
fn all_texts(alloc: Global, items: &[Value]) -> Result<Option<Vec<&str>>, OutOfMemory>
    ensures { IfOk result (λ found. option_map (λ texts. map (λ text. text.now) texts.items) found ≡ all_as as_text (items_of (trees_of items.now))) }
{
    let mut texts = Vec::new(alloc);
    for item in items {
        match text_in(item) {
            Some(text) => texts.push(text)?,
            None => return Ok(None),
        }
    }
    Ok(Some(texts))
}

// The items as paths, where each is one.
fn all_paths(alloc: Global, items: &[Value]) -> Result<Option<Vec<Path>>, OutOfMemory>
    ensures { IfOk result (λ found. option_map (λ paths. paths.items) found ≡ all_as as_path (items_of (trees_of items.now))) }
{
    let mut paths = Vec::new(alloc);
    for item in items {
        match path_in(item) {
            Some(path) => paths.push(path.copy()?)?,
            None => return Ok(None),
        }
    }
    Ok(Some(paths))
}

// The integer that a value is.
fn int_in(value: &Value) -> Option<i64>
    ensures { result ≡ as_int (tree_of value.now) }
{
    match value {
        Value::Int(n) => Some(*n),
        _ => None,
    }
}

// The text that a value is.
fn text_in(value: &Value) -> Option<&str>
    ensures { option_map (λ text. text.now) result ≡ as_text (tree_of value.now) }
{
    match value {
        Value::Text(text) => Some(text.as_str()),
        _ => None,
    }
}

// The path that a value is.
fn path_in(value: &Value) -> Option<&Path>
    ensures { option_map (λ path. path.now) result ≡ as_path (tree_of value.now) }
{
    match value {
        Value::Path(path) => Some(path),
        _ => None,
    }
}

fn sorted_ints(alloc: Global, mut ints: Vec<i64>) -> Result<Value, BuiltinFault>
    ensures { AnswerAgrees result (spec_made (TList (items_of (map TInt (sorted_by int_cmp ints.items))))) }
{
    ints.sort()?;
    made(Value::List(list_of_ints(alloc, ints.as_slice())?))
}

fn sorted_texts(alloc: Global, mut texts: Vec<&str>) -> Result<Value, BuiltinFault>
    ensures { AnswerAgrees result (spec_made (TList (items_of (map TText (sorted_by (slice_cmp nat_cmp) (map (λ text. text.now) texts.entry.items)))))) }
{
    texts.sort()?;
    made(Value::List(list_of_texts(alloc, texts.as_slice())?))
}

fn sorted_paths(alloc: Global, mut paths: Vec<Path>) -> Result<Value, BuiltinFault>
    ensures { AnswerAgrees result (spec_made (TList (items_of (map TPath (sorted_by (slice_cmp nat_cmp) paths.items))))) }
{
    paths.sort()?;
    made(Value::List(list_of_paths(alloc, paths.as_slice())?))
}

fn list_of_ints(alloc: Global, ints: &[i64]) -> Result<Items, OutOfMemory>
    ensures { IfOk result (λ items. items ≡ map TInt ints.now) }
{
    let mut items = Items::new();
    for n in ints {
        items.push(alloc, Value::Int(*n))?;
    }
    Ok(items)
}

fn list_of_texts(alloc: Global, texts: &[&str]) -> Result<Items, OutOfMemory>
    ensures { IfOk result (λ items. items ≡ map TText (map (λ text. text.now) texts.now)) }
{
    let mut items = Items::new();
    for text in texts {
        items.push(alloc, Value::Text(Text::new(alloc, text)?))?;
    }
    Ok(items)
}

fn list_of_paths(alloc: Global, paths: &[Path]) -> Result<Items, OutOfMemory>
    ensures { IfOk result (λ items. items ≡ map TPath paths.now) }
{
    let mut items = Items::new();
    for path in paths {
        items.push(alloc, Value::Path(path.copy()?))?;
    }
    Ok(items)
}
