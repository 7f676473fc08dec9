//! Values, and the items of lists and tuples.
ghost use Rattle.std.specs.Prelude.{◌≡◌, ◌+◌, max, length, [], ◌∷◌, ◌++◌, IfOk, OnOk, OnErr};
ghost use Rattle.pie_value.specs.Tree.{items_of};
ghost use Rattle.pie_value.specs.Values.{tree_of, trees_of, held};
ghost use Rattle.pie_value.specs.Canonical.{enc};
ghost use Rattle.pie_value.specs.Size.{size_of, sizes_of, depth_of, deepest_of, capped_64, capped_32};

use crate::Blob;
use pie_base::{OutOfMemory, Path, Text};
use std::alloc::Global;
use std::marker::Model;
use std::rc::Rc;

/// What an expression of the language can give. Contracts see a value by its tree.
/// Dropping a value goes as deep as the value does, so whoever builds one has to bound its depth.
/// Rule: docs/LANGUAGE.md, "Values".
#[cycle(value)]
#[derive(Drop)]
pub enum Value {
    Unit,
    Bool(bool),
    Int(i64),
    Text(Text),
    Path(Path),
    List(Items),
    Tuple(Items),
    Null,
    Bytes(Blob),
}

/// The items of a list or of a tuple. Contracts see the list of their trees. A copy shares the contents.
// No items are no pointer, since `new` takes no memory. Size and depth are kept, so that asking for them
// after each push costs no walk.
#[cycle(value)]
#[derive(Drop)]
pub struct Items {
    values: Option<Rc<Vec<Value>>>,
    bytes: u64,
    deepest: u32,
}

impl Model for Items {
    ghost use Rattle.std.specs.Prelude.{List};
    ghost use Rattle.pie_value.specs.Tree.{Tree, weight};
    ghost use Rattle.pie_value.specs.inner.Codes.{coded_trees};
    ghost use Rattle.pie_value.specs.Size.{Measures};

    ghost Value = { List Tree };

    ghost coded = { coded_trees };

    ghost use Rattle.pie_value.specs.Values.{held};

    ghost view = { λ a. held a.values };

    ghost invariant = { λ a. Measures (held a.values) a.bytes a.deepest };

    ghost size = { weight };

    ghost use Rattle.pie_value.specs.inner.Falls.{inside_le_weight};

    ghost size_decreases = { λ a h. inside_le_weight a };
}

impl Items {
    /// No items.
    pub fn new() -> Items
        ensures { result ≡ [] }
    {
        Items {
            values: None,
            bytes: 0,
            deepest: 0,
        }
    }

    /// Appends a value. Where the contents are shared, they are copied into a list of their own first.
    pub fn push(&mut self, alloc: Global, value: Value) -> Result<(), OutOfMemory>
        ensures pushed { OnOk result (self.new ≡ self.old ++ tree_of value ∷ []) }
        ensures unchanged { OnErr result (self.new ≡ self.old) }
    {
        let bytes = self.bytes.saturating_add(size(&value));
        let deepest = deeper(self.deepest, depth(&value));
        append(&mut self.values, alloc, value)?;
        self.bytes = bytes;
        self.deepest = deepest;
        Ok(())
    }

    pub fn as_slice(&self) -> &[Value]
        ensures { trees_of result.now ≡ self.now }
    {
        slice_of(&self.values)
    }

    /// Equal items, which share the contents.
    pub fn copy(&self) -> Result<Items, OutOfMemory>
        ensures { IfOk result (λ copy. copy ≡ self.now) }
    {
        let values = match &self.values {
            Some(values) => Some(values.clone()?),
            None => None,
        };
        Ok(Items {
            values,
            bytes: self.bytes,
            deepest: self.deepest,
        })
    }

    /// How many canonical bytes the items have together, or the greatest number of 64 bits where there are more.
    pub fn bytes(&self) -> u64
        ensures { result ≡ capped_64 (sizes_of (items_of self.now)) }
    {
        self.bytes
    }

    /// The depth of the deepest item, 0 without items, or the greatest number of 32 bits where it is deeper.
    pub fn deepest(&self) -> u32
        ensures { result ≡ capped_32 (deepest_of (items_of self.now)) }
    {
        self.deepest
    }
}

impl Value {
    /// An equal value, which shares the contents.
    pub fn copy(&self) -> Result<Value, OutOfMemory>
        ensures { IfOk result (λ copy. copy ≡ self.now) }
    {
        match self {
            Value::Unit => Ok(Value::Unit),
            Value::Bool(b) => Ok(Value::Bool(*b)),
            Value::Int(n) => Ok(Value::Int(*n)),
            Value::Text(text) => Ok(Value::Text(text.copy()?)),
            Value::Path(path) => Ok(Value::Path(path.copy()?)),
            Value::List(items) => Ok(Value::List(items.copy()?)),
            Value::Tuple(items) => Ok(Value::Tuple(items.copy()?)),
            Value::Null => Ok(Value::Null),
            Value::Bytes(blob) => Ok(Value::Bytes(blob.copy()?)),
        }
    }
}

/// How many canonical bytes the value has, or the greatest number of 64 bits where there are more.
#[tactic(auto, using(crate::proofs::Lengths::length_enc))]
pub fn size(value: &Value) -> u64
    ensures size { result ≡ capped_64 (size_of (tree_of value.now)) }
    ensures bytes { result ≡ capped_64 (length (enc (tree_of value.now))) }
{
    match value {
        Value::Unit | Value::Null => 1,
        Value::Bool(_) => 2,
        Value::Int(_) => 9,
        Value::Text(text) => counted(text.as_str().len()),
        Value::Path(path) => counted(path.as_str().len()),
        Value::List(items) | Value::Tuple(items) => items.bytes().saturating_add(5),
        Value::Bytes(blob) => counted(blob.as_slice().len()),
    }
}

/// How deep the value nests, 1 without items, or the greatest number of 32 bits where it nests deeper.
pub fn depth(value: &Value) -> u32
    ensures { result ≡ capped_32 (depth_of (tree_of value.now)) }
{
    match value {
        Value::List(items) | Value::Tuple(items) => items.deepest().saturating_add(1),
        _ => 1,
    }
}

fn deeper(a: u32, b: u32) -> u32
    ensures { result ≡ max a b }
{
    if a < b { b } else { a }
}

// How many bytes a tag, a length and so many bytes are.
fn counted(len: usize) -> u64
    ensures { result ≡ capped_64 (5 + len) }
{
    (len as u64).saturating_add(5)
}

fn slice_of(values: &Option<Rc<Vec<Value>>>) -> &[Value]
    ensures { trees_of result.now ≡ held values.now }
{
    match values {
        Some(values) => values.as_slice(),
        None => &[],
    }
}

// Appends a value to contents of one owner in place, and to shared ones in a list of their own.
fn append(
    shared: &mut Option<Rc<Vec<Value>>>,
    alloc: Global,
    value: Value,
) -> Result<(), OutOfMemory>
    ensures pushed { OnOk result (held shared.new ≡ held shared.old ++ tree_of value ∷ []) }
    ensures unchanged { OnErr result (held shared.new ≡ held shared.old) }
{
    if let Some(pointer) = shared {
        if let Some(values) = Rc::get_mut(pointer) {
            values.push(value)?;
            return Ok(());
        }
    }
    let mut values = copies(alloc, slice_of(shared))?;
    values.push(value)?;
    *shared = Some(Rc::new(alloc, values)?);
    Ok(())
}

// Copies of some values, in a list of their own that has room for one more: most tasks have one argument.
fn copies(alloc: Global, values: &[Value]) -> Result<Vec<Value>, OutOfMemory>
    ensures { IfOk result (λ copied. trees_of copied.items ≡ trees_of values.now) }
{
    let mut copied = Vec::with_capacity(alloc, values.len().saturating_add(1))?;
    for value in values {
        copied.push(value.copy()?)?;
    }
    Ok(copied)
}
