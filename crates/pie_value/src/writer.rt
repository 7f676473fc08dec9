//! Writing canonical bytes. Rule: docs/FORMATS.md, "Values".
//! A value is a tag and what it holds: an integer in eight bytes, a text, path or blob behind its length, and
//! items behind their number. Numbers are big endian, lengths have four bytes.
ghost use Rattle.std.specs.Prelude.{◌≡◌, ℕ, ◌+◌, ◌<◌, ◌^◌, List, [], ◌∷◌, ◌++◌, length, IfOk, OnOk};
ghost use Rattle.std.specs.Str.{IsUtf8};
ghost use Rattle.pie_value.specs.Tree.{items_of};
ghost use Rattle.pie_value.specs.Values.{tree_of, trees_of};
ghost use Rattle.pie_value.specs.Canonical.{be32, counted, enc, encs, enc_items, enc_task, HasShortParts, HaveShortParts, HasTrueLeaves};
ghost use Rattle.pie_value.specs.Canonical.{HaveTrueLeaves, IsEncodable, IsEncodableTask, IsCanonical, IsCanonicalTask};
ghost use Rattle.pie_value.specs.Reading.{value_whole, task_prefix};

use crate::{Items, Task, Value, size};
use pie_base::OutOfMemory;
use std::alloc::Global;

/// The canonical bytes of a value.
#[tactic(auto, using(crate::proofs::Decoded::whole_again))]
pub fn encode(alloc: Global, value: &Value) -> Result<Vec<u8>, OutOfMemory>
    requires { IsEncodable (tree_of value.now) }
    ensures bytes { IfOk result (λ bytes. bytes.items ≡ enc (tree_of value.now)) }
    ensures canonical { IfOk result (λ bytes. IsCanonical (tree_of value.now) bytes.items) }
    ensures read_back { IfOk result (λ bytes. value_whole bytes.items ≡ Ok (tree_of value.now, [])) }
{
    let mut out = Vec::with_capacity(alloc, size(value) as usize)?;
    put(&mut out, value)?;
    Ok(out)
}

/// The canonical bytes of a task.
#[tactic(auto, using(crate::proofs::Decoded::task_whole_again))]
pub fn encode_task(alloc: Global, task: &Task) -> Result<Vec<u8>, OutOfMemory>
    requires { IsEncodableTask task.now }
    ensures bytes { IfOk result (λ bytes. bytes.items ≡ enc_task task.now) }
    ensures canonical { IfOk result (λ bytes. IsCanonicalTask task.now bytes.items) }
    ensures read_back { IfOk result (λ bytes. task_prefix bytes.items ≡ Ok (task.now, [])) }
{
    let mut out = Vec::with_capacity(alloc, task.size() as usize)?;
    put_task(&mut out, task)?;
    Ok(out)
}

/// Appends the canonical bytes of a value. After an error it isn't said what was appended.
pub fn put_value(out: &mut Vec<u8>, value: &Value) -> Result<(), OutOfMemory>
    requires { IsEncodable (tree_of value.now) }
    ensures written { OnOk result (out.new.items ≡ out.old.items ++ enc (tree_of value.now)) }
    ensures leaves { OnOk result (HasTrueLeaves (tree_of value.now)) }
{
    put(out, value)
}

/// Appends the canonical bytes of a task. After an error it isn't said what was appended.
pub fn put_task(out: &mut Vec<u8>, task: &Task) -> Result<(), OutOfMemory>
    requires { IsEncodableTask task.now }
    ensures written { OnOk result (out.new.items ≡ out.old.items ++ enc_task task.now) }
    ensures name { OnOk result (IsUtf8 task.now.func) }
    ensures leaves { OnOk result (HaveTrueLeaves (items_of task.now.args)) }
{
    put_counted(out, task.func.as_str().as_bytes())?;
    put_items(out, &task.args)
}

// Each of these appends to what is there.
#[cycle(writing)]
#[tactic(auto, using(crate::proofs::Elements::count_of_items, crate::proofs::Elements::trees_left, crate::proofs::Elements::mass_at))]
fn put(out: &mut Vec<u8>, value: &Value) -> Result<(), OutOfMemory>
    requires { HasShortParts (tree_of value.now) }
    ensures written { OnOk result (out.new.items ≡ out.old.items ++ enc (tree_of value.now)) }
    ensures leaves { OnOk result (HasTrueLeaves (tree_of value.now)) }
{
    match value {
        Value::Unit => put_bytes(out, &[0]),
        Value::Bool(b) => put_bytes(out, &[1, u8::from(*b)]),
        Value::Int(n) => {
            put_bytes(out, &[2])?;
            put_bytes(out, &n.to_be_bytes())
        }
        Value::Text(text) => {
            put_bytes(out, &[3])?;
            put_counted(out, text.as_str().as_bytes())
        }
        Value::Path(path) => {
            put_bytes(out, &[4])?;
            put_counted(out, path.as_str().as_bytes())
        }
        Value::List(items) => {
            put_bytes(out, &[5])?;
            put_items(out, items)
        }
        Value::Tuple(items) => {
            put_bytes(out, &[6])?;
            put_items(out, items)
        }
        Value::Null => put_bytes(out, &[7]),
        Value::Bytes(blob) => {
            put_bytes(out, &[8])?;
            put_counted(out, blob.as_slice())
        }
    }
}

#[cycle(writing)]
#[tactic(auto, using(crate::proofs::Elements::count_of_items, crate::proofs::Elements::trees_left, crate::proofs::Elements::mass_at))]
fn put_items(out: &mut Vec<u8>, items: &Items) -> Result<(), OutOfMemory>
    requires few { length items.now < 2 ^ 32 }
    requires short { HaveShortParts (items_of items.now) }
    ensures written { OnOk result (out.new.items ≡ out.old.items ++ enc_items (items_of items.now)) }
    ensures leaves { OnOk result (HaveTrueLeaves (items_of items.now)) }
{
    let values = items.as_slice();
    put_len(out, values.len())?;
    put_all(out, values)?;
    Ok(())
}

#[cycle(writing)]
#[tactic(auto, using(crate::proofs::Elements::count_of_items, crate::proofs::Elements::trees_left, crate::proofs::Elements::mass_at))]
fn put_all(out: &mut Vec<u8>, values: &[Value]) -> Result<(), OutOfMemory>
    requires { HaveShortParts (items_of (trees_of values.now)) }
    ensures written { OnOk result (out.new.items ≡ out.old.items ++ encs (items_of (trees_of values.now))) }
    ensures leaves { OnOk result (HaveTrueLeaves (items_of (trees_of values.now))) }
{
    for value in values {
        put(out, value)?;
    }
    Ok(())
}

// Bytes behind their length.
fn put_counted(out: &mut Vec<u8>, bytes: &[u8]) -> Result<(), OutOfMemory>
    requires { length bytes.now < 2 ^ 32 }
    ensures { OnOk result (out.new.items ≡ out.old.items ++ counted bytes.now) }
{
    put_len(out, bytes.len())?;
    put_bytes(out, bytes)
}

#[tactic(auto, unfolding(crate::specs::Canonical::be32))]
fn put_len(out: &mut Vec<u8>, len: usize) -> Result<(), OutOfMemory>
    requires { len < 2 ^ 32 }
    ensures { OnOk result (out.new.items ≡ out.old.items ++ be32 len) }
{
    put_bytes(out, &(len as u32).to_be_bytes())
}

fn put_bytes(out: &mut Vec<u8>, bytes: &[u8]) -> Result<(), OutOfMemory>
    ensures { OnOk result (out.new.items ≡ out.old.items ++ bytes.now) }
{
    out.extend_from_slice(bytes)?;
    Ok(())
}
