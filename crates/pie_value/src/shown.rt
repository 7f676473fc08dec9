//! Values and tasks as text. Rule: docs/LANGUAGE.md, "Shown values".
ghost use Rattle.std.specs.Prelude.{◌≡◌, [], ◌∷◌, ◌++◌, string_bytes, IfOk, OnOk};
ghost use Rattle.std.specs.Char.{encode_utf8};
ghost use Rattle.std.specs.Fmt.{signed_decimal};
ghost use Rattle.pie_value.specs.Tree.{items_of};
ghost use Rattle.pie_value.specs.Values.{tree_of, trees_of};
ghost use Rattle.pie_value.specs.Shown.{escaped, quoted, shown_bytes, shown, listed, listed_on, shown_task};

use crate::{Task, Value};
use pie_base::OutOfMemory;
use std::alloc::Global;

/// The value as it is printed: a text in quotes, with `\"`, `\\`, `\n` and `\t`; a path as `path("...")`;
/// bytes as `bytes("...")` by two lower-case hexadecimal digits each; a list as `[a, b]`, a tuple as `(a, b)`.
pub fn show(alloc: Global, value: &Value) -> Result<String, OutOfMemory>
    ensures { IfOk result (λ text. string_bytes text ≡ shown (tree_of value.now)) }
{
    let mut out = String::new(alloc);
    put_value(alloc, &mut out, value)?;
    Ok(out)
}

/// The task as it is printed: its name, and its arguments in round brackets.
pub fn show_task(alloc: Global, task: &Task) -> Result<String, OutOfMemory>
    ensures { IfOk result (λ text. string_bytes text ≡ shown_task task.now) }
{
    let mut out = String::new(alloc);
    put(&mut out, task.func.as_str())?;
    put(&mut out, "(")?;
    put_items(alloc, &mut out, task.args.as_slice())?;
    put(&mut out, ")")?;
    Ok(out)
}

// Each of these appends to what is there.
#[cycle(showing)]
#[tactic(auto, using(crate::proofs::Elements::trees_left, crate::proofs::Elements::mass_at))]
fn put_value(alloc: Global, out: &mut String, value: &Value) -> Result<(), OutOfMemory>
    ensures { OnOk result (string_bytes out.new ≡ string_bytes out.old ++ shown (tree_of value.now)) }
{
    match value {
        Value::Unit => put(out, "unit"),
        Value::Bool(b) => put(out, if *b { "true" } else { "false" }),
        Value::Int(n) => put_int(alloc, out, *n),
        Value::Text(text) => put_quoted(out, text.as_str()),
        Value::Path(path) => {
            put(out, "path(")?;
            put_quoted(out, path.as_str())?;
            put(out, ")")
        }
        Value::List(items) => {
            put(out, "[")?;
            put_items(alloc, out, items.as_slice())?;
            put(out, "]")
        }
        Value::Tuple(items) => {
            put(out, "(")?;
            put_items(alloc, out, items.as_slice())?;
            put(out, ")")
        }
        Value::Null => put(out, "null"),
        Value::Bytes(blob) => put_blob(alloc, out, blob.as_slice()),
    }
}

#[cycle(showing)]
#[tactic(auto, using(crate::proofs::Elements::trees_left, crate::proofs::Elements::mass_at))]
fn put_items(alloc: Global, out: &mut String, values: &[Value]) -> Result<(), OutOfMemory>
    ensures { OnOk result (string_bytes out.new ≡ string_bytes out.old ++ listed (items_of (trees_of values.now))) }
{
    match values.split_first() {
        None => Ok(()),
        Some((first, rest)) => {
            put_value(alloc, out, first)?;
            put_rest(alloc, out, rest)
        }
    }
}

#[cycle(showing)]
#[tactic(auto, using(crate::proofs::Elements::trees_left, crate::proofs::Elements::mass_at))]
fn put_rest(alloc: Global, out: &mut String, values: &[Value]) -> Result<(), OutOfMemory>
    ensures { OnOk result (string_bytes out.new ≡ string_bytes out.old ++ listed_on (items_of (trees_of values.now))) }
{
    for value in values {
        put(out, ", ")?;
        put_value(alloc, out, value)?;
    }
    Ok(())
}

fn put_int(alloc: Global, out: &mut String, n: i64) -> Result<(), OutOfMemory>
    ensures { OnOk result (string_bytes out.new ≡ string_bytes out.old ++ signed_decimal n) }
{
    let digits = format!(in alloc; "{n}")?;
    put(out, digits.as_str())
}

fn put_blob(alloc: Global, out: &mut String, bytes: &[u8]) -> Result<(), OutOfMemory>
    ensures { OnOk result (string_bytes out.new ≡ string_bytes out.old ++ shown_bytes bytes.now) }
{
    let digits = hex::encode(alloc, bytes)?;
    put(out, "bytes(")?;
    put_quoted(out, digits.as_str())?;
    put(out, ")")
}

fn put_quoted(out: &mut String, text: &str) -> Result<(), OutOfMemory>
    ensures { OnOk result (string_bytes out.new ≡ string_bytes out.old ++ quoted text.now) }
{
    put(out, "\"")?;
    put_escaped(out, text)?;
    put(out, "\"")
}

fn put_escaped(out: &mut String, text: &str) -> Result<(), OutOfMemory>
    ensures { OnOk result (string_bytes out.new ≡ string_bytes out.old ++ escaped text.now) }
{
    for c in text.chars() {
        put_char(out, c)?;
    }
    Ok(())
}

#[tactic(auto, using(crate::proofs::Escapes::escaped_plain, crate::proofs::Escapes::escaped_ascii))]
fn put_char(out: &mut String, c: char) -> Result<(), OutOfMemory>
    ensures { OnOk result (string_bytes out.new ≡ string_bytes out.old ++ escaped (encode_utf8 c)) }
{
    match c {
        '"' => put(out, "\\\""),
        '\\' => put(out, "\\\\"),
        '\n' => put(out, "\\n"),
        '\t' => put(out, "\\t"),
        _ => {
            out.push(c)?;
            Ok(())
        }
    }
}

fn put(out: &mut String, text: &str) -> Result<(), OutOfMemory>
    ensures { OnOk result (string_bytes out.new ≡ string_bytes out.old ++ text.now) }
{
    out.push_str(text)?;
    Ok(())
}
