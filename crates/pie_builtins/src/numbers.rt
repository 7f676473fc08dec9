//! The built-in functions between numbers and texts.
ghost use Rattle.std.specs.Prelude.{◌≡◌};
ghost use Rattle.pie_value.specs.declared.builtin.Builtin.TheVariants.{Len, ParseInt, ToText};
ghost use Rattle.pie_value.specs.Tree.{items_of, count_of};
ghost use Rattle.pie_value.specs.Values.{trees_of};
ghost use Rattle.pie_value.specs.BuiltinForms.{made_number};
ghost use Rattle.pie_value.specs.BuiltinTexts.{int_spelt as spec_int_spelt};
ghost use Rattle.pie_value.specs.Builtins.{answer_of};
ghost use Rattle.pie_builtins.specs.Agreement.{AnswerAgrees};

use crate::BuiltinFault;
use crate::fault::{made, made_length, made_text, refused};
use pie_base::FaultKind;
use pie_value::{Items, Value};
use std::alloc::Global;

/// An integer in decimal digits, `true` or `false`, or the text of a path.
pub fn to_text(alloc: Global, args: &[Value]) -> Result<Value, BuiltinFault>
    ensures { AnswerAgrees result (answer_of ToText (trees_of args.now)) }
{
    match args {
        [Value::Int(n)] => {
            let text = format!(in alloc; "{n}")?;
            made_text(alloc, text.as_str())
        }
        [Value::Bool(true)] => made_text(alloc, "true"),
        [Value::Bool(false)] => made_text(alloc, "false"),
        [Value::Path(path)] => made_text(alloc, path.as_str()),
        _ => refused(FaultKind::Unknown),
    }
}

/// The bytes of a text or of bytes, or the items of a list.
pub fn len(args: &[Value]) -> Result<Value, BuiltinFault>
    ensures { AnswerAgrees result (answer_of Len (trees_of args.now)) }
{
    match args {
        [Value::Text(text)] => made_length(text.as_str().len()),
        [Value::Bytes(bytes)] => made_length(bytes.as_slice().len()),
        [Value::List(items)] => count(items),
        _ => refused(FaultKind::Unknown),
    }
}

/// The integer that a text spells, or null where it spells none of 64 bits.
pub fn parse_int(args: &[Value]) -> Result<Value, BuiltinFault>
    ensures { AnswerAgrees result (answer_of ParseInt (trees_of args.now)) }
{
    match args {
        [Value::Text(text)] => match int_spelt(text.as_str()) {
            Some(n) => made(Value::Int(n)),
            None => made(Value::Null),
        },
        _ => refused(FaultKind::Unknown),
    }
}

// A minus sign if the integer is below 0, and then digits. No plus sign may stand there.
fn int_spelt(text: &str) -> Option<i64>
    ensures { result ≡ spec_int_spelt text.now }
{
    if text.as_bytes().starts_with(b"+") {
        return None;
    }
    text.parse::<i64>().ok()
}

// How many items there are.
#[tactic(auto, using(pie_value::proofs::Elements::count_of_trees))]
fn count(items: &Items) -> Result<Value, BuiltinFault>
    ensures { AnswerAgrees result (made_number (count_of (items_of items.now))) }
{
    made_length(items.as_slice().len())
}
