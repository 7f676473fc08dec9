//! The built-in functions on bytes.
ghost use Rattle.std.specs.Prelude.{true, cond};
ghost use Rattle.std.specs.Str.{is_utf8};
ghost use Rattle.pie_value.specs.Tree.{TBytes, TNull, TText};
ghost use Rattle.pie_value.specs.declared.builtin.Builtin.TheVariants.{FromBytes, SliceBytes, ToBytes};
ghost use Rattle.pie_value.specs.Values.{trees_of};
ghost use Rattle.pie_value.specs.BuiltinForms.{made as spec_made, cut_out};
ghost use Rattle.pie_value.specs.Builtins.{answer_of};
ghost use Rattle.pie_builtins.specs.Agreement.{AnswerAgrees};

use crate::BuiltinFault;
use crate::fault::{made, made_text, refused};
use pie_base::FaultKind;
use pie_value::{Blob, Value};
use std::alloc::Global;

/// The bytes of a text.
pub fn to_bytes(alloc: Global, args: &[Value]) -> Result<Value, BuiltinFault>
    ensures { AnswerAgrees result (answer_of ToBytes (trees_of args.now)) }
{
    match args {
        [Value::Text(text)] => made_bytes(alloc, text.as_str().as_bytes()),
        _ => refused(FaultKind::Unknown),
    }
}

/// The text that the bytes spell, or null where they aren't UTF-8.
pub fn from_bytes(alloc: Global, args: &[Value]) -> Result<Value, BuiltinFault>
    ensures { AnswerAgrees result (answer_of FromBytes (trees_of args.now)) }
{
    match args {
        [Value::Bytes(bytes)] => text_spelt(alloc, bytes.as_slice()),
        _ => refused(FaultKind::Unknown),
    }
}

/// The bytes from the first number up to before the second.
pub fn slice_bytes(alloc: Global, args: &[Value]) -> Result<Value, BuiltinFault>
    ensures { AnswerAgrees result (answer_of SliceBytes (trees_of args.now)) }
{
    match args {
        [Value::Bytes(bytes), Value::Int(from), Value::Int(to)] => {
            cut_bytes(alloc, bytes.as_slice(), *from, *to)
        }
        _ => refused(FaultKind::Unknown),
    }
}

// A new value of these bytes, whose copies share them.
fn made_bytes(alloc: Global, bytes: &[u8]) -> Result<Value, BuiltinFault>
    ensures { AnswerAgrees result (spec_made (TBytes bytes.now)) }
{
    let bytes = Vec::from_slice(alloc, bytes)?;
    made(Value::Bytes(Blob::shared(alloc, bytes)?))
}

// The text that the bytes spell, or null where they aren't UTF-8.
#[tactic(auto, using(pie_value::proofs::TextTests::utf8, pie_value::proofs::TextTests::not_utf8))]
fn text_spelt(alloc: Global, bytes: &[u8]) -> Result<Value, BuiltinFault>
    ensures { AnswerAgrees result (cond (is_utf8 bytes.now) (spec_made (TText bytes.now)) (spec_made TNull)) }
{
    match str::from_utf8(bytes) {
        Ok(text) => made_text(alloc, text),
        Err(_) => made(Value::Null),
    }
}

// The bytes from one place up to before another.
#[tactic(auto, using(crate::proofs::Cuts::between))]
fn cut_bytes(alloc: Global, bytes: &[u8], from: i64, to: i64) -> Result<Value, BuiltinFault>
    ensures { AnswerAgrees result (cut_out TBytes (λ k. true) bytes.now from to) }
{
    let Ok(from) = usize::try_from(from) else {
        return refused(FaultKind::Range);
    };
    let Ok(to) = usize::try_from(to) else {
        return refused(FaultKind::Range);
    };
    if from <= to && to <= bytes.len() {
        made_bytes(alloc, &bytes[from..to])
    } else {
        refused(FaultKind::Range)
    }
}
