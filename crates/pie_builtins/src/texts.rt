//! The built-in functions that cut a text, and its hash.
ghost use Rattle.std.specs.Prelude.{◌≡◌, ◌&&◌, nat_le, length, IsTrue, pos};
ghost use Rattle.std.specs.Str.{IsCharBoundary};
ghost use Rattle.pie_value.specs.Tree.{TText};
ghost use Rattle.pie_value.specs.declared.builtin.Builtin.TheVariants.{Sha256 as HashOf, Slice};
ghost use Rattle.pie_value.specs.Values.{trees_of};
ghost use Rattle.pie_value.specs.BuiltinTexts.{is_between_characters};
ghost use Rattle.pie_value.specs.BuiltinForms.{cut_out};
ghost use Rattle.pie_value.specs.Builtins.{answer_of};
ghost use Rattle.pie_builtins.specs.Agreement.{AnswerAgrees};

use crate::BuiltinFault;
use crate::fault::{made_text, refused};
use pie_base::FaultKind;
use pie_value::Value;
use sha2::{Digest, Sha256};
use std::alloc::Global;

/// The SHA-256 of the text in 64 lower-case hexadecimal digits.
pub fn sha256(alloc: Global, args: &[Value]) -> Result<Value, BuiltinFault>
    ensures { AnswerAgrees result (answer_of HashOf (trees_of args.now)) }
{
    match args {
        [Value::Text(text)] => {
            let digest = Sha256::digest(text.as_str().as_bytes());
            let digits = hex::encode(alloc, digest.as_slice())?;
            made_text(alloc, digits.as_str())
        }
        _ => refused(FaultKind::Unknown),
    }
}

/// The bytes from the first number up to before the second, where no character is cut.
pub fn slice(alloc: Global, args: &[Value]) -> Result<Value, BuiltinFault>
    ensures { AnswerAgrees result (answer_of Slice (trees_of args.now)) }
{
    match args {
        [Value::Text(text), Value::Int(from), Value::Int(to)] => {
            cut_text(alloc, text.as_str(), *from, *to)
        }
        _ => refused(FaultKind::Unknown),
    }
}

// The bytes from one place up to before another, where no character is cut.
fn cut_text(alloc: Global, text: &str, from: i64, to: i64) -> Result<Value, BuiltinFault>
    ensures { AnswerAgrees result (cut_out TText (is_between_characters text.now) text.now from to) }
{
    let Ok(from) = usize::try_from(from) else {
        return refused(FaultKind::Range);
    };
    let Ok(to) = usize::try_from(to) else {
        return refused(FaultKind::Range);
    };
    between(alloc, text, from, to)
}

// The same of places that are no numbers below 0.
#[tactic(auto, using(crate::proofs::Cuts::cut_there))]
fn between(alloc: Global, text: &str, from: usize, to: usize) -> Result<Value, BuiltinFault>
    ensures { AnswerAgrees result (cut_out TText (is_between_characters text.now) text.now (pos from) (pos to)) }
{
    if from <= to && may_cut(text, from) && may_cut(text, to) {
        made_text(alloc, &text[from..to])
    } else {
        refused(FaultKind::Range)
    }
}

// Whether the text has this place and no character stands across it.
fn may_cut(text: &str, at: usize) -> bool
    ensures test { result ≡ (nat_le at (length text.now) && is_between_characters text.now at) }
    ensures place { IsTrue result → IsCharBoundary text.now at }
{
    let bytes = text.as_bytes();
    if at < bytes.len() {
        bytes[at] < 128 || bytes[at] >= 192
    } else {
        at == bytes.len()
    }
}
