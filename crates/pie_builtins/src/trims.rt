//! Texts without the spaces at their ends.
ghost use Rattle.std.specs.Prelude.{◌≡◌, reverse};
ghost use Rattle.pie_value.specs.declared.builtin.Builtin.TheVariants.{Trim};
ghost use Rattle.pie_value.specs.Values.{trees_of};
ghost use Rattle.pie_value.specs.BuiltinTexts.{is_space as spec_is_space, after_spaces as spec_after_spaces};
ghost use Rattle.pie_value.specs.Builtins.{answer_of};
ghost use Rattle.pie_builtins.specs.Agreement.{AnswerAgrees};

use crate::BuiltinFault;
use crate::fault::{made_text, refused};
use pie_base::FaultKind;
use pie_value::Value;
use std::alloc::Global;

/// The text without spaces, tabs, newlines and carriage returns at both ends.
pub fn trim(alloc: Global, args: &[Value]) -> Result<Value, BuiltinFault>
    ensures { AnswerAgrees result (answer_of Trim (trees_of args.now)) }
{
    match args {
        [Value::Text(text)] => made_text(alloc, before_spaces(after_spaces(text.as_str()))),
        _ => refused(FaultKind::Unknown),
    }
}

// The text from its first byte on that is no space.
#[tactic(auto, using(crate::proofs::Walks::front_walk))]
fn after_spaces(text: &str) -> &str
    ensures { result.now ≡ spec_after_spaces text.now }
{
    let mut rest = text;
    while let Some(byte) = rest.as_bytes().first() {
        if !is_space(*byte) {
            return rest;
        }
        rest = &rest[1..];
    }
    rest
}

// The text up to its last byte that is no space.
#[tactic(auto, using(crate::proofs::Walks::back_walk))]
fn before_spaces(text: &str) -> &str
    ensures { result.now ≡ reverse (spec_after_spaces (reverse text.now)) }
{
    let mut rest = text;
    while let Some(byte) = rest.as_bytes().last() {
        if !is_space(*byte) {
            return rest;
        }
        rest = &rest[..rest.len() - 1];
    }
    rest
}

fn is_space(byte: u8) -> bool
    ensures { result ≡ spec_is_space byte }
{
    byte == b' ' || byte == b'\t' || byte == b'\n' || byte == b'\r'
}
