//! The built-in functions that take a text apart at the occurrences of another. Each goes through the text once,
//! from the left, and takes no more memory than a value may have and an argument more.
ghost use Rattle.std.specs.Prelude.{◌≡◌, ◌<◌, ◌++◌, ◌∷◌, [], codes, length, IfOk, MatchOption, None, OnOk};
ghost use Rattle.std.specs.Str.{IsUtf8};
ghost use Rattle.std.specs.Str.Pattern.{FindsText, SplitsAroundMatch};
ghost use Rattle.pie_value.specs.Tree.{TText};
ghost use Rattle.pie_value.specs.declared.builtin.Builtin.TheVariants.{Lines, Replace, Split};
ghost use Rattle.pie_value.specs.Values.{tree_of, trees_of};
ghost use Rattle.pie_value.specs.BuiltinItems.{text_list};
ghost use Rattle.pie_value.specs.BuiltinTexts.{lines_of, pieces, without_last_empty, replaced as spec_replaced, with_between};
ghost use Rattle.pie_value.specs.BuiltinForms.{made as spec_made};
ghost use Rattle.pie_value.specs.Builtins.{answer_of, split_answer};
ghost use Rattle.pie_builtins.specs.Agreement.{AnswerAgrees};
ghost use Rattle.pie_builtins.specs.Laws.{AreLines, AreSplit, IsReplaced, IsTexts, LawOf};

use crate::BuiltinFault;
use crate::fault::{made, made_text, refused};
use memchr::memmem::Finder;
use pie_base::{FaultKind, MAX_VALUE_BYTES, OutOfMemory, Text};
use pie_value::{Items, Value};
use std::alloc::Global;

/// The pieces between the occurrences of the second text in the first.
pub fn split(alloc: Global, args: &[Value]) -> Result<Value, BuiltinFault>
    ensures answer { AnswerAgrees result (answer_of Split (trees_of args.now)) }
    ensures law { IfOk result (λ value. LawOf Split (trees_of args.now) (tree_of value)) }
{
    match args {
        [Value::Text(text), Value::Text(part)] => split_at(alloc, text.as_str(), part.as_str()),
        _ => refused(FaultKind::Unknown),
    }
}

/// The pieces between newlines, without a last empty one.
pub fn lines(alloc: Global, args: &[Value]) -> Result<Value, BuiltinFault>
    ensures answer { AnswerAgrees result (answer_of Lines (trees_of args.now)) }
    ensures law { IfOk result (λ value. LawOf Lines (trees_of args.now) (tree_of value)) }
{
    match args {
        [Value::Text(text)] => lines_in(alloc, text.as_str()),
        _ => refused(FaultKind::Unknown),
    }
}

/// The first text, in which the occurrences of the second become the third.
pub fn replace(alloc: Global, args: &[Value]) -> Result<Value, BuiltinFault>
    ensures answer { AnswerAgrees result (answer_of Replace (trees_of args.now)) }
    ensures law { IfOk result (λ value. LawOf Replace (trees_of args.now) (tree_of value)) }
{
    match args {
        [Value::Text(text), Value::Text(part), Value::Text(by)] => {
            replaced(alloc, text.as_str(), part.as_str(), by.as_str())
        }
        _ => refused(FaultKind::Unknown),
    }
}

// The pieces between the occurrences of the second text in the first.
#[tactic(auto, using(crate::proofs::Parting::split_at_none, crate::proofs::Parting::split_at_some))]
fn split_at(alloc: Global, text: &str, part: &str) -> Result<Value, BuiltinFault>
    ensures answer { AnswerAgrees result (split_answer text.now part.now) }
    ensures law { IfOk result (λ value. IsTexts (AreSplit text.now part.now) (tree_of value)) }
{
    if part.is_empty() {
        return refused(FaultKind::Range);
    }
    all_pieces(alloc, text, &Finder::new(part.as_bytes()))
}

// The pieces between newlines, without a last empty one.
fn lines_in(alloc: Global, text: &str) -> Result<Value, BuiltinFault>
    ensures answer { AnswerAgrees result (spec_made (text_list (lines_of text.now))) }
    ensures law { IfOk result (λ value. IsTexts (AreLines text.now (codes "\n")) (tree_of value)) }
{
    all_lines(alloc, text, &Finder::new(b"\n"))
}

// The first text, in which the occurrences of the second become the third.
#[tactic(auto, using(crate::proofs::Parting::replaced_none, crate::proofs::Parting::replaced_some))]
fn replaced(alloc: Global, text: &str, part: &str, by: &str) -> Result<Value, BuiltinFault>
    ensures answer { AnswerAgrees result (spec_made (TText (spec_replaced text.now part.now by.now))) }
    ensures law { IfOk result (λ value. IsReplaced text.now part.now by.now (tree_of value)) }
{
    if part.is_empty() {
        return made_text(alloc, text);
    }
    all_replaced(alloc, text, &Finder::new(part.as_bytes()), by)
}

// The pieces between the occurrences of a text that isn't empty.
#[tactic(auto, using(crate::proofs::Parting::grows, crate::proofs::Parting::ends, crate::proofs::Parting::shorter, crate::proofs::Joining::too_many_items))]
fn all_pieces(alloc: Global, text: &str, part: &Finder<'_>) -> Result<Value, BuiltinFault>
    requires some { 0 < length part.now }
    requires utf8 { IsUtf8 part.now }
    ensures { AnswerAgrees result (spec_made (text_list (pieces text.now part.now))) }
{
    let mut items = Items::new();
    let mut rest = text;
    while let Some((front, back)) = parted(rest, part) {
        if items.bytes() > MAX_VALUE_BYTES {
            return refused(FaultKind::Big);
        }
        push_text(&mut items, alloc, front)?;
        rest = back;
    }
    push_text(&mut items, alloc, rest)?;
    made(Value::List(items))
}

// The same without a last piece that is empty.
#[tactic(auto, using(crate::proofs::Walks::lines_walk))]
fn all_lines(alloc: Global, text: &str, part: &Finder<'_>) -> Result<Value, BuiltinFault>
    requires some { 0 < length part.now }
    requires utf8 { IsUtf8 part.now }
    ensures { AnswerAgrees result (spec_made (text_list (without_last_empty (pieces text.now part.now)))) }
{
    let mut items = Items::new();
    let mut rest = text;
    while let Some((front, back)) = parted(rest, part) {
        if items.bytes() > MAX_VALUE_BYTES {
            return refused(FaultKind::Big);
        }
        push_text(&mut items, alloc, front)?;
        rest = back;
    }
    if rest.is_empty() {
        return made(Value::List(items));
    }
    push_text(&mut items, alloc, rest)?;
    made(Value::List(items))
}

// The text with another in place of the occurrences of one that isn't empty.
#[tactic(auto, using(crate::proofs::Parting::puts, crate::proofs::Parting::puts_last, crate::proofs::Parting::shorter, crate::proofs::Joining::too_long))]
fn all_replaced(
    alloc: Global,
    text: &str,
    part: &Finder<'_>,
    by: &str,
) -> Result<Value, BuiltinFault>
    requires some { 0 < length part.now }
    requires utf8 { IsUtf8 part.now }
    ensures { AnswerAgrees result (spec_made (TText (with_between by.now (pieces text.now part.now)))) }
{
    let mut out = String::new(alloc);
    let mut rest = text;
    while let Some((front, back)) = parted(rest, part) {
        if out.len() as u64 > MAX_VALUE_BYTES {
            return refused(FaultKind::Big);
        }
        out.push_str(front)?;
        out.push_str(by)?;
        rest = back;
    }
    out.push_str(rest)?;
    made_text(alloc, out.as_str())
}

// What stands before the first occurrence of a text that isn't empty, and what stands after it.
#[tactic(auto, using(crate::proofs::Searches::not_found, crate::proofs::Searches::cut_before, crate::proofs::Searches::cut_after))]
fn parted<'t>(text: &'t str, part: &Finder<'_>) -> Option<(&'t str, &'t str)>
    requires some { 0 < length part.now }
    requires utf8 { IsUtf8 part.now }
    ensures { MatchOption result (FindsText part.now text.now None) (λ x. SplitsAroundMatch (FindsText part.now) text.now x.0.now x.1.now) }
{
    let at = part.find(text.as_bytes())?;
    Some((&text[..at], &text[at + part.needle().len()..]))
}

// One more text.
fn push_text(items: &mut Items, alloc: Global, text: &str) -> Result<(), OutOfMemory>
    ensures { OnOk result (items.new ≡ items.old ++ TText text.now ∷ []) }
{
    let text = Text::new(alloc, text)?;
    items.push(alloc, Value::Text(text))
}
