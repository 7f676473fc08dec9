//! What the answers of the outside give.
ghost use Rattle.pie_operators.specs.Effects.{content, content_or_null, digits_or_null, is_content as spec_is_content, may_observe as spec_may_observe};
ghost use Rattle.pie_operators.specs.Effects.{observed as spec_observed, required as spec_required, taken as spec_taken, text_read, written as spec_written};
ghost use Rattle.pie_operators.specs.inner.Agreement.{ResultAgrees};
ghost use Rattle.std.specs.Prelude.{◌≡◌, cond, Ok, Err};
ghost use Rattle.std.specs.Str.{is_utf8};
ghost use Rattle.pie_base.specs.declared.fault.FaultKind.TheVariants.{NotText};
ghost use Rattle.pie_value.specs.Tree.{TText};

use crate::fault::{made, refused};
use crate::{Observation, OperatorFault, Question};
use pie_base::{FaultKind, MAX_VALUE_BYTES, Path, Text};
use pie_value::{Answer, Blob, By, How, Value};
use std::alloc::Global;

/// What an answer to a question gives.
/// Rule: docs/LANGUAGE.md, "Effects".
pub fn taken(alloc: Global, question: &Question, answer: Answer) -> Result<Value, OperatorFault>
    ensures { ResultAgrees result (spec_taken question.now answer) }
{
    match question {
        Question::Observe(what, _) => observed(alloc, *what, answer),
        Question::Write(_, _) => written(&answer),
        Question::Require(_, how) => required(*how, answer),
    }
}

/// Whether a path may be observed so: only a source can be listed.
pub fn may_observe(what: Observation, path: &Path) -> bool
    ensures { result ≡ spec_may_observe what path.now }
{
    match what {
        Observation::List => path.is_source(),
        _ => true,
    }
}

/// Whether it is content that is observed, so that a later write to the path is refused.
pub fn is_content(what: Observation) -> bool
    ensures { result ≡ spec_is_content what }
{
    match what {
        Observation::List => false,
        _ => true,
    }
}

// What the answer to an observation gives.
fn observed(alloc: Global, what: Observation, answer: Answer) -> Result<Value, OperatorFault>
    ensures { ResultAgrees result (spec_observed what answer) }
{
    match (what, answer) {
        (Observation::Exists, Answer::Flag(flag)) => Ok(Value::Bool(flag)),
        (Observation::Read(by), Answer::Bytes(found)) => content_found(alloc, by, found),
        (Observation::Digest, Answer::Digest(found)) => digits_found(alloc, found),
        (Observation::List, Answer::Entries(entries)) => made(Value::List(entries)),
        (Observation::Exists, Answer::Clash) => refused(FaultKind::Clash),
        (Observation::Read(_), Answer::Clash) => refused(FaultKind::Clash),
        (Observation::Digest, Answer::Clash) => refused(FaultKind::Clash),
        _ => refused(FaultKind::Unknown),
    }
}

// What the answer to a write gives.
fn written(answer: &Answer) -> Result<Value, OperatorFault>
    ensures { ResultAgrees result (spec_written answer.now) }
{
    match answer {
        Answer::Wrote => Ok(Value::Unit),
        _ => refused(FaultKind::Unknown),
    }
}

// What the answer to a required task gives.
fn required(how: How, answer: Answer) -> Result<Value, OperatorFault>
    ensures { ResultAgrees result (spec_required how answer) }
{
    match (how, answer) {
        (How::Whole, Answer::Output(value)) => Ok(value),
        (How::Hashed, Answer::Output(value)) => Ok(value),
        (How::Ran, Answer::Ran) => Ok(Value::Unit),
        _ => refused(FaultKind::Unknown),
    }
}

fn content_found(alloc: Global, by: By, found: Option<Blob>) -> Result<Value, OperatorFault>
    ensures { ResultAgrees result (content_or_null by found) }
{
    match found {
        None => Ok(Value::Null),
        Some(bytes) => content_of(alloc, by, bytes),
    }
}

fn content_of(alloc: Global, by: By, bytes: Blob) -> Result<Value, OperatorFault>
    ensures { ResultAgrees result (content by bytes) }
{
    match by {
        By::Raw => made(Value::Bytes(bytes)),
        By::Hash => text_of(alloc, bytes.as_slice()),
        By::Mark => text_of(alloc, bytes.as_slice()),
    }
}

// The bytes as a text: first the limit, and then UTF-8.
fn text_of(alloc: Global, bytes: &[u8]) -> Result<Value, OperatorFault>
    ensures { ResultAgrees result (text_read bytes.now) }
{
    if (bytes.len() as u64).saturating_add(5) > MAX_VALUE_BYTES {
        refused(FaultKind::Big)
    } else {
        text_spelt(alloc, bytes)
    }
}

#[tactic(auto, using(pie_value::proofs::TextTests::utf8, pie_value::proofs::TextTests::not_utf8))]
fn text_spelt(alloc: Global, bytes: &[u8]) -> Result<Value, OperatorFault>
    ensures { ResultAgrees result (cond (is_utf8 bytes.now) (Ok (TText bytes.now)) (Err NotText)) }
{
    match std::str::from_utf8(bytes) {
        Ok(text) => Ok(Value::Text(Text::new(alloc, text)?)),
        Err(_) => refused(FaultKind::NotText),
    }
}

fn digits_found(alloc: Global, found: Option<[u8; 32]>) -> Result<Value, OperatorFault>
    ensures { ResultAgrees result (digits_or_null found) }
{
    match found {
        None => Ok(Value::Null),
        Some(hash) => {
            let digits = hex::encode(alloc, hash.as_slice())?;
            Ok(Value::Text(Text::new(alloc, digits.as_str())?))
        }
    }
}
