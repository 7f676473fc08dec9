//! What is told of a pipeline that is refused.
ghost use Rattle.std.specs.Prelude.{◌≤◌, ℕ, List, length, codes, string_bytes, IfOk};
ghost use Rattle.pie_project.specs.Refusals.{plain};
ghost use Rattle.pie_explain.specs.Places.{BeginsWith, lex_place, parse_place, pipeline_place, place_text};

use crate::expected::{hint as hint_expected, tokens_around};
use crate::going::{Going, found_at, going_on};
use crate::lexical::hint_of_char;
use crate::place::{put, told_at};
use crate::types::{hint as hint_types, said as said_of_types};
use pie_base::{MAX_PIPELINE_BYTES, OutOfMemory};
use pie_lexer::{LexError, Token, lex};
use pie_parser::ParseError;
use pie_project::PipelineFault;
use pie_types::TypeFault;
use std::alloc::Global;

const FILE: &str = "pie.pipeline";

/// What a person is told of a pipeline with this text that is refused so: the place by its line and its column, from 1, what was expected and found, the line with
/// a mark below the place, and a hint where there is a usual cause. Rule: docs/ERRORS.md.
pub fn explain_pipeline(
    alloc: Global,
    text: &str,
    fault: &PipelineFault,
) -> Result<String, OutOfMemory>
    ensures { length text.now ≤ MAX_PIPELINE_BYTES → IfOk result (λ told. BeginsWith (pipeline_place text.now (plain fault.now)) (string_bytes told)) }
{
    match fault {
        PipelineFault::Absent => whole(
            alloc,
            "there is no pie.pipeline here",
            "it has the functions of the project: docs/LANGUAGE.md",
        ),
        PipelineFault::TooLong => whole(
            alloc,
            "pie.pipeline has more than 1,048,576 bytes",
            "data belongs into files that tasks read",
        ),
        PipelineFault::NotText => whole(
            alloc,
            "pie.pipeline isn't UTF-8",
            "store it as UTF-8, without a byte order mark",
        ),
        PipelineFault::Lex(error) => explain_lex(alloc, text, *error),
        PipelineFault::Parse(error) => explain_parse(alloc, text, *error),
        PipelineFault::Types(fault) => explain_types(alloc, text, fault),
    }
}

// What is told of the whole file.
fn whole(alloc: Global, said: &str, hint: &str) -> Result<String, OutOfMemory> {
    let told = format!(in alloc; "{said}\nhint: {hint}\n")?;
    Ok(told)
}

// What is told of a place.
fn at(
    alloc: Global,
    text: &str,
    at: usize,
    said: &str,
    hint: Option<&str>,
) -> Result<String, OutOfMemory>
    ensures { length text.now ≤ MAX_PIPELINE_BYTES → IfOk result (λ told. BeginsWith (place_text (codes "pie.pipeline") text.now at) (string_bytes told)) }
{
    let told = told_at(alloc, FILE, text, at, said)?;
    match hint {
        Some(hint) => with_hint(told, hint),
        None => Ok(told),
    }
}

// What is told, with a hint behind it.
fn with_hint(told: String, hint: &str) -> Result<String, OutOfMemory>
    ensures { IfOk result (λ all. (front : List ℕ) → BeginsWith front (string_bytes told) → BeginsWith front (string_bytes all)) }
{
    let mut all = told;
    put(&mut all, "hint: ")?;
    put(&mut all, hint)?;
    put(&mut all, "\n")?;
    Ok(all)
}

fn explain_lex(alloc: Global, text: &str, error: LexError) -> Result<String, OutOfMemory>
    ensures { length text.now ≤ MAX_PIPELINE_BYTES → IfOk result (λ told. BeginsWith (lex_place text.now error) (string_bytes told)) }
{
    match error {
        LexError::BadChar(place) => at(
            alloc,
            text,
            place,
            "no token begins with this character",
            Some(hint_of_char(text, place)),
        ),
        LexError::OpenText(place) => at(
            alloc,
            text,
            place,
            "this text isn't closed on its line",
            Some("a newline in a text is written `\\n`"),
        ),
        LexError::BadEscape(place) => at(
            alloc,
            text,
            place,
            "no escape begins so",
            Some("a backslash is written `\\\\`; the other escapes are `\\\"`, `\\n` and `\\t`"),
        ),
        LexError::WideInt(place) => at(
            alloc,
            text,
            place,
            "this number is greater than 9223372036854775807",
            Some("a number has 64 bits with its sign"),
        ),
        LexError::OutOfMemory => Err(OutOfMemory),
    }
}

fn explain_parse(alloc: Global, text: &str, error: ParseError) -> Result<String, OutOfMemory>
    ensures { length text.now ≤ MAX_PIPELINE_BYTES → IfOk result (λ told. BeginsWith (parse_place text.now error) (string_bytes told)) }
{
    match error {
        ParseError::Expected(place) => explain_expected(alloc, text, place),
        ParseError::TooDeep(place) => at(
            alloc,
            text,
            place,
            "this bracket stands inside 64 open ones",
            Some("name parts of it by `val`"),
        ),
        ParseError::OutOfMemory => Err(OutOfMemory),
    }
}

fn explain_expected(alloc: Global, text: &str, place: usize) -> Result<String, OutOfMemory>
    ensures { length text.now ≤ MAX_PIPELINE_BYTES → IfOk result (λ told. BeginsWith (place_text (codes "pie.pipeline") text.now place) (string_bytes told)) }
{
    let tokens = tokens_of(alloc, text)?;
    let going = going_on(alloc, text, tokens.as_slice(), place)?;
    let found = found_at(alloc, text, tokens.as_slice(), place)?;
    let said = format!(in alloc; "expected {}, found {found}", going.told)?;
    let around = tokens_around(tokens.as_slice(), place);
    let hint = match hint_expected(&around) {
        Some(hint) => Some(hint),
        None => hint_of_line(text, place, &going),
    };
    at(alloc, text, place, said.as_str(), hint)
}

// Where a line begins with what can't stand there, what is perhaps missing at the end of the line before; and where a block can begin, that it has braces.
fn hint_of_line(text: &str, place: usize, going: &Going) -> Option<&'static str> {
    if begins_line(text, place) {
        if going.has_semicolon {
            return Some("is a `;` missing at the end of the line before?");
        }
        if going.has_brace {
            return Some("is a `}` missing before it?");
        }
    }
    if going.has_body {
        return Some("the branches of an `if` and the body of a function stand in braces");
    }
    None
}

// Whether only spaces and tabs stand before a place on its line, and a line stands before it.
fn begins_line(text: &str, place: usize) -> bool {
    match text.get(..place) {
        Some(front) => front.trim_end_matches([' ', '\t', '\r']).ends_with('\n'),
        None => false,
    }
}

fn explain_types(alloc: Global, text: &str, fault: &TypeFault) -> Result<String, OutOfMemory>
    ensures { length text.now ≤ MAX_PIPELINE_BYTES → IfOk result (λ told. BeginsWith (place_text (codes "pie.pipeline") text.now fault.now.at) (string_bytes told)) }
{
    let tokens = tokens_of(alloc, text)?;
    let said = said_of_types(alloc, fault)?;
    let hint = hint_types(alloc, tokens.as_slice(), fault)?;
    let told = match &hint {
        Some(hint) => at(alloc, text, fault.at, said.as_str(), Some(hint.as_str()))?,
        None => at(alloc, text, fault.at, said.as_str(), None)?,
    };
    Ok(told)
}

// The tokens of a pipeline, or none where it has none.
fn tokens_of(alloc: Global, text: &str) -> Result<Vec<Token>, OutOfMemory> {
    match lex(alloc, text) {
        Ok(tokens) => Ok(tokens),
        Err(LexError::OutOfMemory) => Err(OutOfMemory),
        Err(_) => Ok(Vec::new(alloc)),
    }
}
