//! Why a project or an input is refused, as it is printed.
ghost use Rattle.std.specs.Prelude.{◌≡◌, IfOk, string_bytes};
ghost use Rattle.pie_types.specs.Faults as types;
ghost use Rattle.pie_project.specs.declared.fault.RootsReason.TheVariants as reasons;
ghost use Rattle.pie_project.specs.Refusals.{plain};
ghost use Rattle.pie_report.specs.Refused as spec;

use pie_base::OutOfMemory;
use pie_lexer::LexError;
use pie_parser::ParseError;
use pie_project::{PipelineFault, RootsReason};
use pie_script::InputFault;
use pie_types::{TypeFault, TypeKind};
use std::alloc::Global;

/// The line of a pipeline that is refused, with its line end. Rule: docs/BUILDING.md, "What is printed".
pub fn bad_pipeline(alloc: Global, fault: &PipelineFault) -> Result<String, OutOfMemory>
    ensures { IfOk result (λ text. string_bytes text ≡ spec.bad_pipeline_text (plain fault.now)) }
{
    let reason = pipeline_reason(alloc, fault)?;
    let mut text = String::from_str(alloc, "bad pipeline: ")?;
    text.push_str(reason.as_str())?;
    text.push_str("\n")?;
    Ok(text)
}

/// The line of roots that are refused, with its line end. Rule: docs/BUILDING.md, "What is printed".
pub fn bad_roots(alloc: Global, reason: RootsReason) -> Result<String, OutOfMemory>
    ensures { IfOk result (λ text. string_bytes text ≡ spec.bad_roots_text reason) }
{
    let reason = roots_reason(alloc, reason)?;
    let mut text = String::from_str(alloc, "bad roots: ")?;
    text.push_str(reason.as_str())?;
    text.push_str("\n")?;
    Ok(text)
}

/// The line of an input that is refused, with its line end. Rule: docs/BUILDING.md, "What is printed".
pub fn bad_input(alloc: Global, fault: InputFault) -> Result<String, OutOfMemory>
    ensures { IfOk result (λ text. string_bytes text ≡ spec.bad_input_text fault) }
{
    let reason = input_reason(alloc, fault)?;
    let mut text = String::from_str(alloc, "bad input: ")?;
    text.push_str(reason.as_str())?;
    text.push_str("\n")?;
    Ok(text)
}

fn pipeline_reason(alloc: Global, fault: &PipelineFault) -> Result<String, OutOfMemory>
    ensures { IfOk result (λ text. string_bytes text ≡ spec.pipeline_reason (plain fault.now)) }
{
    match fault {
        PipelineFault::Absent => word(alloc, "absent"),
        PipelineFault::TooLong => word(alloc, "too long"),
        PipelineFault::NotText => word(alloc, "not text"),
        PipelineFault::Lex(error) => lex_reason(alloc, *error),
        PipelineFault::Parse(error) => parse_reason(alloc, *error),
        PipelineFault::Types(fault) => types_reason(alloc, fault),
    }
}

fn roots_reason(alloc: Global, reason: RootsReason) -> Result<String, OutOfMemory>
    ensures { IfOk result (λ text. string_bytes text ≡ spec.roots_reason reason) }
{
    match reason {
        RootsReason::Absent => word(alloc, "absent"),
        RootsReason::TooLong => word(alloc, "too long"),
        RootsReason::NotText => word(alloc, "not text"),
        RootsReason::Line(n) => line(alloc, n),
    }
}

fn input_reason(alloc: Global, fault: InputFault) -> Result<String, OutOfMemory>
    ensures { IfOk result (λ text. string_bytes text ≡ spec.input_reason fault) }
{
    match fault {
        InputFault::NotText(n) => at_line(alloc, n, "NotText"),
        InputFault::BadPath(n) => at_line(alloc, n, "BadPath"),
        InputFault::BadWord(n) => at_line(alloc, n, "BadWord"),
        InputFault::TooLong => word(alloc, "too long"),
        InputFault::OutOfMemory => word(alloc, "out of memory"),
    }
}

fn line(alloc: Global, n: u32) -> Result<String, OutOfMemory>
    ensures { IfOk result (λ text. string_bytes text ≡ spec.roots_reason (reasons.Line n)) }
{
    Ok(format!(in alloc; "line {n}")?)
}

fn lex_reason(alloc: Global, error: LexError) -> Result<String, OutOfMemory>
    ensures { IfOk result (λ text. string_bytes text ≡ spec.lex_reason error) }
{
    match error {
        LexError::BadChar(at) => placed(alloc, at, "BadChar"),
        LexError::OpenText(at) => placed(alloc, at, "OpenText"),
        LexError::BadEscape(at) => placed(alloc, at, "BadEscape"),
        LexError::WideInt(at) => placed(alloc, at, "WideInt"),
        LexError::OutOfMemory => word(alloc, "out of memory"),
    }
}

fn parse_reason(alloc: Global, error: ParseError) -> Result<String, OutOfMemory>
    ensures { IfOk result (λ text. string_bytes text ≡ spec.parse_reason error) }
{
    match error {
        ParseError::Expected(at) => placed(alloc, at, "Expected"),
        ParseError::TooDeep(at) => placed(alloc, at, "TooDeep"),
        ParseError::OutOfMemory => word(alloc, "out of memory"),
    }
}

fn types_reason(alloc: Global, fault: &TypeFault) -> Result<String, OutOfMemory>
    ensures { IfOk result (λ text. string_bytes text ≡ spec.placed fault.now.at (spec.kind_name (types.kind_of fault.now.kind))) }
{
    placed(alloc, fault.at, kind_name(&fault.kind))
}

// The name of a refusal of the type checker.
fn kind_name(kind: &TypeKind) -> &'static str
    ensures { result.now ≡ spec.kind_name (types.kind_of kind.now) }
{
    match kind {
        TypeKind::UnknownName => "UnknownName",
        TypeKind::UnknownFunction => "UnknownFunction",
        TypeKind::Mismatch(_, _) => "Mismatch",
        TypeKind::Arity => "Arity",
        TypeKind::Duplicate => "Duplicate",
        TypeKind::TooManyNames => "TooManyNames",
    }
}

// A kind of refusal and the byte where it stands.
fn placed(alloc: Global, at: usize, kind: &str) -> Result<String, OutOfMemory>
    ensures { IfOk result (λ text. string_bytes text ≡ spec.placed at kind.now) }
{
    Ok(format!(in alloc; "at {at}: {kind}")?)
}

// A kind of refusal and the line where it stands.
fn at_line(alloc: Global, n: u32, kind: &str) -> Result<String, OutOfMemory>
    ensures { IfOk result (λ text. string_bytes text ≡ spec.at_line n kind.now) }
{
    Ok(format!(in alloc; "line {n}: {kind}")?)
}

fn word(alloc: Global, text: &str) -> Result<String, OutOfMemory>
    ensures { IfOk result (λ made. string_bytes made ≡ text.now) }
{
    Ok(String::from_str(alloc, text)?)
}
