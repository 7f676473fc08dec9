//! What is told of roots that are refused.
ghost use Rattle.std.specs.Prelude.{◌≡◌, string_bytes, IfOk};
ghost use Rattle.pie_explain.specs.Places.{BeginsWith, line_place, roots_place};

use crate::heading::{Heading, headings};
use crate::line::{Cause, cause_of};
use crate::naming::nearest_of;
use crate::place::put;
use pie_base::OutOfMemory;
use pie_project::RootsReason;
use std::alloc::Global;

/// What a person is told of roots with this text that are refused so, of a pipeline with this text: the line, from 1, with its text, why it is no task, a hint, and the
/// functions of the pipeline as they are called. Rule: docs/ERRORS.md.
pub fn explain_roots(
    alloc: Global,
    text: &str,
    pipeline: &str,
    reason: RootsReason,
) -> Result<String, OutOfMemory>
    ensures { IfOk result (λ told. BeginsWith (roots_place reason) (string_bytes told)) }
{
    match reason {
        RootsReason::Absent => whole(
            alloc,
            "there is no pie.roots here",
            "a line of it is a task to build, such as `main()`",
        ),
        RootsReason::TooLong => whole(
            alloc,
            "pie.roots has more than 1,048,576 bytes",
            "let one task require the others",
        ),
        RootsReason::NotText => whole(
            alloc,
            "pie.roots isn't UTF-8",
            "store it as UTF-8, without a byte order mark",
        ),
        RootsReason::Line(line) => {
            let shown = line_of(alloc, text, line)?;
            explain_line(alloc, shown.as_str(), line, pipeline)
        }
    }
}

fn whole(alloc: Global, said: &str, hint: &str) -> Result<String, OutOfMemory> {
    let told = format!(in alloc; "{said}\nhint: {hint}\n")?;
    Ok(told)
}

fn explain_line(
    alloc: Global,
    shown: &str,
    line: u32,
    pipeline: &str,
) -> Result<String, OutOfMemory>
    ensures { IfOk result (λ told. BeginsWith (line_place line) (string_bytes told)) }
{
    let known = headings(alloc, pipeline)?;
    let cause = cause_of(alloc, shown, known.as_slice())?;
    let said = said_of(alloc, &cause, known.as_slice())?;
    let hint = hint_of(alloc, &cause, known.as_slice())?;
    let said = format!(in alloc; "{said}\n    {shown}\nhint: {hint}\n")?;
    let functions = functions_told(alloc, known.as_slice())?;
    let told = line_told(alloc, line, said.as_str(), functions.as_str())?;
    Ok(told)
}

// What is told of a line: what is said of it, and the functions.
fn line_told(alloc: Global, line: u32, said: &str, functions: &str) -> Result<String, OutOfMemory>
    ensures { IfOk result (λ told. BeginsWith (line_place line) (string_bytes told)) }
{
    let mut told = line_begun(alloc, line)?;
    put(&mut told, said)?;
    put(&mut told, functions)?;
    Ok(told)
}

// A line, as it stands before what is said of it.
#[tactic(auto, unfolding(crate::specs::Places::line_place))]
fn line_begun(alloc: Global, line: u32) -> Result<String, OutOfMemory>
    ensures { IfOk result (λ told. string_bytes told ≡ line_place line) }
{
    let told = format!(in alloc; "pie.roots:{line}: ")?;
    Ok(told)
}

fn said_of(alloc: Global, cause: &Cause, known: &[Heading]) -> Result<String, OutOfMemory> {
    let said = match cause {
        Cause::NoTask => format!(in alloc;
            "this line is neither blank nor a task of the pipeline"
        )?,
        Cause::Unknown(name) => format!(in alloc; "the pipeline has no function {name}")?,
        Cause::Count(at, found) => {
            let wanted = wanted_of(known, *at);
            format!(in alloc; "expected {wanted} arguments, found {found}")?
        }
        Cause::Kind(_, place, expected, found) => {
            format!(in alloc; "argument {place}: expected {expected}, found {found}")?
        }
        Cause::Values(_) => format!(in alloc;
            "the arguments are no values of the parameters' types"
        )?,
    };
    Ok(said)
}

// How many arguments the function at a place takes.
fn wanted_of(known: &[Heading], at: usize) -> usize {
    match known.get(at) {
        Some(heading) => heading.params.len(),
        None => 0,
    }
}

fn hint_of(alloc: Global, cause: &Cause, known: &[Heading]) -> Result<String, OutOfMemory> {
    match cause {
        Cause::NoTask => plain(
            alloc,
            "a task is written `name(a, b)`, one on its line, as `page(path(\"a\"))`; nothing is computed",
        ),
        Cause::Unknown(name) => match nearest_of(alloc, known, name.as_str())? {
            Some(other) => {
                let hint = format!(in alloc; "was {other} meant?")?;
                Ok(hint)
            }
            None => plain(alloc, "a root is one of the functions of the pipeline"),
        },
        Cause::Count(at, _) | Cause::Kind(at, _, _, _) | Cause::Values(at) => {
            let shape = match known.get(*at) {
                Some(heading) => heading.shape.as_str(),
                None => "",
            };
            let hint = format!(in alloc;
                "it is called so: {shape}; arguments are values, and nothing is computed"
            )?;
            Ok(hint)
        }
    }
}

fn plain(alloc: Global, hint: &str) -> Result<String, OutOfMemory> {
    let hint = format!(in alloc; "{hint}")?;
    Ok(hint)
}

// How many functions are told.
const MOST: usize = 30;

fn functions_told(alloc: Global, known: &[Heading]) -> Result<String, OutOfMemory> {
    let mut out = format!(in alloc; "the functions of the pipeline:\n")?;
    for heading in known.iter().take(MOST) {
        let line = format!(in alloc; "    {}\n", heading.shape)?;
        out.push_str(line.as_str())?;
    }
    if known.len() > MOST {
        let left = known.len() - MOST;
        let line = format!(in alloc; "    and {left} more\n")?;
        out.push_str(line.as_str())?;
    }
    Ok(out)
}

// A line of a text, counted from 1. Control characters but tabs are shown as `?`.
fn line_of(alloc: Global, text: &str, line: u32) -> Result<String, OutOfMemory> {
    let mut shown = String::new(alloc);
    let mut at: u32 = 1;
    for c in text.chars() {
        if at > line {
            return Ok(shown);
        }
        if c == '\n' {
            at = at.saturating_add(1);
        } else if at == line {
            shown.push(if c != '\t' && c.is_control() { '?' } else { c })?;
        }
    }
    Ok(shown)
}
