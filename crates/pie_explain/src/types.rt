//! What is told of a pipeline that has no types.

use crate::known::hint_of_name;
use crate::written::written;
use pie_base::OutOfMemory;
use pie_lexer::Token;
use pie_types::{TypeFault, TypeKind};
use pie_value::Ty;
use std::alloc::Global;

/// What is refused.
pub(crate) fn said(alloc: Global, fault: &TypeFault) -> Result<String, OutOfMemory> {
    match &fault.kind {
        TypeKind::Mismatch(expected, found) => {
            let (expected, found) = (written(alloc, expected)?, written(alloc, found)?);
            let said = format!(in alloc; "expected {expected}, found {found}")?;
            Ok(said)
        }
        other => {
            let mut said = String::new(alloc);
            said.push_str(plain(other))?;
            Ok(said)
        }
    }
}

fn plain(kind: &TypeKind) -> &'static str {
    match kind {
        TypeKind::UnknownName => "no value or type has this name here",
        TypeKind::UnknownFunction => "no function has this name, or it is called in another way",
        TypeKind::Mismatch(_, _) => "another type was expected",
        TypeKind::Arity =>
            "there are more or fewer arguments than parameters, or no such item of a tuple",
        TypeKind::Duplicate => "this name is taken",
        TypeKind::TooManyNames => "this would be the 256th name in scope",
    }
}

/// The usual cause, if there is one.
pub(crate) fn hint(
    alloc: Global,
    tokens: &[Token],
    fault: &TypeFault,
) -> Result<Option<String>, OutOfMemory> {
    match &fault.kind {
        TypeKind::Mismatch(expected, found) => owned(alloc, hint_of_types(expected, found)),
        TypeKind::UnknownName | TypeKind::UnknownFunction => hint_of_name(alloc, tokens, fault.at),
        TypeKind::Duplicate => owned(
            alloc,
            Some(
                "a value never changes, and built-in functions keep their names: give it a name of its own",
            ),
        ),
        TypeKind::Arity => owned(
            alloc,
            Some(
                "a call has as many arguments as the function has parameters; the items of a tuple are numbered from 0",
            ),
        ),
        TypeKind::TooManyNames => Ok(None),
    }
}

fn owned(alloc: Global, hint: Option<&'static str>) -> Result<Option<String>, OutOfMemory> {
    match hint {
        Some(hint) => {
            let mut text = String::new(alloc);
            text.push_str(hint)?;
            Ok(Some(text))
        }
        None => Ok(None),
    }
}

// By the type that was expected and the one that was found.
fn hint_of_types(expected: &Ty, found: &Ty) -> Option<&'static str> {
    match (expected, found) {
        (_, Ty::Nullable(_)) => Some(
            "it may be null: `get(..)` fails where it is, or ask `is_null(..)` first",
        ),
        (Ty::Path, Ty::Text) => Some("a path is made of a text by `path(\"a\")`"),
        (Ty::Text, Ty::Path) | (Ty::Text, Ty::Int) | (Ty::Text, Ty::Bool) => {
            Some("it becomes a text by `to_text(..)`")
        }
        (Ty::Unit, _) => Some(
            "an `if` without `else` gives unit, and so does a block whose last expression ends with `;`",
        ),
        (_, Ty::Unit) => Some(
            "behind `;` a block gives unit: leave it out behind the last expression",
        ),
        _ => None,
    }
}
