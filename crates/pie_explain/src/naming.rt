//! Names that a pipeline has.

use crate::heading::Heading;
use pie_base::OutOfMemory;
use pie_lexer::{Token, TokenKind};
use std::alloc::Global;
use strsim::levenshtein;

// The most letters in which a name may differ from the one that was meant.
const MOST_EDITS: usize = 2;

/// The name that stands at a place, if one does.
pub(crate) fn name_at(tokens: &[Token], at: usize) -> Option<&str> {
    for token in tokens {
        if token.at == at {
            return name_of(&token.kind);
        }
    }
    None
}

/// The name that a token is, if it is one.
pub(crate) fn name_of(kind: &TokenKind) -> Option<&str> {
    match kind {
        TokenKind::Name(name) => Some(name.as_str()),
        _ => None,
    }
}

/// Whether a function of the pipeline has this name.
pub(crate) fn is_function(tokens: &[Token], name: &str) -> bool {
    let mut is_behind_func = false;
    for token in tokens {
        if is_behind_func && is_name(&token.kind, name) {
            return true;
        }
        is_behind_func = matches!(token.kind, TokenKind::Func);
    }
    false
}

fn is_name(kind: &TokenKind, name: &str) -> bool {
    match name_of(kind) {
        Some(other) => other == name,
        None => false,
    }
}

// The built-in functions and the effects that are called as functions are.
const CALLED: [&str; 35] = [
    "join",
    "name",
    "parent",
    "to_text",
    "parse_int",
    "trim",
    "replace",
    "split",
    "lines",
    "join_text",
    "slice",
    "sha256",
    "len",
    "find",
    "contains",
    "starts",
    "ends",
    "is_null",
    "at",
    "range",
    "reverse",
    "sort",
    "flatten",
    "some",
    "get",
    "to_bytes",
    "from_bytes",
    "slice_bytes",
    "read_bytes",
    "read",
    "write",
    "exists",
    "digest",
    "list",
    "path",
];

// The name that differs least from one so far, and in how many letters at least another has to differ less.
#[derive(Drop)]
struct Near<'a> {
    found: Option<&'a str>,
    least: usize,
}

impl<'a> Near<'a> {
    // In a short name fewer letters may differ: else each name would be near.
    fn of(name: &str) -> Near<'a> {
        Near {
            found: None,
            least: (MOST_EDITS + 1).min(name.len()),
        }
    }

    fn hold(&mut self, alloc: Global, name: &str, other: &'a str) -> Result<(), OutOfMemory> {
        let edits = levenshtein(alloc, name, other)?;
        if edits > 0 && edits < self.least {
            self.least = edits;
            self.found = Some(other);
        }
        Ok(())
    }
}

/// The first other name in the pipeline, or else of a built-in function, that differs least from this one, if it differs in at most two letters.
pub(crate) fn nearest<'a>(
    alloc: Global,
    tokens: &'a [Token],
    name: &str,
) -> Result<Option<&'a str>, OutOfMemory> {
    let mut near = Near::of(name);
    for token in tokens {
        if let Some(other) = name_of(&token.kind) {
            near.hold(alloc, name, other)?;
        }
    }
    for other in CALLED {
        near.hold(alloc, name, other)?;
    }
    Ok(near.found)
}

/// The first function whose name differs least from this one, if it differs in at most two letters.
pub(crate) fn nearest_of<'a>(
    alloc: Global,
    known: &'a [Heading],
    name: &str,
) -> Result<Option<&'a str>, OutOfMemory> {
    let mut near = Near::of(name);
    for heading in known {
        near.hold(alloc, name, heading.name.as_str())?;
    }
    Ok(near.found)
}
