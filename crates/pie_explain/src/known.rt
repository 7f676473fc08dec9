//! Names that aren't known where they stand.

use crate::naming::{is_function, name_at, nearest};
use pie_base::OutOfMemory;
use pie_lexer::Token;
use pie_signature::builtin_named;
use std::alloc::Global;

/// The usual cause where a name isn't known, if there is one.
pub(crate) fn hint_of_name(
    alloc: Global,
    tokens: &[Token],
    at: usize,
) -> Result<Option<String>, OutOfMemory> {
    match name_at(tokens, at) {
        Some(name) => hint_of(alloc, tokens, name),
        None => Ok(None),
    }
}

fn hint_of(alloc: Global, tokens: &[Token], name: &str) -> Result<Option<String>, OutOfMemory> {
    if is_function(tokens, name) {
        let hint = format!(in alloc;
            "{name} is a function of the pipeline, a task: `require {name}(..)`"
        )?;
        return Ok(Some(hint));
    }
    if builtin_named(name).is_some() {
        let hint = format!(in alloc; "{name} is built in: it is called without `require`")?;
        return Ok(Some(hint));
    }
    near(alloc, tokens, name)
}

// Another name that was perhaps meant.
fn near(alloc: Global, tokens: &[Token], name: &str) -> Result<Option<String>, OutOfMemory> {
    if let Some(hint) = elsewhere(name) {
        let hint = format!(in alloc; "{hint}")?;
        return Ok(Some(hint));
    }
    match nearest(alloc, tokens, name)? {
        Some(other) => {
            let hint = format!(in alloc; "was {other} meant?")?;
            Ok(Some(hint))
        }
        None => {
            let hint = format!(in alloc;
                "a function of the pipeline stands anywhere in it; a `val` is in scope up to the end of its block"
            )?;
            Ok(Some(hint))
        }
    }
}

// What to write for a type or a function of another language.
fn elsewhere(name: &str) -> Option<&'static str> {
    match type_elsewhere(name) {
        Some(hint) => Some(hint),
        None => function_elsewhere(name),
    }
}

fn function_elsewhere(name: &str) -> Option<&'static str> {
    match name {
        "length" | "lenght" | "size" | "count" => Some("how many there are tells `len(..)`"),
        "toString" | "to_string" | "format" => Some("a value becomes a text by `to_text(..)`"),
        "print" | "println" | "echo" | "puts" => Some(
            "nothing is printed: what a root gives stands in the report, and a file is written by `write(path(\"out/a\"), ..)`",
        ),
        "map" | "filter" | "forEach" => Some(
            "each item in turn is `[.. for x in xs]`; a filter has `flatten` around it (docs/IDIOMS.md)",
        ),
        "open" | "readFile" | "read_file" => Some("a file is read by `read(path(\"a\"))`"),
        "glob" | "readdir" | "ls" => Some("a folder is listed by `list(path(\"src\"))`"),
        _ => None,
    }
}

// What to write for a type of another language.
fn type_elsewhere(name: &str) -> Option<&'static str> {
    match name {
        "string" | "str" | "String" => Some("a text has the type `text`"),
        "integer" | "number" | "i64" | "long" => Some("a whole number has the type `int`"),
        "boolean" => Some("true and false have the type `bool`"),
        "void" => Some("a function without a result gives `unit`"),
        "list" | "array" | "List" => Some("a list has the type `[T]`, as `[text]`"),
        "float" | "double" => Some("there are whole numbers alone, of the type `int`"),
        _ => None,
    }
}
