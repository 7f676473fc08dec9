//! Texts that grow.

use pie_base::OutOfMemory;

pub(crate) fn put(out: &mut String, text: &str) -> Result<(), OutOfMemory> {
    out.push_str(text)?;
    Ok(())
}

/// A text in double quotes as Graphviz reads it: before a quote and a backslash stands a backslash.
pub(crate) fn put_quoted(out: &mut String, text: &str) -> Result<(), OutOfMemory> {
    put(out, "\"")?;
    for c in text.chars() {
        put_escaped(out, c)?;
    }
    put(out, "\"")
}

fn put_escaped(out: &mut String, c: char) -> Result<(), OutOfMemory> {
    if c == '"' || c == '\\' {
        put(out, "\\")?;
    }
    out.push(c)?;
    Ok(())
}
