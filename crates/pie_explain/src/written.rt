//! Types as they are written in a pipeline.

use pie_base::OutOfMemory;
use pie_value::Ty;
use std::alloc::Global;

// The most parts of a type that are written.
const MOST: u32 = 200;

/// A type as it is written. Of a very large one the innermost parts are written `..`.
pub(crate) fn written(alloc: Global, ty: &Ty) -> Result<String, OutOfMemory> {
    let mut out = String::new(alloc);
    put(&mut out, ty, MOST)?;
    Ok(out)
}

// A type, to this depth.
#[cycle(put)]
fn put(out: &mut String, ty: &Ty, depth: u32) -> Result<(), OutOfMemory> {
    if depth == 0 {
        return put_word(out, "..");
    }
    match ty {
        Ty::Unit => put_word(out, "unit"),
        Ty::Bool => put_word(out, "bool"),
        Ty::Int => put_word(out, "int"),
        Ty::Text => put_word(out, "text"),
        Ty::Path => put_word(out, "path"),
        Ty::Bytes => put_word(out, "bytes"),
        Ty::List(part) => {
            put_word(out, "[")?;
            put(out, part.get(), depth - 1)?;
            put_word(out, "]")
        }
        Ty::Tuple(parts) => {
            put_word(out, "(")?;
            put_each(out, parts.as_slice(), depth - 1)?;
            put_word(out, ")")
        }
        Ty::Nullable(part) => {
            put(out, part.get(), depth - 1)?;
            put_word(out, "?")
        }
    }
}

// Types with commas between them.
#[cycle(put)]
fn put_each(out: &mut String, types: &[Ty], depth: u32) -> Result<(), OutOfMemory> {
    let mut is_first = true;
    for ty in types {
        if !is_first {
            put_word(out, ", ")?;
        }
        is_first = false;
        put(out, ty, depth)?;
    }
    Ok(())
}

fn put_word(out: &mut String, word: &str) -> Result<(), OutOfMemory> {
    out.push_str(word)?;
    Ok(())
}
