//! The lines of what a task rests on. Each function appends to what is there.

use crate::reason::FunctionNow;
use crate::text::put;
use pie_base::{OutOfMemory, Path};
use pie_record::DepKind;
use std::alloc::Global;

/// The function of a task, and how it isn't as it was.
pub(crate) fn put_function(
    out: &mut String,
    func: &str,
    now: Option<FunctionNow>,
) -> Result<(), OutOfMemory> {
    put(out, "  its function ")?;
    put(out, func)?;
    put(out, tail_of(now))
}

fn tail_of(now: Option<FunctionNow>) -> &'static str {
    match now {
        None => "\n",
        Some(FunctionNow::Changed) => " changed\n",
        Some(FunctionNow::Gone) => " is gone\n",
        Some(FunctionNow::Unknown) => " may be another: the store doesn't tell\n",
    }
}

/// How a file or a directory was observed.
pub(crate) fn put_file(
    out: &mut String,
    kind: DepKind,
    path: &Path,
    tail: &str,
) -> Result<(), OutOfMemory> {
    let (front, behind) = words_of(kind);
    put(out, front)?;
    put(out, path.as_str())?;
    put(out, behind)?;
    put(out, tail)
}

// The words before and behind a path.
fn words_of(kind: DepKind) -> (&'static str, &'static str) {
    match kind {
        DepKind::Exists => ("  asked whether ", " is there"),
        DepKind::Digest => ("  took the digest of ", ""),
        DepKind::List => ("  listed ", ""),
        _ => ("  read ", ""),
    }
}

/// A directory that was listed, and isn't as it was, with a named path below it, and how many more there are.
pub(crate) fn put_listed(
    alloc: Global,
    out: &mut String,
    dir: &Path,
    name: Option<&Path>,
    more: usize,
) -> Result<(), OutOfMemory> {
    put_file(out, DepKind::List, dir, ", whose entries changed")?;
    if let Some(name) = name {
        put(out, " (")?;
        put(out, name.as_str())?;
        put_more(alloc, out, more)?;
        put(out, ")")?;
    }
    put(out, "\n")
}

fn put_more(alloc: Global, out: &mut String, more: usize) -> Result<(), OutOfMemory> {
    if more == 0 {
        return Ok(());
    }
    let text = format!(in alloc; " and {more} more")?;
    put(out, text.as_str())
}

/// A file that was written, and whether it isn't there as it was.
pub(crate) fn put_wrote(
    out: &mut String,
    path: &Path,
    is_another: bool,
) -> Result<(), OutOfMemory> {
    put(out, "  wrote ")?;
    put(out, path.as_str())?;
    put(out, wrote_tail(is_another))
}

fn wrote_tail(is_another: bool) -> &'static str {
    if is_another {
        ", which isn't there as written\n"
    } else {
        "\n"
    }
}
