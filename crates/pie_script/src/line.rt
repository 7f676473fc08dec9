//! What one line is.
ghost use Rattle.std.specs.Prelude.{◌≡◌, true};
ghost use Rattle.pie_base.specs.Path.{is_path};
ghost use Rattle.pie_script.specs.Line.{after_word, build_line, change_or, content_line, del_or, word_line};
ghost use Rattle.pie_script.specs.inner.LineReads.{IsRead, LineRead, PathNamed, PathRead, ScriptPathRead, StandsAfter};

use crate::InputFault;
use pie_base::{Path, PathError};
use std::alloc::Global;

/// A line of a script.
#[derive(Drop)]
pub(crate) enum Read {
    /// An empty line.
    Blank,
    /// Content: all but the first byte, and where this is true a newline.
    Content(bool),
    /// `put` and a path.
    Put(Path),
    /// `del` and a path.
    Del(Path),
    /// `change` and a path.
    Change(Path),
    /// `build`.
    Build,
}

/// The path that a text is.
pub(crate) fn path_in(alloc: Global, text: &[u8], line: u32) -> Result<Path, InputFault>
    ensures { PathRead result text.now line }
{
    match str::from_utf8(text) {
        Ok(text) => named(alloc, text, line),
        Err(_) => Err(InputFault::NotText(line)),
    }
}

fn named(alloc: Global, text: &str, line: u32) -> Result<Path, InputFault>
    ensures { PathNamed result text.now line }
{
    match Path::read(alloc, text) {
        Ok(path) => Ok(path),
        Err(PathError::OutOfMemory) => Err(InputFault::OutOfMemory),
        Err(PathError::Empty) => Err(InputFault::BadPath(line)),
        Err(PathError::TooLong) => Err(InputFault::BadPath(line)),
        Err(PathError::BadSegment) => Err(InputFault::BadPath(line)),
    }
}

/// What a line of a script is.
pub(crate) fn read_line(alloc: Global, text: &[u8], line: u32) -> Result<Read, InputFault>
    ensures { LineRead result text.now line }
{
    if text.is_empty() {
        return Ok(Read::Blank);
    }
    match str::from_utf8(text) {
        Ok(text) => read_put(alloc, text, line),
        Err(_) => Err(InputFault::NotText(line)),
    }
}

// `put` and a path, or any other line.
fn read_put(alloc: Global, text: &str, line: u32) -> Result<Read, InputFault>
    ensures { IsRead result (word_line text.now) text.now line }
{
    match after(text, "put ") {
        Some(path) => match script_path(alloc, path, line) {
            Ok(path) => Ok(Read::Put(path)),
            Err(fault) => Err(fault),
        },
        None => read_del(alloc, text, line),
    }
}

// `del` and a path, or any line but a put.
fn read_del(alloc: Global, text: &str, line: u32) -> Result<Read, InputFault>
    ensures { IsRead result (del_or text.now) text.now line }
{
    match after(text, "del ") {
        Some(path) => match script_path(alloc, path, line) {
            Ok(path) => Ok(Read::Del(path)),
            Err(fault) => Err(fault),
        },
        None => read_change(alloc, text, line),
    }
}

// `change` and a path, or `build`, or content.
fn read_change(alloc: Global, text: &str, line: u32) -> Result<Read, InputFault>
    ensures { IsRead result (change_or text.now) text.now line }
{
    match after(text, "change ") {
        Some(path) => match script_path(alloc, path, line) {
            Ok(path) => Ok(Read::Change(path)),
            Err(fault) => Err(fault),
        },
        None => read_build(text.as_bytes(), line),
    }
}

// `build`, or content.
fn read_build(text: &[u8], line: u32) -> Result<Read, InputFault>
    ensures { IsRead result (build_line text.now) text.now line }
{
    if text == b"build".as_slice() {
        return Ok(Read::Build);
    }
    read_content(text, line)
}

fn read_content(text: &[u8], line: u32) -> Result<Read, InputFault>
    ensures { IsRead result (content_line text.now) text.now line }
{
    if text.starts_with(b"|") {
        return Ok(Read::Content(true));
    }
    if text.starts_with(b">") {
        return Ok(Read::Content(false));
    }
    Err(InputFault::BadWord(line))
}

// What stands after a word.
fn after<'a>(text: &'a str, word: &str) -> Option<&'a str>
    ensures { StandsAfter result (after_word word.now text.now) }
{
    text.strip_prefix(word)
}

// A path that a script may name.
fn script_path(alloc: Global, text: &str, line: u32) -> Result<Path, InputFault>
    ensures { ScriptPathRead result text.now line }
{
    let path = named(alloc, text, line)?;
    if path.under_store() || text.as_bytes() == b"out".as_slice() {
        return Err(InputFault::BadPath(line));
    }
    Ok(path)
}
