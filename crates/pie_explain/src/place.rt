//! Places in a text, as an editor tells them.
ghost use Rattle.std.specs.Prelude.{◌≡◌, ◌≤◌, ◌++◌, ℕ, List, length, take, codes, string_bytes, IfOk, OnOk};
ghost use Rattle.std.specs.Fmt.{decimal};
ghost use Rattle.pie_explain.specs.Places.{BeginsWith, begins_char, column_behind, line_behind, place_text};

use pie_base::{MAX_PIPELINE_BYTES, OutOfMemory};
use std::alloc::Global;

/// What is told of the byte at `at`, from 0, of a text in a file: its line and its column, from 1, what is said of it, its line, and a mark below it. Behind the
/// last byte it is the end of the last line.
#[tactic(auto, unfolding(crate::specs::Places::place_text))]
pub(crate) fn told_at(
    alloc: Global,
    file: &str,
    text: &str,
    at: usize,
    said: &str,
) -> Result<String, OutOfMemory>
    ensures { length text.now ≤ MAX_PIPELINE_BYTES → IfOk result (λ told. BeginsWith (place_text file.now text.now at) (string_bytes told)) }
{
    let marked = line_at(alloc, text, at)?;
    let (line, column) = numbers_of(front_of(text, at));
    let mut told = numbers_told(alloc, file, line, column)?;
    put(&mut told, said)?;
    put_marked(alloc, &mut told, &marked)?;
    Ok(told)
}

// A file, a line and a column, as they stand before what is said.
fn numbers_told(
    alloc: Global,
    file: &str,
    line: usize,
    column: usize,
) -> Result<String, OutOfMemory>
    ensures { IfOk result (λ told. string_bytes told ≡ file.now ++ (codes ":" ++ (decimal line ++ (codes ":" ++ (decimal column ++ codes ": "))))) }
{
    let told = format!(in alloc; "{file}:{line}:{column}: ")?;
    Ok(told)
}

/// Puts more text behind some.
#[tactic(auto, using(crate::proofs::Beginning::more))]
pub(crate) fn put(out: &mut String, text: &str) -> Result<(), OutOfMemory>
    ensures { OnOk result ((front : List ℕ) → BeginsWith front (string_bytes out.old) → BeginsWith front (string_bytes out.new)) }
{
    out.push_str(text)?;
    Ok(())
}

// The bytes of a text before a place.
fn front_of(text: &str, at: usize) -> &[u8]
    ensures { result.now ≡ take at text.now }
{
    let bytes = text.as_bytes();
    if at < bytes.len() {
        &bytes[..at]
    } else {
        bytes
    }
}

// The line and the column, from 1, behind these bytes of a text.
fn numbers_of(front: &[u8]) -> (usize, usize)
    ensures { length front.now ≤ MAX_PIPELINE_BYTES → result ≡ (line_behind front.now 1, column_behind front.now 1) }
{
    let (mut line, mut column): (usize, usize) = (1, 1);
    let mut left = front;
    'bytes: while let Some((byte, rest)) = left.split_first() {
        if *byte == b'\n' {
            line += 1;
            column = 1;
        } else if begins_char(*byte) {
            column += 1;
        }
        left = rest;
    }
    (line, column)
}

// Whether a byte begins a character of a text.
fn begins_char(byte: u8) -> bool
    ensures { result ≡ begins_char byte }
{
    byte < 128 || byte > 191
}

// A line as it is shown.
#[derive(Drop)]
struct Line {
    /// The line without its end. Control characters but tabs are shown as `?`.
    text: String,
    /// As wide as what stands before the place in its line: a tab for a tab, and a space for each other character.
    pad: String,
}

// The line in which a place stands.
fn line_at(alloc: Global, text: &str, at: usize) -> Result<Line, OutOfMemory> {
    let mut line = Line {
        text: String::new(alloc),
        pad: String::new(alloc),
    };
    let mut passed: usize = 0;
    for c in text.chars() {
        if passed >= at && c == '\n' {
            return Ok(line);
        }
        line.pass(c, passed < at)?;
        passed = passed.saturating_add(c.len_utf8());
    }
    Ok(line)
}

impl Line {
    // One character more, before the place or behind it.
    fn pass(&mut self, c: char, is_before: bool) -> Result<(), OutOfMemory> {
        if c == '\n' {
            self.text.clear();
            self.pad.clear();
            return Ok(());
        }
        self.text.push(shown(c))?;
        if is_before {
            self.pad.push(blank(c))?;
        }
        Ok(())
    }
}

// Puts a line behind what is said of it, and a mark below its place.
fn put_marked(alloc: Global, out: &mut String, line: &Line) -> Result<(), OutOfMemory>
    ensures { OnOk result ((front : List ℕ) → BeginsWith front (string_bytes out.old) → BeginsWith front (string_bytes out.new)) }
{
    let (text, pad) = (line.text.as_str(), line.pad.as_str());
    let marked = format!(in alloc; "\n    {text}\n    {pad}^\n")?;
    put(out, marked.as_str())
}

// A character as it is shown in its line.
fn shown(c: char) -> char {
    if c != '\t' && c.is_control() { '?' } else { c }
}

// What is as wide as a character.
fn blank(c: char) -> char {
    if c == '\t' { '\t' } else { ' ' }
}
