//! Texts in quotes.
ghost use Rattle.std.specs.Prelude.{◌≡◌, ◌<◌, false, [], length, drop, IfOk};
ghost use Rattle.pie_lexer.specs.Quotes.{escape_of};
ghost use Rattle.pie_lexer.specs.inner.Scanning.{scan, step_of, end_of};

use pie_base::OutOfMemory;
use std::alloc::Global;
use std::marker::Model;

// How a text in quotes ends.
#[derive(Drop)]
pub enum Quoted {
    // At its closing quote: the bytes that it says, and how many bytes it takes, both quotes included.
    Closed(Vec<u8>, usize),
    // Nowhere on its line.
    Open,
    // At a backslash that makes no escape, so many bytes behind the opening quote.
    BadEscape(usize),
}

// What the next byte of a text in quotes is.
#[derive(Clone, Copy)]
enum Step {
    Within,
    Close,
    LineEnd,
    NoEscape,
}

// A text in quotes so far: the bytes that it says, and whether a backslash was the last byte.
#[derive(Drop)]
struct Scan {
    said: Vec<u8>,
    escaped: bool,
}

impl Model for Scan {
    ghost use Rattle.std.specs.Prelude.{List, ℕ, Bool};

    ghost Value = { List ℕ × Bool };

    ghost view = { λ s. (s.said.items, s.escaped) };
}

impl Scan {
    // Takes the next byte.
    fn take(&mut self, byte: u8) -> Result<Step, OutOfMemory>
        ensures { IfOk result (λ step. (step, self.new) ≡ step_of self.old byte) }
    {
        if self.escaped {
            let Some(c) = escaped(byte) else {
                return Ok(Step::NoEscape);
            };
            self.said.push(c)?;
            self.escaped = false;
            return Ok(Step::Within);
        }
        if byte == b'"' {
            return Ok(Step::Close);
        }
        if byte == b'\n' {
            return Ok(Step::LineEnd);
        }
        if byte == b'\\' {
            self.escaped = true;
            return Ok(Step::Within);
        }
        self.said.push(byte)?;
        Ok(Step::Within)
    }

    // The bytes that were said.
    fn into_said(self) -> Vec<u8>
        ensures { result.items ≡ self.0 }
    {
        self.said
    }
}

// The byte that an escape stands for, by the byte behind its backslash.
fn escaped(byte: u8) -> Option<u8>
    ensures { result ≡ escape_of byte }
{
    match byte {
        b'"' => Some(b'"'),
        b'\\' => Some(b'\\'),
        b'n' => Some(b'\n'),
        b't' => Some(b'\t'),
        _ => None,
    }
}

// How the text whose opening quote stands in front ends.
pub fn unquote(alloc: Global, rest: &[u8]) -> Result<Quoted, OutOfMemory>
    requires { 0 < length rest.now }
    ensures { IfOk result (λ found. end_of found ≡ scan ([], false) (drop 1 rest.now) 1) }
{
    let mut scan = Scan {
        said: Vec::new(alloc),
        escaped: false,
    };
    for i in 1..rest.len() {
        match scan.take(rest[i])? {
            Step::Within => {}
            Step::Close => return Ok(Quoted::Closed(scan.into_said(), i + 1)),
            Step::LineEnd => return Ok(Quoted::Open),
            Step::NoEscape => return Ok(Quoted::BadEscape(i - 1)),
        }
    }
    Ok(Quoted::Open)
}
