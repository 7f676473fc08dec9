//! Which tokens could stand where the grammar ends.

use pie_base::OutOfMemory;
use pie_lexer::{LexError, Token, TokenKind, lex};
use pie_parser::{ParseError, parse};
use std::alloc::Global;

// The most bytes of a token that are shown.
const MOST: usize = 40;

/// What could stand at a place.
#[derive(Drop)]
pub(crate) struct Going {
    /// The tokens and the kinds of phrases, as they are told; empty where nothing is known.
    pub(crate) told: String,
    pub(crate) has_semicolon: bool,
    pub(crate) has_brace: bool,
    /// Whether a block can begin.
    pub(crate) has_body: bool,
}

/// What could stand at this place of a pipeline, where the grammar ends. Each word is tried behind the part of the function that stands before the place.
pub(crate) fn going_on(
    alloc: Global,
    text: &str,
    tokens: &[Token],
    at: usize,
) -> Result<Going, OutOfMemory> {
    let front = match text.get(function_start(tokens, at)..at) {
        Some(front) => front,
        None => "",
    };
    let mut words = Words {
        told: Vec::new(alloc),
    };
    let has_phrase = add_phrases(alloc, front, &mut words)?;
    let has_semicolon = words.add_mark(alloc, front, ";")?;
    let has_brace = words.add_mark(alloc, front, "}")?;
    for mark in MARKS {
        words.add_mark(alloc, front, mark)?;
    }
    let has_body = words.add_mark(alloc, front, "{")?;
    if !has_phrase {
        add_starts(alloc, front, &mut words)?;
    }
    Ok(Going {
        told: words.joined(alloc)?,
        has_semicolon,
        has_brace,
        has_body,
    })
}

const MARKS: [&str; 11] = [
    ")", "]", ",", ":", "->", "=", "else", "for", "in", "by", "func",
];

#[derive(Drop)]
struct Words {
    told: Vec<String>,
}

impl Words {
    // Adds a token in backquotes where it can stand, and answers whether it can.
    fn add_mark(&mut self, alloc: Global, front: &str, mark: &str) -> Result<bool, OutOfMemory> {
        let can = can_stand(alloc, front, mark)?;
        if can {
            self.told.push(format!(in alloc; "`{mark}`")?)?;
        }
        Ok(can)
    }

    // Adds a kind of phrase where a word of it can stand, and answers whether it can.
    fn add_phrase(
        &mut self,
        alloc: Global,
        front: &str,
        word: &str,
        phrase: &str,
    ) -> Result<bool, OutOfMemory> {
        let can = can_stand(alloc, front, word)?;
        if can {
            self.told.push(format!(in alloc; "{phrase}")?)?;
        }
        Ok(can)
    }

    // The words with commas between them, and `or` before the last.
    fn joined(&self, alloc: Global) -> Result<String, OutOfMemory> {
        let mut out = String::new(alloc);
        let mut left = self.told.len();
        for word in &self.told {
            out.push_str(word.as_str())?;
            left = left.saturating_sub(1);
            out.push_str(between(left))?;
        }
        Ok(out)
    }
}

// What stands behind a word where so many are left.
fn between(left: usize) -> &'static str {
    match left {
        0 => "",
        1 => " or ",
        _ => ", ",
    }
}

// An expression, a type or a name, of which the widest is told.
fn add_phrases(alloc: Global, front: &str, words: &mut Words) -> Result<bool, OutOfMemory> {
    if words.add_phrase(alloc, front, "true", "an expression")? {
        return Ok(true);
    }
    if words.add_phrase(alloc, front, "int", "a type")? {
        return Ok(true);
    }
    words.add_phrase(alloc, front, "a", "a name")
}

// What goes on an expression.
fn add_starts(alloc: Global, front: &str, words: &mut Words) -> Result<(), OutOfMemory> {
    words.add_mark(alloc, front, "(")?;
    words.add_mark(alloc, front, "?")?;
    words.add_phrase(alloc, front, "*", "an operator")?;
    Ok(())
}

// Whether a word can stand behind the front of a function.
fn can_stand(alloc: Global, front: &str, word: &str) -> Result<bool, OutOfMemory> {
    let text = format!(in alloc; "{front}\n{word}")?;
    let tokens = match lex(alloc, text.as_str()) {
        Ok(tokens) => tokens,
        Err(LexError::OutOfMemory) => return Err(OutOfMemory),
        Err(_) => return Ok(false),
    };
    match parse(alloc, tokens.as_slice()) {
        Ok(_) => Ok(true),
        Err(ParseError::Expected(place)) | Err(ParseError::TooDeep(place)) => {
            Ok(place > front.len().saturating_add(1))
        }
        Err(ParseError::OutOfMemory) => Err(OutOfMemory),
    }
}

// Where the function begins in which a place stands.
fn function_start(tokens: &[Token], at: usize) -> usize {
    let mut start = 0;
    for token in tokens {
        if token.at < at && matches!(token.kind, TokenKind::Func) {
            start = token.at;
        }
    }
    start
}

/// The token at a place as it is spelled, in backquotes, or that the text ends there.
pub(crate) fn found_at(
    alloc: Global,
    text: &str,
    tokens: &[Token],
    at: usize,
) -> Result<String, OutOfMemory> {
    for token in tokens {
        if token.at >= at {
            return spelled(alloc, text, token);
        }
    }
    let found = format!(in alloc; "the end")?;
    Ok(found)
}

fn spelled(alloc: Global, text: &str, token: &Token) -> Result<String, OutOfMemory> {
    let found = match text.get(token.at..token.end) {
        Some(spelling) if spelling.len() <= MOST => format!(in alloc; "`{spelling}`")?,
        _ => format!(in alloc; "a long text")?,
    };
    Ok(found)
}
