//! The one call: from a text to its tokens.
ghost use Rattle.std.specs.Prelude.{◌≡◌, ◌<◌, length, drop};
ghost use Rattle.pie_lexer.specs.Bytes.{gap_len};
ghost use Rattle.pie_lexer.specs.inner.Answers.{IsAnswer, IsOnlyAnswer, TakesToken, Passes};

use crate::scan::{behind, gap_at};
use crate::taking::{int_at, mark_at, text_at, word_at};
use crate::{LexError, Token};
use std::alloc::Global;

/// The tokens of a text, in the order in which they stand.
/// Rule: docs/LANGUAGE.md, "Tokens".
pub fn lex(alloc: Global, text: &str) -> Result<Vec<Token>, LexError>
    ensures answer { IsAnswer (λ tokens. tokens.items) result text.now }
    ensures only { IsOnlyAnswer (λ tokens. tokens.items) result text.now }
{
    tokens_of(alloc, text)
}

// The tokens of a text, from its first byte to its last.
fn tokens_of(alloc: Global, text: &str) -> Result<Vec<Token>, LexError>
    ensures { IsAnswer (λ tokens. tokens.items) result text.now }
{
    let mut tokens = Vec::new(alloc);
    let mut at = 0;
    while at < text.len() {
        at = pass(alloc, text, at, &mut tokens)?;
    }
    Ok(tokens)
}

// Goes past the space, the comment or the token that begins at a place, and keeps the token.
fn pass(alloc: Global, text: &str, at: usize, tokens: &mut Vec<Token>) -> Result<usize, LexError>
    requires { at < length text.now }
    ensures { Passes text.now at tokens.old.items tokens.new.items result }
{
    let gap = gap_at(behind(text, at));
    if gap > 0 {
        return Ok(at + gap);
    }
    let token = token_at(alloc, text, at)?;
    let end = token.end;
    tokens.push(token)?;
    Ok(end)
}

// The token that begins at a place.
fn token_at(alloc: Global, text: &str, at: usize) -> Result<Token, LexError>
    requires { at < length text.now }
    ensures { TakesToken at (drop at text.now) result }
{
    let rest = behind(text, at);
    let first = rest[0];
    if first.is_ascii_alphabetic() {
        let token = word_at(alloc, rest, at)?;
        return Ok(token);
    }
    if first.is_ascii_digit() {
        return int_at(rest, at);
    }
    if first == b'"' {
        return text_at(alloc, text, at);
    }
    mark_at(rest, at)
}
