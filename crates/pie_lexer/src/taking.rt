//! One token at a place: a word, digits, a text in quotes or a mark.
ghost use Rattle.std.specs.Prelude.{◌≡◌, ◌+◌, ◌<◌, ◌^◌, true, false, ◌==◌, length, drop, slice_index, IfOk};
ghost use Rattle.std.specs.List.{list_all};
ghost use Rattle.std.specs.Str.{IsUtf8};
ghost use Rattle.pie_lexer.specs.Bytes.{is_letter, is_digit, is_word_byte};
ghost use Rattle.pie_lexer.specs.Words.{word_kind};
ghost use Rattle.pie_lexer.specs.Tokens.{narrow, number_of};
ghost use Rattle.pie_lexer.specs.inner.Answers.{IsTokenAt, TakesToken};

use crate::mark::{mark_of_one, mark_of_two};
use crate::scan::{behind, digits_len, word_len};
use crate::unquote::{Quoted, unquote};
use crate::word::keyword;
use crate::{LexError, Token, TokenKind};
use pie_base::{OutOfMemory, Text};
use std::alloc::Global;
use std::str;

// The keyword or name that begins at a place.
pub fn word_at(alloc: Global, rest: &[u8], at: usize) -> Result<Token, OutOfMemory>
    requires nonempty { 0 < length rest.now }
    requires letter { is_letter (slice_index rest.now 0) ≡ true }
    requires place { at + length rest.now < 2 ^ 64 }
    ensures { IfOk result (IsTokenAt at rest.now) }
{
    let len = word_len(rest);
    let kind = kind_of_word(alloc, &rest[..len])?;
    let end = at + len;
    Ok(Token { kind, at, end })
}

// What a word is.
fn kind_of_word(alloc: Global, word: &[u8]) -> Result<TokenKind, OutOfMemory>
    requires { list_all is_word_byte word.now ≡ true }
    ensures { IfOk result (λ kind. kind ≡ word_kind word.now) }
{
    match keyword(word) {
        Some(kind) => Ok(kind),
        None => Ok(TokenKind::Name(Text::new(alloc, as_text(word))?)),
    }
}

// The digits that begin at a place.
pub fn int_at(rest: &[u8], at: usize) -> Result<Token, LexError>
    requires nonempty { 0 < length rest.now }
    requires digit { is_digit (slice_index rest.now 0) ≡ true }
    requires place { at + length rest.now < 2 ^ 64 }
    ensures { TakesToken at rest.now result }
{
    let len = digits_len(rest);
    match number(&rest[..len]) {
        Some(n) => {
            let end = at + len;
            let kind = TokenKind::Int(n);
            Ok(Token { kind, at, end })
        }
        None => Err(LexError::WideInt(at)),
    }
}

// The number that digits say, where it is no more than 9223372036854775807.
fn number(digits: &[u8]) -> Option<i64>
    requires nonempty { 0 < length digits.now }
    requires digits { list_all is_digit digits.now ≡ true }
    ensures { result ≡ narrow (number_of digits.now) }
{
    as_text(digits).parse::<i64>().ok()
}

// The text in quotes that begins at a place.
pub fn text_at(alloc: Global, text: &str, at: usize) -> Result<Token, LexError>
    requires within { at < length text.now }
    requires quote { slice_index (drop at text.now) 0 ≡ 34 }
    requires place { length text.now < 2 ^ 64 }
    ensures { TakesToken at (drop at text.now) result }
{
    let rest = behind(text, at);
    match unquote(alloc, rest)? {
        Quoted::Closed(said, len) => {
            let said = Text::new(alloc, as_text(said.as_slice()))?;
            let kind = TokenKind::Text(said);
            let end = at + len;
            Ok(Token { kind, at, end })
        }
        Quoted::Open => Err(LexError::OpenText(at)),
        Quoted::BadEscape(after) => Err(LexError::BadEscape(at + after)),
    }
}

// The mark that begins at a place where no word, digits or text does.
pub fn mark_at(rest: &[u8], at: usize) -> Result<Token, LexError>
    requires nonempty { 0 < length rest.now }
    requires no_letter { is_letter (slice_index rest.now 0) ≡ false }
    requires no_digit { is_digit (slice_index rest.now 0) ≡ false }
    requires no_quote { (slice_index rest.now 0 == 34) ≡ false }
    requires place { at + length rest.now < 2 ^ 64 }
    ensures { TakesToken at rest.now result }
{
    if let Some(kind) = mark_of_two(rest) {
        let end = at + 2;
        return Ok(Token { kind, at, end });
    }
    if let Some(kind) = mark_of_one(rest) {
        let end = at + 1;
        return Ok(Token { kind, at, end });
    }
    Err(LexError::BadChar(at))
}

// The text of which these are the bytes.
fn as_text(bytes: &[u8]) -> &str
    requires { IsUtf8 bytes.now }
    ensures { result.now ≡ bytes.now }
{
    match str::from_utf8(bytes) {
        Ok(text) => text,
        Err(_) => unreachable!(),
    }
}
