//! The one call: from tokens to their syntax tree.
ghost use Rattle.std.specs.Prelude.{◌≡◌, IfOk};
ghost use Rattle.pie_parser.specs.FunctionReading.{Reads, offset, last_end};
ghost use Rattle.pie_parser.specs.FunctionGrammar.{IsPipeline};
ghost use Rattle.pie_parser.specs.inner.Whole.{functions_of, FindsAll};

use crate::error::ParseFault;
use crate::reader::{Reader, Room};
use crate::{ParseError, Pipeline};
use pie_base::MAX_BRACKETS;
use pie_lexer::Token;
use std::alloc::Global;

/// How many conditions of `if` may stand open around a token, as in `if if a {..} {..}`: they nest
/// without brackets. More is answered as out of memory.
pub const MAX_CONDITIONS: u32 = 100;

/// The syntax tree of these tokens.
/// Rule: docs/LANGUAGE.md, "Grammar".
pub fn parse(alloc: Global, tokens: &[Token]) -> Result<Pipeline, ParseError>
    ensures tree { IfOk result (λ p. IsPipeline tokens.now p.functions.items) }
    ensures all { FindsAll result tokens.now }
    ensures read { Reads (functions_of result) tokens.now }
{
    read(alloc, tokens)
}

// What the reader answers to all tokens.
fn read(alloc: Global, tokens: &[Token]) -> Result<Pipeline, ParseError>
    ensures { Reads (functions_of result) tokens.now }
{
    let mut reader = Reader {
        rest: tokens,
        past: 0,
        marked: false,
    };
    let room = Room {
        brackets: MAX_BRACKETS as u32,
        conditions: MAX_CONDITIONS,
        in_read: false,
    };
    match reader.pipeline(alloc, room) {
        Ok(functions) => Ok(Pipeline { functions }),
        Err(ParseFault::Expected) => Err(ParseError::Expected(offset_of(&reader, tokens))),
        Err(ParseFault::TooDeep) => Err(ParseError::TooDeep(offset_of(&reader, tokens))),
        Err(ParseFault::OutOfMemory) => Err(ParseError::OutOfMemory),
    }
}

// Where a reader stands: at the next token's first byte, or behind the last token at its end.
fn offset_of(reader: &Reader, tokens: &[Token]) -> usize
    ensures { result ≡ offset tokens.now reader.now }
{
    match reader.rest {
        [token, ..] => token.at,
        [] => end_of(tokens),
    }
}

// The end of the last token, or 0 where there is none.
fn end_of(tokens: &[Token]) -> usize
    ensures { result ≡ last_end 0 tokens.now }
{
    let mut end = 0;
    for token in tokens {
        end = token.end;
    }
    end
}
