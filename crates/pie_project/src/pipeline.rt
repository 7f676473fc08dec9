//! The pipeline of a project, from its bytes.
ghost use Rattle.std.specs.Prelude.{◌≡◌, ◌≤◌, length, Ok, IfOk, IsErrOf};
ghost use Rattle.pie_parser.specs.FunctionGrammar.{IsPipeline};
ghost use Rattle.pie_types.specs.inner.WholeRules.{IsTyped};
ghost use Rattle.pie_project.specs.Digested.{AreRows, IsDigested};
ghost use Rattle.pie_project.specs.Fronts.{most, BytesSay, TextSays, TokensSay, tree_says};
ghost use Rattle.pie_project.specs.inner.Errors.{lexer_error, parser_error};
ghost use Rattle.pie_project.specs.inner.Only.{IsOnly};
ghost use Rattle.pie_project.specs.Refusals.{Says};

use crate::{BuildError, PipelineFault};
use pie_base::{MAX_PIPELINE_BYTES, Text};
use pie_digest::func_digests;
use pie_lexer::{LexError, Token, lex};
use pie_parser::{ParseError, Pipeline, parse};
use pie_types::{TypeError, Typed, check};
use std::alloc::Global;

/// A pipeline with its types, and the name and the digest of each of its functions in the order of names.
#[derive(Drop)]
pub(crate) struct Digested {
    pub(crate) typed: Typed,
    pub(crate) digests: Vec<(Text, [u8; 32])>,
}

/// The pipeline that these bytes are, with its types and digests.
pub(crate) fn digested_of(alloc: Global, bytes: &[u8]) -> Result<Digested, BuildError>
    ensures found { Says (λ p. p.typed) (IsOnly (BytesSay bytes.now)) result }
    ensures digested { IfOk result (λ p. IsDigested bytes.now p.typed p.digests.items) }
    ensures no_fault { IsErrOf result BuildError.Files → ⊥ }
{
    if bytes.len() > MAX_PIPELINE_BYTES {
        return Err(BuildError::Pipeline(PipelineFault::TooLong));
    }
    match str::from_utf8(bytes) {
        Ok(text) => of_text(alloc, text),
        Err(_) => Err(BuildError::Pipeline(PipelineFault::NotText)),
    }
}

// The pipeline that a text is.
fn of_text(alloc: Global, text: &str) -> Result<Digested, BuildError>
    requires { length text.now ≤ most }
    ensures found { Says (λ p. p.typed) (IsOnly (TextSays text.now)) result }
    ensures digested { IfOk result (λ p. IsDigested text.now p.typed p.digests.items) }
    ensures no_fault { IsErrOf result BuildError.Files → ⊥ }
{
    match lex(alloc, text) {
        Ok(tokens) => of_tokens(alloc, text, tokens.as_slice()),
        Err(error) => Err(lex_error(error)),
    }
}

// A refusal of the lexer, or out of memory.
fn lex_error(error: LexError) -> BuildError
    ensures { result ≡ lexer_error error }
{
    match error {
        LexError::OutOfMemory => BuildError::OutOfMemory,
        _ => BuildError::Pipeline(PipelineFault::Lex(error)),
    }
}

// The pipeline that the tokens of a text are.
fn of_tokens(alloc: Global, text: &str, tokens: &[Token]) -> Result<Digested, BuildError>
    ensures found { Says (λ p. p.typed) (IsOnly (TokensSay tokens.now)) result }
    ensures rows { IfOk result (λ p. AreRows text.now tokens.now p.typed p.digests.items) }
    ensures no_fault { IsErrOf result BuildError.Files → ⊥ }
{
    match parse(alloc, tokens) {
        Ok(pipeline) => match of_tree(alloc, pipeline) {
            Ok(typed) => with_digests(alloc, text, tokens, typed),
            Err(error) => Err(error),
        },
        Err(error) => Err(parse_error(error)),
    }
}

// The pipeline with the digests of its functions, which are those of the tokens of this text.
fn with_digests(
    alloc: Global,
    text: &str,
    tokens: &[Token],
    typed: Typed,
) -> Result<Digested, BuildError>
    requires pipeline { IsPipeline tokens.now typed }
    requires typed { IsTyped typed }
    ensures typed { Says (λ p. p.typed) (λ r. r ≡ Ok typed) result }
    ensures rows { IfOk result (λ p. AreRows text.now tokens.now p.typed p.digests.items) }
    ensures no_fault { IsErrOf result BuildError.Files → ⊥ }
{
    match func_digests(alloc, text, tokens) {
        Ok(digests) => Ok(Digested { typed, digests }),
        Err(_) => Err(BuildError::OutOfMemory),
    }
}

// A refusal of the parser, or out of memory.
fn parse_error(error: ParseError) -> BuildError
    ensures { result ≡ parser_error error }
{
    match error {
        ParseError::OutOfMemory => BuildError::OutOfMemory,
        _ => BuildError::Pipeline(PipelineFault::Parse(error)),
    }
}

// The pipeline that a tree is.
fn of_tree(alloc: Global, pipeline: Pipeline) -> Result<Typed, BuildError>
    ensures found { Says (λ t. t) (λ r. r ≡ tree_says pipeline.functions.items) result }
    ensures typed { IfOk result (λ t. (t ≡ pipeline.functions.items) × IsTyped t) }
    ensures no_fault { IsErrOf result BuildError.Files → ⊥ }
{
    match check(alloc, pipeline) {
        Ok(typed) => Ok(typed),
        Err(TypeError::Fault(fault)) => Err(BuildError::Pipeline(PipelineFault::Types(fault))),
        Err(TypeError::OutOfMemory) => Err(BuildError::OutOfMemory),
    }
}
