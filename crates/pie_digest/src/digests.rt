//! The digests of functions, by which a build knows that a function is as before.
ghost use Rattle.std.specs.Prelude.{◌≡◌, ◌≤◌, ◌++◌, IfOk, OnOk, min, take, length, List, IsPermutation, IsSortedByKey};
ghost use Rattle.sha2.specs.Sha256.{sha256};
ghost use Rattle.pie_parser.specs.FunctionGrammar.{IsPipeline};
ghost use Rattle.pie_parser.specs.FunctionTrees.{FunctionTree};
ghost use Rattle.pie_digest.specs.Digests as spec;
ghost use Rattle.pie_digest.specs.Digests.{HasNames};

use pie_base::{OutOfMemory, Text};
use pie_lexer::{Token, TokenKind};
use sha2::{Digest, Sha256};
use std::alloc::Global;
use std::cmp::Ordering;

/// The name and the digest of each function in the order of names: a shorter one comes first, and at one length
/// the bytes decide. The digest is the SHA-256 of the function's tokens as they are spelled in the text, from `func`
/// to its last brace, joined by one space. Rule: docs/FORMATS.md, "The store".
pub fn func_digests(
    alloc: Global,
    text: &str,
    tokens: &[Token],
) -> Result<Vec<(Text, [u8; 32])>, OutOfMemory>
    ensures all { IfOk result (λ rows. IsPermutation (spec.digests_of text.now tokens.now) rows.items) }
    ensures names { (fs : List FunctionTree) → IsPipeline tokens.now fs → IfOk result (λ rows. HasNames fs rows.items) }
    ensures ordered { IfOk result (λ rows. IsSortedByKey (λ row. row.0) spec.name_cmp rows.items) }
{
    let mut rows = digests(alloc, text, tokens)?;
    rows.sort_by(|a, b| name_order(&a.0, &b.0))?;
    Ok(rows)
}

// Which of two names comes first.
fn name_order(a: &Text, b: &Text) -> Ordering
    ensures { result ≡ spec.name_cmp a.now b.now }
{
    match a.as_str().len().cmp(&b.as_str().len()) {
        Ordering::Equal => a.as_str().cmp(b.as_str()),
        first => first,
    }
}

// The name and the digest of each function, in text order.
fn digests(
    alloc: Global,
    text: &str,
    tokens: &[Token],
) -> Result<Vec<(Text, [u8; 32])>, OutOfMemory>
    ensures { IfOk result (λ rows. rows.items ≡ spec.digests_of text.now tokens.now) }
{
    let mut rows = Vec::new(alloc);
    for i in 0..tokens.len() {
        note(alloc, &mut rows, text, &tokens[i..])?;
    }
    Ok(rows)
}

// One row more, if a function begins here.
fn note(
    alloc: Global,
    rows: &mut Vec<(Text, [u8; 32])>,
    text: &str,
    tokens: &[Token],
) -> Result<(), OutOfMemory>
    ensures { OnOk result (rows.new.items ≡ rows.old.items ++ spec.digest_here text.now tokens.now) }
{
    match tokens {
        [token, ..] if is_func(token) => {
            let name = name_of(alloc, tokens)?;
            let digest = digest_of(alloc, text, function_tokens(tokens))?;
            rows.push((name, digest))?;
            Ok(())
        }
        _ => Ok(()),
    }
}

// Whether a function begins with this token.
fn is_func(token: &Token) -> bool
    ensures { result ≡ spec.is_func token.now.kind }
{
    match token.kind {
        TokenKind::Func => true,
        _ => false,
    }
}

// The name of the function that begins here.
fn name_of(alloc: Global, tokens: &[Token]) -> Result<Text, OutOfMemory>
    ensures { IfOk result (λ name. name ≡ spec.name_of tokens.now) }
{
    match tokens {
        [_, second, ..] => name_in(alloc, second),
        _ => Text::new(alloc, ""),
    }
}

// The name that a token spells.
fn name_in(alloc: Global, token: &Token) -> Result<Text, OutOfMemory>
    ensures { IfOk result (λ name. name ≡ spec.name_in token.now.kind) }
{
    match &token.kind {
        TokenKind::Name(name) => name.copy(),
        _ => Text::new(alloc, ""),
    }
}

// The tokens of the function that begins here.
fn function_tokens(tokens: &[Token]) -> &[Token]
    ensures { result.now ≡ spec.function_tokens tokens.now }
{
    match tokens {
        [_, rest @ ..] => &tokens[..1 + next_func(rest)],
        [] => tokens,
    }
}

// How many tokens there are before the next function.
#[tactic(auto, using(crate::proofs::Digesting::no_func_yet, crate::proofs::Digesting::func_here, crate::proofs::Digesting::no_func))]
fn next_func(tokens: &[Token]) -> usize
    ensures before { take result tokens.now ≡ spec.before_func tokens.now }
    ensures within { result ≤ length tokens.now }
{
    for i in 0..tokens.len() {
        if is_func(&tokens[i]) {
            return i;
        }
    }
    tokens.len()
}

// The SHA-256 of the spellings of tokens, joined by one space.
fn digest_of(alloc: Global, text: &str, tokens: &[Token]) -> Result<[u8; 32], OutOfMemory>
    ensures { IfOk result (λ digest. digest ≡ sha256 (spec.spelled text.now tokens.now)) }
{
    let bytes = spelled(alloc, text, tokens)?;
    let mut hasher = Sha256::new();
    hasher.update(bytes.as_slice());
    Ok(hasher.finalize())
}

// The spellings of tokens, joined by one space.
fn spelled(alloc: Global, text: &str, tokens: &[Token]) -> Result<Vec<u8>, OutOfMemory>
    ensures { IfOk result (λ bytes. bytes.items ≡ spec.spelled text.now tokens.now) }
{
    let mut bytes = Vec::new(alloc);
    if let [first, rest @ ..] = tokens {
        bytes.extend_from_slice(spelling(text, first))?;
        add_spaced(&mut bytes, text, rest)?;
    }
    Ok(bytes)
}

// Spellings with a space before each.
#[tactic(auto, using(crate::proofs::Digesting::spaced_turn))]
fn add_spaced(bytes: &mut Vec<u8>, text: &str, tokens: &[Token]) -> Result<(), OutOfMemory>
    ensures { OnOk result (bytes.new.items ≡ bytes.old.items ++ spec.spaced text.now tokens.now) }
{
    for token in tokens {
        bytes.push(b' ')?;
        bytes.extend_from_slice(spelling(text, token))?;
    }
    Ok(())
}

// The bytes that a token takes of a text.
#[tactic(auto, using(crate::proofs::Digesting::range_within))]
fn spelling<'a>(text: &'a str, token: &Token) -> &'a [u8]
    ensures { result.now ≡ spec.spelling text.now token.now }
{
    let bytes = text.as_bytes();
    let end = smaller(token.end, bytes.len());
    let at = smaller(token.at, end);
    &bytes[at..end]
}

// The smaller of two.
fn smaller(a: usize, b: usize) -> usize
    ensures { result ≡ min a b }
{
    if a < b { a } else { b }
}
