//! Keywords.
ghost use Rattle.std.specs.Prelude.{◌≡◌};
ghost use Rattle.pie_lexer.specs.Words.{type_words, flow_words, effect_words, look_up, keyword_of};

use crate::TokenKind;

// The keyword that is spelled so.
pub fn keyword(word: &[u8]) -> Option<TokenKind>
    ensures { result ≡ keyword_of word.now }
{
    if let Some(kind) = type_keyword(word) {
        return Some(kind);
    }
    if let Some(kind) = flow_keyword(word) {
        return Some(kind);
    }
    effect_keyword(word)
}

// The keywords of types and of values.
fn type_keyword(word: &[u8]) -> Option<TokenKind>
    ensures { result ≡ look_up word.now type_words }
{
    if word == b"true".as_slice() {
        return Some(TokenKind::True);
    }
    if word == b"false".as_slice() {
        return Some(TokenKind::False);
    }
    if word == b"unit".as_slice() {
        return Some(TokenKind::UnitWord);
    }
    if word == b"bool".as_slice() {
        return Some(TokenKind::BoolWord);
    }
    if word == b"int".as_slice() {
        return Some(TokenKind::IntWord);
    }
    if word == b"text".as_slice() {
        return Some(TokenKind::TextWord);
    }
    if word == b"path".as_slice() {
        return Some(TokenKind::Path);
    }
    if word == b"null".as_slice() {
        return Some(TokenKind::Null);
    }
    if word == b"empty".as_slice() {
        return Some(TokenKind::Empty);
    }
    None
}

// The keywords of functions and of control.
fn flow_keyword(word: &[u8]) -> Option<TokenKind>
    ensures { result ≡ look_up word.now flow_words }
{
    if word == b"func".as_slice() {
        return Some(TokenKind::Func);
    }
    if word == b"val".as_slice() {
        return Some(TokenKind::Val);
    }
    if word == b"if".as_slice() {
        return Some(TokenKind::If);
    }
    if word == b"else".as_slice() {
        return Some(TokenKind::Else);
    }
    if word == b"for".as_slice() {
        return Some(TokenKind::For);
    }
    if word == b"in".as_slice() {
        return Some(TokenKind::In);
    }
    None
}

// The keywords of effects.
fn effect_keyword(word: &[u8]) -> Option<TokenKind>
    ensures { result ≡ look_up word.now effect_words }
{
    if word == b"require".as_slice() {
        return Some(TokenKind::Require);
    }
    if word == b"run".as_slice() {
        return Some(TokenKind::Run);
    }
    if word == b"by".as_slice() {
        return Some(TokenKind::By);
    }
    if word == b"hash".as_slice() {
        return Some(TokenKind::Hash);
    }
    if word == b"mark".as_slice() {
        return Some(TokenKind::Mark);
    }
    if word == b"read".as_slice() {
        return Some(TokenKind::Read);
    }
    if word == b"exists".as_slice() {
        return Some(TokenKind::Exists);
    }
    if word == b"digest".as_slice() {
        return Some(TokenKind::Digest);
    }
    if word == b"list".as_slice() {
        return Some(TokenKind::List);
    }
    if word == b"write".as_slice() {
        return Some(TokenKind::Write);
    }
    if word == b"fail".as_slice() {
        return Some(TokenKind::Fail);
    }
    None
}
