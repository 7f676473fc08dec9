//! Marks: the tokens that are neither words, digits nor texts.
ghost use Rattle.std.specs.Prelude.{◌≡◌};
ghost use Rattle.pie_lexer.specs.Marks.{double_of, single_of, pair_at, byte_at};

use crate::TokenKind;

// The mark of two bytes that stands in front.
pub fn mark_of_two(rest: &[u8]) -> Option<TokenKind>
    ensures { result ≡ pair_at rest.now }
{
    match rest {
        [first, second, ..] => double_mark(*first, *second),
        _ => None,
    }
}

// The mark of one byte that stands in front.
pub fn mark_of_one(rest: &[u8]) -> Option<TokenKind>
    ensures { result ≡ byte_at rest.now }
{
    match rest {
        [byte, ..] => single_mark(*byte),
        _ => None,
    }
}

// The mark of two bytes that is spelled so.
fn double_mark(first: u8, second: u8) -> Option<TokenKind>
    ensures { result ≡ double_of first second }
{
    if first == b'-' && second == b'>' {
        return Some(TokenKind::Arrow);
    }
    if first == b'<' && second == b'=' {
        return Some(TokenKind::LessEqual);
    }
    if first == b'>' && second == b'=' {
        return Some(TokenKind::GreaterEqual);
    }
    if first == b'=' && second == b'=' {
        return Some(TokenKind::Equal);
    }
    if first == b'!' && second == b'=' {
        return Some(TokenKind::NotEqual);
    }
    if first == b'&' && second == b'&' {
        return Some(TokenKind::And);
    }
    if first == b'|' && second == b'|' {
        return Some(TokenKind::Or);
    }
    None
}

// The mark of one byte that is spelled so.
fn single_mark(byte: u8) -> Option<TokenKind>
    ensures { result ≡ single_of byte }
{
    match byte {
        b'(' => Some(TokenKind::OpenRound),
        b')' => Some(TokenKind::CloseRound),
        b'{' => Some(TokenKind::OpenBrace),
        b'}' => Some(TokenKind::CloseBrace),
        b'[' => Some(TokenKind::OpenSquare),
        b']' => Some(TokenKind::CloseSquare),
        b',' => Some(TokenKind::Comma),
        b';' => Some(TokenKind::Semicolon),
        b':' => Some(TokenKind::Colon),
        b'=' => Some(TokenKind::Assign),
        b'+' => Some(TokenKind::Plus),
        b'-' => Some(TokenKind::Minus),
        b'*' => Some(TokenKind::Star),
        b'/' => Some(TokenKind::Slash),
        b'%' => Some(TokenKind::Percent),
        b'<' => Some(TokenKind::Less),
        b'>' => Some(TokenKind::Greater),
        b'!' => Some(TokenKind::Not),
        b'?' => Some(TokenKind::Question),
        b'.' => Some(TokenKind::Dot),
        _ => None,
    }
}
