//! Usual causes where the grammar ends.

use crate::naming::name_of;
use pie_lexer::{Token, TokenKind};

/// What stands where the grammar ends, and before it.
#[derive(Drop)]
pub(crate) struct Around<'a> {
    pub(crate) before: Option<&'a TokenKind>,
    pub(crate) here: Option<&'a TokenKind>,
}

/// The tokens around a place.
pub(crate) fn tokens_around(tokens: &[Token], at: usize) -> Around<'_> {
    let mut before = None;
    for token in tokens {
        if token.at >= at {
            return Around {
                before,
                here: Some(&token.kind),
            };
        }
        before = Some(&token.kind);
    }
    Around { before, here: None }
}

/// The usual cause, if there is one.
pub(crate) fn hint(around: &Around<'_>) -> Option<&'static str> {
    match around.here {
        Some(here) => match hint_before(around.before, here) {
            Some(hint) => Some(hint),
            None => hint_here(here),
        },
        None => Some("the text ends here: a bracket isn't closed, or something is missing"),
    }
}

// By what stands before the token, and by the token.
fn hint_before(before: Option<&TokenKind>, here: &TokenKind) -> Option<&'static str> {
    match (before?, here) {
        (TokenKind::Else, TokenKind::If) => Some("there is no `else if`: write `else { if .. }`"),
        (TokenKind::OpenSquare, TokenKind::CloseSquare) => {
            Some("an empty list names the type of its items: `empty int`")
        }
        (TokenKind::Comma, TokenKind::CloseRound) | (TokenKind::Comma, TokenKind::CloseSquare) => {
            Some("no comma stands before a closing bracket")
        }
        (TokenKind::CloseRound, TokenKind::OpenBrace) => {
            Some("the type of the result stands behind `->`; without a result it is `-> unit`")
        }
        (TokenKind::Null, _) => Some(
            "`null` names its type, `null text`; better ask `is_null(..)`",
        ),
        (TokenKind::Name(name), here) => hint_behind_name(name.as_str(), here),
        _ => None,
    }
}

// By a name before the token.
fn hint_behind_name(name: &str, here: &TokenKind) -> Option<&'static str> {
    match (hint_behind(name), here) {
        (Some(hint), _) => Some(hint),
        (None, TokenKind::CloseRound) => Some("each parameter has its type: `n: int`"),
        (None, _) => None,
    }
}

// By a name that other languages have as a keyword.
fn hint_behind(name: &str) -> Option<&'static str> {
    match name {
        "let" | "var" | "const" => Some("a value gets its name by `val`"),
        "return" => Some("there is no `return`: the last expression is what the function gives"),
        "while" | "loop" => Some("there is no loop: `[require g(p) for p in ps]`"),
        "fn" | "def" | "function" => Some("a function begins with `func`"),
        _ => None,
    }
}

// By the token alone.
fn hint_here(here: &TokenKind) -> Option<&'static str> {
    match here {
        TokenKind::Assign => Some("equal is `==`; `=` stands behind a `val` name alone"),
        TokenKind::For => Some("there is no loop: `[require g(p) for p in ps]`"),
        TokenKind::Val | TokenKind::Require | TokenKind::Write | TokenKind::Run => {
            Some(
                "is a `;` missing before it? Each `val`, and each expression but the last, ends with one",
            )
        }
        TokenKind::Func => Some("is a `}` missing before it?"),
        TokenKind::CloseBrace => Some("is something missing before it, or is it one `}` too many?"),
        TokenKind::Name(name) => hint_behind(name.as_str()),
        _ => None,
    }
}
