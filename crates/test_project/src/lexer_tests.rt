//! Tokens of texts that were written out by hand.
use pie_lexer::{LexError, Token, TokenKind, lex};
use std::alloc::{AllocError, Global};

// How a token is written in the tables below.
fn shown(alloc: Global, kind: &TokenKind) -> Result<String, AllocError> {
    match kind {
        TokenKind::Name(name) => format!(in alloc; "name {}", name.as_str()),
        TokenKind::Int(n) => format!(in alloc; "int {n}"),
        TokenKind::Text(text) => format!(in alloc; "text {}", text.as_str()),
        _ => String::from_str(alloc, spelled(kind)),
    }
}

// A keyword or a mark as it is spelled.
fn spelled(kind: &TokenKind) -> &'static str {
    match kind {
        TokenKind::Name(_) => "name",
        TokenKind::Int(_) => "number",
        TokenKind::Text(_) => "quoted",
        TokenKind::Func => "func",
        TokenKind::Val => "val",
        TokenKind::If => "if",
        TokenKind::Else => "else",
        TokenKind::True => "true",
        TokenKind::False => "false",
        TokenKind::UnitWord => "unit",
        TokenKind::BoolWord => "bool",
        TokenKind::IntWord => "int",
        TokenKind::TextWord => "text",
        TokenKind::Path => "path",
        TokenKind::Null => "null",
        TokenKind::Empty => "empty",
        TokenKind::Require => "require",
        TokenKind::Run => "run",
        TokenKind::By => "by",
        TokenKind::Hash => "hash",
        TokenKind::Mark => "mark",
        TokenKind::Read => "read",
        TokenKind::Exists => "exists",
        TokenKind::Digest => "digest",
        TokenKind::List => "list",
        TokenKind::Write => "write",
        TokenKind::Fail => "fail",
        TokenKind::For => "for",
        TokenKind::In => "in",
        TokenKind::OpenRound => "(",
        TokenKind::CloseRound => ")",
        TokenKind::OpenBrace => "{",
        TokenKind::CloseBrace => "}",
        TokenKind::OpenSquare => "[",
        TokenKind::CloseSquare => "]",
        TokenKind::Comma => ",",
        TokenKind::Semicolon => ";",
        TokenKind::Colon => ":",
        TokenKind::Assign => "=",
        TokenKind::Plus => "+",
        TokenKind::Minus => "-",
        TokenKind::Star => "*",
        TokenKind::Slash => "/",
        TokenKind::Percent => "%",
        TokenKind::Less => "<",
        TokenKind::Greater => ">",
        TokenKind::LessEqual => "<=",
        TokenKind::GreaterEqual => ">=",
        TokenKind::Equal => "==",
        TokenKind::NotEqual => "!=",
        TokenKind::Not => "!",
        TokenKind::And => "&&",
        TokenKind::Or => "||",
        TokenKind::Question => "?",
        TokenKind::Arrow => "->",
        TokenKind::Dot => ".",
    }
}

// The tokens with their places, one after another.
fn listed(alloc: Global, tokens: &[Token]) -> Result<String, AllocError> {
    let mut out = String::new(alloc);
    for token in tokens {
        let kind = shown(alloc, &token.kind)?;
        let line = format!(in alloc; "{}..{} {}|", token.at, token.end, kind)?;
        out.push_str(line.as_str())?;
    }
    Ok(out)
}

#[test]
fn the_longest_token_is_taken(rt: HostRuntime) {
    let cases = [
        ("", ""),
        (" \t\r\n", ""),
        ("// a comment", ""),
        ("// a\r b\nx", "8..9 name x|"),
        ("a//b", "0..1 name a|"),
        ("a / /b", "0..1 name a|2..3 /|4..5 /|5..6 name b|"),
        ("func funcs _", "!"),
        ("func f_1", "0..4 func|5..8 name f_1|"),
        ("12ab", "0..2 int 12|2..4 name ab|"),
        ("007", "0..3 int 7|"),
        ("9223372036854775807", "0..19 int 9223372036854775807|"),
        (
            "a->b-c",
            "0..1 name a|1..3 ->|3..4 name b|4..5 -|5..6 name c|",
        ),
        ("<===!=!", "0..2 <=|2..4 ==|4..6 !=|6..7 !|"),
        (">=>&&||", "0..2 >=|2..3 >|3..5 &&|5..7 |||"),
        (
            "(){}[],;:=+*/%<?.",
            "0..1 (|1..2 )|2..3 {|3..4 }|4..5 [|5..6 ]|6..7 ,|7..8 ;|8..9 :|9..10 =|10..11 +|11..12 *|12..13 /|13..14 %|14..15 <|15..16 ?|16..17 .|",
        ),
        (
            "true false unit bool int",
            "0..4 true|5..10 false|11..15 unit|16..20 bool|21..24 int|",
        ),
        (
            "text path null empty val",
            "0..4 text|5..9 path|10..14 null|15..20 empty|21..24 val|",
        ),
        (
            "if else for in require run",
            "0..2 if|3..7 else|8..11 for|12..14 in|15..22 require|23..26 run|",
        ),
        (
            "by hash mark read exists",
            "0..2 by|3..7 hash|8..12 mark|13..17 read|18..24 exists|",
        ),
        (
            "digest list write fail",
            "0..6 digest|7..11 list|12..17 write|18..22 fail|",
        ),
        ("\"\"", "0..2 text |"),
        ("\"a\tb\" \"// c\"", "0..5 text a\tb|6..12 text // c|"),
        ("\"\\\"\\\\\\n\\t.\"", "0..11 text \"\\\n\t.|"),
        ("\"é\\n€\"x", "0..9 text é\n€|9..10 name x|"),
    ];
    let alloc = rt.alloc();
    for (text, wanted) in cases {
        match lex(alloc, text) {
            Ok(tokens) => match listed(alloc, tokens.as_slice()) {
                Ok(found) => assert!(rt; found.as_str() == wanted, "{text}: {found}"),
                Err(_) => assert!(rt; false, "out of memory"),
            },
            Err(_) => assert!(rt; wanted == "!", "{text} is refused"),
        }
    }
}

#[test]
fn the_first_fault_from_the_left_is_answered(rt: HostRuntime) {
    let cases = [
        ("a $", LexError::BadChar(2)),
        ("&", LexError::BadChar(0)),
        ("a |b", LexError::BadChar(2)),
        ("_x", LexError::BadChar(0)),
        ("\u{feff}a", LexError::BadChar(0)),
        ("é", LexError::BadChar(0)),
        ("1 \"ab", LexError::OpenText(2)),
        ("\"ab\nc\"", LexError::OpenText(0)),
        ("\"ab\\", LexError::OpenText(0)),
        ("\"", LexError::OpenText(0)),
        ("\"a\\x\n", LexError::BadEscape(2)),
        ("\"a\\\n\"", LexError::BadEscape(2)),
        ("\"é\\é", LexError::BadEscape(3)),
        ("a\n9223372036854775808", LexError::WideInt(2)),
        ("99999999999999999999999 $", LexError::WideInt(0)),
        ("$ \"", LexError::BadChar(0)),
    ];
    let alloc = rt.alloc();
    for (text, wanted) in cases {
        match lex(alloc, text) {
            Ok(_) => assert!(rt; false, "{text} is taken"),
            Err(found) => assert!(rt; found == wanted, "{text}: {found:?}"),
        }
    }
}
