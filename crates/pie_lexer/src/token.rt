//! Tokens: what they are, and where they stand.
use pie_base::Text;

/// A token and the bytes that it takes, from `at` up to `end`, counted from 0.
#[derive(Drop)]
pub struct Token {
    pub kind: TokenKind,
    pub at: usize,
    pub end: usize,
}

/// What a token is. Rule: docs/LANGUAGE.md, "Tokens".
#[derive(Drop)]
pub enum TokenKind {
    /// A name: a letter, then letters, digits and `_`, and no keyword.
    Name(Text),
    /// Digits, by their value.
    Int(i64),
    /// A text in quotes, with its escapes resolved.
    Text(Text),
    /// `func`
    Func,
    /// `val`
    Val,
    /// `if`
    If,
    /// `else`
    Else,
    /// `true`
    True,
    /// `false`
    False,
    /// `unit`
    UnitWord,
    /// `bool`
    BoolWord,
    /// `int`
    IntWord,
    /// `text`
    TextWord,
    /// `path`
    Path,
    /// `null`
    Null,
    /// `empty`
    Empty,
    /// `require`
    Require,
    /// `run`
    Run,
    /// `by`
    By,
    /// `hash`
    Hash,
    /// `mark`
    Mark,
    /// `read`
    Read,
    /// `exists`
    Exists,
    /// `digest`
    Digest,
    /// `list`
    List,
    /// `write`
    Write,
    /// `fail`
    Fail,
    /// `for`
    For,
    /// `in`
    In,
    /// `(`
    OpenRound,
    /// `)`
    CloseRound,
    /// `{`
    OpenBrace,
    /// `}`
    CloseBrace,
    /// `[`
    OpenSquare,
    /// `]`
    CloseSquare,
    /// `,`
    Comma,
    /// `;`
    Semicolon,
    /// `:`
    Colon,
    /// `=`
    Assign,
    /// `+`
    Plus,
    /// `-`
    Minus,
    /// `*`
    Star,
    /// `/`
    Slash,
    /// `%`
    Percent,
    /// `<`
    Less,
    /// `>`
    Greater,
    /// `<=`
    LessEqual,
    /// `>=`
    GreaterEqual,
    /// `==`
    Equal,
    /// `!=`
    NotEqual,
    /// `!`
    Not,
    /// `&&`
    And,
    /// `||`
    Or,
    /// `?`
    Question,
    /// `->`
    Arrow,
    /// `.`
    Dot,
}
