//! What a value begins with.
ghost use Rattle.std.specs.Prelude.{◌≡◌};
ghost use Rattle.pie_roots.specs.inner.Leads.{lead_of, digits_lead, word_lead, is_sign};
ghost use Rattle.pie_roots.specs.inner.Agreement.{Says};

use crate::fault::RootFault;
use pie_base::Text;
use pie_lexer::TokenKind;

// What the first token of a value says of it.
#[derive(Drop)]
pub enum Lead {
    Unit,
    Bool(bool),
    // Digits.
    Int(i64),
    // `-`, behind which digits have to stand.
    Minus,
    Text(Text),
    // `path`, behind which a text in round brackets has to stand.
    Path,
    // `[`
    List,
    // `(`
    Tuple,
    Null,
    // `bytes`, behind which digits in quotes and in round brackets have to stand.
    Bytes,
}

// The tokens between the parts of a value.
#[derive(Clone, Copy, Debug, PartialEq, Eq)]
pub enum Sign {
    Comma,
    OpenRound,
    CloseRound,
    CloseSquare,
}

// What a token says of the value that begins with it.
pub fn lead_in(kind: &TokenKind) -> Result<Lead, RootFault>
    ensures { Says (λ l. l) result (lead_of kind.now) }
{
    match kind {
        TokenKind::UnitWord => Ok(Lead::Unit),
        TokenKind::True => Ok(Lead::Bool(true)),
        TokenKind::False => Ok(Lead::Bool(false)),
        TokenKind::Minus => Ok(Lead::Minus),
        TokenKind::Path => Ok(Lead::Path),
        TokenKind::OpenSquare => Ok(Lead::List),
        TokenKind::OpenRound => Ok(Lead::Tuple),
        TokenKind::Null => Ok(Lead::Null),
        TokenKind::Int(n) => digits(*n),
        TokenKind::Text(text) => {
            let text = text.copy()?;
            Ok(Lead::Text(text))
        }
        TokenKind::Name(name) => word(name),
        _ => Err(RootFault::Bad),
    }
}

// Digits say a number that isn't below zero.
fn digits(n: i64) -> Result<Lead, RootFault>
    ensures { Says (λ l. l) result (digits_lead n) }
{
    if n < 0 {
        return Err(RootFault::Bad);
    }
    Ok(Lead::Int(n))
}

// The one name that begins a value.
fn word(name: &Text) -> Result<Lead, RootFault>
    ensures { Says (λ l. l) result (word_lead name.now) }
{
    if name.as_str().as_bytes() == b"bytes".as_slice() {
        return Ok(Lead::Bytes);
    }
    Err(RootFault::Bad)
}

// Whether a token is this one.
pub fn is(sign: Sign, kind: &TokenKind) -> bool
    ensures { result ≡ is_sign sign kind.now }
{
    match (sign, kind) {
        (Sign::Comma, TokenKind::Comma) => true,
        (Sign::OpenRound, TokenKind::OpenRound) => true,
        (Sign::CloseRound, TokenKind::CloseRound) => true,
        (Sign::CloseSquare, TokenKind::CloseSquare) => true,
        _ => false,
    }
}
