//! The tokens of a pipeline text.
#![tactic(auto)]

mod error;
mod lexing;
mod mark;
mod scan;
mod taking;
mod token;
mod unquote;
mod word;

pub use error::LexError;
pub use lexing::lex;
pub use token::{Token, TokenKind};
