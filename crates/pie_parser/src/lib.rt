//! The syntax tree of a pipeline, from its tokens.
#![tactic(auto)]

mod block;
mod call;
mod chain;
mod error;
mod function;
mod kind;
mod parsing;
mod primary;
mod reader;
mod tree;
mod type_tree;
mod typing;

pub use error::ParseError;
pub use parsing::{MAX_CONDITIONS, parse};
pub use tree::{
    Block, CallKind, Comparison, EffectKind, Expr, Form, Function, Index, Line, Literal, Name,
    Operator, Param, Pipeline, Prefix, Step,
};
pub use type_tree::{PlainType, Type, TypeForm};
