//! The syntax tree.
ghost use Rattle.std.specs.Prelude.{◌≡◌};

use crate::Type;
use pie_base::Text;
use std::marker::Model;

/// A pipeline: its functions in text order.
#[derive(Drop)]
pub struct Pipeline {
    pub functions: Vec<Function>,
}

/// A function and the bytes that it takes, from `func` to the end of its body.
/// Contracts see a plain tree.
#[derive(Drop)]
pub struct Function {
    pub at: usize,
    pub end: usize,
    pub name: Name,
    pub params: Vec<Param>,
    pub result: Type,
    pub body: Block,
}

impl Model for Function {
    ghost use Rattle.pie_parser.specs.FunctionTrees.{FunctionTree};
    ghost use Rattle.pie_parser.specs.inner.FunctionCodes.{coded_function};

    ghost Value = { FunctionTree };

    ghost coded = { coded_function };

    ghost use Rattle.pie_parser.specs.TreeView.{block_of};

    ghost view = { λ f. record { at = f.at; end = f.end; name = f.name; params = f.params.items; result = f.result; body = block_of f.body } };
}

/// A parameter and the bytes that it takes, from its name to the end of its type.
#[derive(Drop)]
pub struct Param {
    pub at: usize,
    pub end: usize,
    pub name: Name,
    pub kind: Type,
}

/// A name and the bytes that it takes.
#[derive(Drop)]
pub struct Name {
    pub at: usize,
    pub end: usize,
    pub text: Text,
}

/// A block and the bytes that it takes, its braces included.
#[cycle(tree)]
#[derive(Drop)]
pub struct Block {
    pub at: usize,
    pub end: usize,
    pub lines: Vec<Line>,
    /// The expression behind the last semicolon.
    pub last: Option<Expr>,
}

/// A line of a block, up to its semicolon.
#[cycle(tree)]
#[derive(Drop)]
pub enum Line {
    /// `val name = value;`: the bytes that it takes, from `val` to the semicolon.
    Val(usize, usize, Name, Expr),
    /// `value;`
    Expr(Expr),
}

/// An expression and the bytes that it takes, from `at` up to `end`. Round brackets around one
/// expression are no part of it. Contracts see a plain tree.
#[cycle(tree)]
#[derive(Drop)]
pub struct Expr {
    pub at: usize,
    pub end: usize,
    pub form: Form,
}

/// What an expression is.
#[cycle(tree)]
#[derive(Drop)]
pub enum Form {
    Literal(Literal),
    Name(Text),
    /// `null T`
    Null(Type),
    /// `empty T`
    Empty(Type),
    /// A chain of one level of operators: its first operand, and the steps after it, one or more.
    Chain(Box<Expr>, Vec<Step>),
    Compare(Comparison, Box<Expr>, Box<Expr>),
    Prefix(Prefix, Box<Expr>),
    /// `e.0.1`: a chain of projections, one or more.
    Project(Box<Expr>, Vec<Index>),
    /// `(a, b)`, two items or more.
    Tuple(Vec<Expr>),
    /// `[a, b]`, one item or more.
    List(Vec<Expr>),
    /// `[item for name in list]`
    Each(Box<Expr>, Name, Box<Expr>),
    /// `if c {..}`, and what comes after `else`.
    If(Box<Expr>, Box<Block>, Option<Box<Block>>),
    Call(CallKind, Name, Vec<Expr>),
    Effect(EffectKind, Box<Expr>),
    /// `write(path, value)`
    Write(Box<Expr>, Box<Expr>),
    /// `fail T(text)`
    Fail(Type, Box<Expr>),
}

/// A step of a chain.
#[cycle(tree)]
#[derive(Drop)]
pub struct Step {
    pub operator: Operator,
    pub operand: Expr,
}

/// The number of a projection and the bytes that it takes.
#[derive(Clone, Copy)]
pub struct Index {
    pub at: usize,
    pub end: usize,
    pub number: i64,
}

/// A literal.
#[derive(Drop)]
pub enum Literal {
    Int(i64),
    Text(Text),
    Bool(bool),
    Unit,
}

/// An operator of a chain. All operators of one chain have one level.
#[derive(Clone, Copy, Debug, PartialEq, Eq)]
pub enum Operator {
    /// `||`
    Or,
    /// `&&`
    And,
    /// `+`
    Plus,
    /// `-`
    Minus,
    /// `*`
    Times,
    /// `/`
    Divide,
    /// `%`
    Remainder,
}

/// A comparison.
#[derive(Clone, Copy, Debug, PartialEq, Eq)]
pub enum Comparison {
    Equal,
    NotEqual,
    Less,
    LessEqual,
    Greater,
    GreaterEqual,
}

/// A prefix operator.
#[derive(Clone, Copy, Debug, PartialEq, Eq)]
pub enum Prefix {
    /// `!`
    Not,
    /// `-`
    Minus,
}

/// How a function is called.
#[derive(Clone, Copy, Debug, PartialEq, Eq)]
pub enum CallKind {
    /// `name(..)`
    Plain,
    /// `require name(..)`
    Require,
    /// `require name(..) by hash`
    RequireByHash,
    /// `run name(..)`
    Run,
}

/// A keyword that takes one expression.
#[derive(Clone, Copy, Debug, PartialEq, Eq)]
pub enum EffectKind {
    /// `path(e)`
    Path,
    /// `exists(e)`
    Exists,
    /// `digest(e)`
    Digest,
    /// `list(e)`
    List,
    /// `read(e)`
    Read,
    /// `read(e by hash)`
    ReadByHash,
    /// `read(e by mark)`
    ReadByMark,
}

impl Model for Expr {
    ghost use Rattle.std.specs.Prelude.{ℕ};
    ghost use Rattle.pie_parser.specs.Plain.{Tree};
    ghost use Rattle.pie_parser.specs.inner.Codes.{coded_tree};

    ghost Value = { Tree };

    ghost coded = { coded_tree };

    ghost use Rattle.pie_parser.specs.TreeView.{tree_of, mass};

    ghost view = { λ e. tree_of e.at e.end e.form };

    ghost size = { mass };

    ghost use Rattle.pie_parser.specs.inner.TreeFalls.{deep_le};

    ghost size_decreases = { λ e h. deep_le e.at e.end e.form };
}
