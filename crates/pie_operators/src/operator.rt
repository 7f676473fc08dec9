//! The operators by their names.

/// An operator before one operand.
#[derive(Clone, Copy, Debug, PartialEq, Eq)]
pub enum Unary {
    /// `-a` of an integer.
    Neg,
    /// `!a` of a truth value.
    Not,
}

/// An operator between two operands. Rule: docs/LANGUAGE.md, "Operators".
#[derive(Clone, Copy, Debug, PartialEq, Eq)]
pub enum Binary {
    /// `a + b` of integers, texts, bytes or lists.
    Add,
    /// `a - b` of integers.
    Sub,
    /// `a * b` of integers.
    Mul,
    /// `a / b` of integers, towards 0.
    Div,
    /// `a % b` of integers, with the sign of `a`.
    Rem,
    /// `a == b` of any values.
    Eq,
    /// `a != b` of any values.
    Ne,
    /// `a < b` of integers, texts or paths.
    Lt,
    /// `a <= b` of integers, texts or paths.
    Le,
    /// `a > b` of integers, texts or paths.
    Gt,
    /// `a >= b` of integers, texts or paths.
    Ge,
}
