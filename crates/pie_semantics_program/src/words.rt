//! What the words of the syntax tree stand for.
ghost use Rattle.std.specs.Prelude.{◌≡◌};
ghost use Rattle.pie_semantics.specs.Words as words;

use pie_operators::{Binary, Unary};
use pie_parser::{Comparison, Operator, Prefix};

// The operator of a step of a chain. No chain of these has `||` or `&&` in it.
pub fn infix(operator: Operator) -> Binary
    ensures { result ≡ words.infix_of operator }
{
    match operator {
        Operator::Plus => Binary::Add,
        Operator::Minus => Binary::Sub,
        Operator::Times => Binary::Mul,
        Operator::Divide => Binary::Div,
        Operator::Remainder => Binary::Rem,
        Operator::Or => Binary::Add,
        Operator::And => Binary::Add,
    }
}

// The operator of a comparison.
pub fn comparison(kind: Comparison) -> Binary
    ensures { result ≡ words.comparison_of kind }
{
    match kind {
        Comparison::Equal => Binary::Eq,
        Comparison::NotEqual => Binary::Ne,
        Comparison::Less => Binary::Lt,
        Comparison::LessEqual => Binary::Le,
        Comparison::Greater => Binary::Gt,
        Comparison::GreaterEqual => Binary::Ge,
    }
}

// The operator before an operand.
pub fn prefix(kind: Prefix) -> Unary
    ensures { result ≡ words.prefix_of kind }
{
    match kind {
        Prefix::Not => Unary::Not,
        Prefix::Minus => Unary::Neg,
    }
}
