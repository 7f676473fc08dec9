//! The parts of a line of a block.
ghost use Rattle.std.specs.Prelude.{◌≡◌};
ghost use Rattle.pie_codegen.specs.Lines as spec;

use pie_parser::{Expr, Line};

// The expression of a line.
pub fn value_of(line: &Line) -> &Expr
    ensures { result.now ≡ spec.value_of line.now }
{
    match line {
        Line::Val(_, _, _, value) => value,
        Line::Expr(value) => value,
    }
}

// How many names a line brings into scope.
pub fn names_in(line: &Line) -> u16
    ensures { result ≡ spec.names_in line.now }
{
    match line {
        Line::Val(_, _, _, _) => 1,
        Line::Expr(_) => 0,
    }
}
