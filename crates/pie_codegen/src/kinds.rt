//! The instructions of operators, effects and calls.
ghost use Rattle.std.specs.Prelude.{◌≡◌, ◌==◌, cond, IfOk, None};
ghost use Rattle.pie_semantics.specs.Words as words;
ghost use Rattle.pie_codegen.specs.Compiled as spec;

use crate::scope::NO_SLOT;
use pie_base::OutOfMemory;
use pie_code::Instr;
use pie_operators::{Binary, Observation, Unary};
use pie_parser::{Comparison, EffectKind, Operator, Prefix};
use pie_signature::{arity, builtin_named};
use pie_value::{Builtin, By};

// What is called by a plain name: how many arguments it takes, and the instruction that calls it.
#[derive(Clone, Copy)]
struct Callee {
    arity: usize,
    instr: Instr,
}

// An instruction that no operand fits.
fn misfit() -> Instr
    ensures { result ≡ spec.misfit }
{
    Instr::Load(NO_SLOT)
}

// The operator of a step of a chain. No chain of these has `||` or `&&` in it.
pub fn infix(operator: Operator) -> Binary
    ensures { result ≡ words.infix_of operator }
{
    match operator {
        Operator::Plus => Binary::Add,
        Operator::Minus => Binary::Sub,
        Operator::Times => Binary::Mul,
        Operator::Divide => Binary::Div,
        Operator::Remainder => Binary::Rem,
        Operator::Or => Binary::Add,
        Operator::And => Binary::Add,
    }
}

// The operator of a comparison.
pub fn comparison(kind: Comparison) -> Binary
    ensures { result ≡ words.comparison_of kind }
{
    match kind {
        Comparison::Equal => Binary::Eq,
        Comparison::NotEqual => Binary::Ne,
        Comparison::Less => Binary::Lt,
        Comparison::LessEqual => Binary::Le,
        Comparison::Greater => Binary::Gt,
        Comparison::GreaterEqual => Binary::Ge,
    }
}

// The operator before an operand.
pub fn prefix(kind: Prefix) -> Unary
    ensures { result ≡ words.prefix_of kind }
{
    match kind {
        Prefix::Not => Unary::Not,
        Prefix::Minus => Unary::Neg,
    }
}

// A projection. A number past the last one of `u32` finds no memory.
pub fn index(number: i64) -> Result<Instr, OutOfMemory>
    ensures { IfOk result (λ i. i ≡ spec.index_code number) }
{
    if number < 0 {
        return Ok(misfit());
    }
    match u32::try_from(number) {
        Ok(number) => Ok(Instr::Proj(number)),
        Err(_) => Err(OutOfMemory),
    }
}

// A keyword before one expression.
pub fn effect(kind: EffectKind) -> Instr
    ensures { result ≡ spec.effect_code kind }
{
    match kind {
        EffectKind::Path => Instr::Call(Builtin::Path),
        EffectKind::Exists => Instr::Observe(Observation::Exists),
        EffectKind::Digest => Instr::Observe(Observation::Digest),
        EffectKind::List => Instr::Observe(Observation::List),
        EffectKind::Read => Instr::Observe(Observation::Read(By::Hash)),
        EffectKind::ReadByHash => Instr::Observe(Observation::Read(By::Hash)),
        EffectKind::ReadByMark => Instr::Observe(Observation::Read(By::Mark)),
    }
}

// A call by a plain name with so many arguments.
pub fn plain_call(name: &str, count: usize) -> Instr
    ensures { result ≡ cond (count == words.callee_arity (words.callee_of name.now)) (spec.callee_code (words.callee_of name.now)) spec.misfit }
{
    let callee = callee_named(name);
    if count == callee.arity {
        callee.instr
    } else {
        misfit()
    }
}

// What a plain name calls.
fn callee_named(name: &str) -> Callee
    ensures arity { result.arity ≡ words.callee_arity (words.callee_of name.now) }
    ensures instr { result.instr ≡ spec.callee_code (words.callee_of name.now) }
{
    match builtin_named(name) {
        Some(which) => Callee {
            arity: arity(which),
            instr: Instr::Call(which),
        },
        None => no_builtin(name),
    }
}

// What a plain name calls that is no built-in function's.
fn no_builtin(name: &str) -> Callee
    ensures arity { result.arity ≡ words.callee_arity (words.callee_by None name.now) }
    ensures instr { result.instr ≡ spec.callee_code (words.callee_by None name.now) }
{
    if name == "read_bytes" {
        Callee {
            arity: 1,
            instr: Instr::Observe(Observation::Read(By::Raw)),
        }
    } else {
        Callee {
            arity: 0,
            instr: misfit(),
        }
    }
}
