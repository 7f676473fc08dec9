//! What operators ask of their operands, and what forms answer.
ghost use Rattle.std.specs.Prelude.{◌≡◌, IfOk};
ghost use Rattle.pie_value.specs.TypeTrees.{ty_tree};
ghost use Rattle.pie_types.specs.Operators as spec;

use pie_base::OutOfMemory;
use pie_parser::{Comparison, EffectKind, Literal, Operator, Prefix};
use pie_value::{Part, Ty};
use std::alloc::Global;

// The type of a literal.
pub fn literal_type(literal: &Literal) -> Ty
    ensures { ty_tree result ≡ spec.literal_type literal.now }
{
    match literal {
        Literal::Int(_) => Ty::Int,
        Literal::Text(_) => Ty::Text,
        Literal::Bool(_) => Ty::Bool,
        Literal::Unit => Ty::Unit,
    }
}

// Whether `+` joins values of a type.
pub fn is_addable(ty: &Ty) -> bool
    ensures { result ≡ spec.is_addable (ty_tree ty.now) }
{
    match ty {
        Ty::Int | Ty::Text | Ty::Bytes | Ty::List(_) => true,
        _ => false,
    }
}

// Whether values of a type are compared by size.
pub fn is_ordered(ty: &Ty) -> bool
    ensures { result ≡ spec.is_ordered (ty_tree ty.now) }
{
    match ty {
        Ty::Int | Ty::Text | Ty::Path => true,
        _ => false,
    }
}

// Whether values of a type can be written to a file.
pub fn is_writable(ty: &Ty) -> bool
    ensures { result ≡ spec.is_writable (ty_tree ty.now) }
{
    match ty {
        Ty::Text | Ty::Bytes => true,
        _ => false,
    }
}

// Whether an operator is `+`.
pub fn is_plus(operator: Operator) -> bool
    ensures { result ≡ spec.is_plus operator }
{
    match operator {
        Operator::Plus => true,
        _ => false,
    }
}

// The type of an operator's operands, but in a chain of `+` alone.
pub fn operand_type(operator: Operator) -> Ty
    ensures { ty_tree result ≡ spec.operand_type operator }
{
    match operator {
        Operator::Or | Operator::And => Ty::Bool,
        _ => Ty::Int,
    }
}

// Whether any values may be compared.
pub fn is_equality(comparison: Comparison) -> bool
    ensures { result ≡ spec.is_equality comparison }
{
    match comparison {
        Comparison::Equal | Comparison::NotEqual => true,
        _ => false,
    }
}

// The type of what a prefix operator takes and answers.
pub fn prefix_type(prefix: Prefix) -> Ty
    ensures { ty_tree result ≡ spec.prefix_type prefix }
{
    match prefix {
        Prefix::Not => Ty::Bool,
        Prefix::Minus => Ty::Int,
    }
}

// The type of what an effect takes.
pub fn effect_takes(kind: EffectKind) -> Ty
    ensures { ty_tree result ≡ spec.effect_takes kind }
{
    match kind {
        EffectKind::Path => Ty::Text,
        _ => Ty::Path,
    }
}

// The type of what an effect answers.
pub fn effect_gives(alloc: Global, kind: EffectKind) -> Result<Ty, OutOfMemory>
    ensures { IfOk result (λ ty. ty_tree ty ≡ spec.effect_gives kind) }
{
    match kind {
        EffectKind::Path => Ok(Ty::Path),
        EffectKind::Exists => Ok(Ty::Bool),
        EffectKind::Digest => Ok(Ty::Nullable(Part::new(alloc, Ty::Text)?)),
        EffectKind::List => Ok(Ty::List(Part::new(alloc, Ty::Path)?)),
        EffectKind::Read => Ok(Ty::Nullable(Part::new(alloc, Ty::Text)?)),
        EffectKind::ReadByHash => Ok(Ty::Nullable(Part::new(alloc, Ty::Text)?)),
        EffectKind::ReadByMark => Ok(Ty::Nullable(Part::new(alloc, Ty::Text)?)),
    }
}
