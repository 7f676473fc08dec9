//! Types as they are written.
ghost use Rattle.std.specs.Prelude.{◌≡◌};
ghost use Rattle.pie_value.specs.TypeTrees.{ty_tree, ty_trees};
ghost use Rattle.pie_parser.specs.TypeView.{types_of};
ghost use Rattle.pie_types.specs.Faults.{TypingAgrees};
ghost use Rattle.pie_types.specs.Written.{named_type, plain_type, written, written_each};

use crate::matching::refusal;
use crate::{TypeError, TypeKind};
use pie_parser::{PlainType, Type, TypeForm};
use pie_value::{Part, Parts, Ty};
use std::alloc::Global;

// The type that is written here. A name other than `bytes` is refused.
#[cycle(written)]
pub fn written(alloc: Global, ty: &Type) -> Result<Ty, TypeError>
    ensures { TypingAgrees ty_tree result (written ty.now) }
{
    match &ty.form {
        TypeForm::Plain(plain) => Ok(plain_type(*plain)),
        TypeForm::Named(name) => named_type(ty.at, ty.end, name.as_str()),
        TypeForm::List(item) => {
            let item = written(alloc, item)?;
            Ok(Ty::List(Part::new(alloc, item)?))
        }
        TypeForm::Tuple(items) => {
            let types = written_each(alloc, items.as_slice())?;
            Ok(Ty::Tuple(Parts::new(alloc, types)?))
        }
        TypeForm::Nullable(plain) => {
            let plain = written(alloc, plain)?;
            Ok(Ty::Nullable(Part::new(alloc, plain)?))
        }
    }
}

// The types that are written here, one after another.
#[cycle(written)]
#[tactic(auto, using(crate::proofs::Steps::written_turn, crate::proofs::Steps::onto_nothing, crate::proofs::Left::type_mass_at))]
fn written_each(alloc: Global, items: &[Type]) -> Result<Vec<Ty>, TypeError>
    ensures { TypingAgrees (λ types. ty_trees types.items) result (written_each (types_of items.now)) }
{
    let mut types = Vec::new(alloc);
    for item in items {
        let ty = written(alloc, item)?;
        types.push(ty)?;
    }
    Ok(types)
}

// The type that a keyword names.
fn plain_type(plain: PlainType) -> Ty
    ensures { ty_tree result ≡ plain_type plain }
{
    match plain {
        PlainType::Unit => Ty::Unit,
        PlainType::Bool => Ty::Bool,
        PlainType::Int => Ty::Int,
        PlainType::Text => Ty::Text,
        PlainType::Path => Ty::Path,
    }
}

// The type that a name stands for.
fn named_type(at: usize, end: usize, name: &str) -> Result<Ty, TypeError>
    ensures { TypingAgrees ty_tree result (named_type at end name.now) }
{
    if name == "bytes" {
        return Ok(Ty::Bytes);
    }
    Err(refusal(TypeKind::UnknownName, at, end))
}
