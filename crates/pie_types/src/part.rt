//! Parts of types: items of tuples and of lists.
ghost use Rattle.std.specs.Prelude.{◌≡◌};
ghost use Rattle.pie_value.specs.Types.{ListTy, parts_of};
ghost use Rattle.pie_value.specs.TypeTrees.{ty_tree, ty_trees};
ghost use Rattle.pie_types.specs.Faults.{TypingAgrees};
ghost use Rattle.pie_types.specs.Operators as spec;

use crate::matching::{mismatch, refusal};
use crate::{TypeError, TypeKind};
use pie_parser::Index;
use pie_value::{Part, Parts, Ty};
use std::alloc::Global;

// Items of items of what stands at these bytes.
pub fn projected(
    alloc: Global,
    ty: Ty,
    at: usize,
    end: usize,
    indices: &[Index],
) -> Result<Ty, TypeError>
    ensures { TypingAgrees ty_tree result (spec.projected at end (ty_tree ty) indices.now) }
{
    match indices {
        [first, rest @ ..] => {
            let item = item_of(alloc, &ty, at, end, *first)?;
            later_items(alloc, item, rest)
        }
        [] => Ok(ty),
    }
}

// Items of items. A number that finds no tuple is refused itself.
#[tactic(auto, using(crate::proofs::Steps::later_turn))]
fn later_items(alloc: Global, ty: Ty, indices: &[Index]) -> Result<Ty, TypeError>
    ensures { TypingAgrees ty_tree result (spec.later_items (ty_tree ty) indices.now) }
{
    let mut ty = ty;
    for index in indices {
        ty = item_of(alloc, &ty, index.at, index.end, *index)?;
    }
    Ok(ty)
}

// The item of this number.
fn item_of(alloc: Global, ty: &Ty, at: usize, end: usize, index: Index) -> Result<Ty, TypeError>
    ensures { TypingAgrees ty_tree result (spec.item_of at end (ty_tree ty.now) index) }
{
    match ty {
        Ty::Tuple(parts) => found_item(parts.as_slice(), index),
        _ => no_tuple(alloc, ty, at, end),
    }
}

// The item of this number, where there is one.
#[tactic(auto, using(crate::proofs::Found::part_is, crate::proofs::Found::part_past))]
fn found_item(types: &[Ty], index: Index) -> Result<Ty, TypeError>
    ensures { TypingAgrees ty_tree result (spec.found_item index (spec.numbered index.number (parts_of (ty_trees types.now)))) }
{
    match usize::try_from(index.number) {
        Ok(number) if number < types.len() => Ok(types[number].copy()?),
        _ => Err(refusal(TypeKind::Arity, index.at, index.end)),
    }
}

// A pair is expected in the place of what is no tuple.
fn no_tuple(alloc: Global, ty: &Ty, at: usize, end: usize) -> Result<Ty, TypeError>
    ensures { TypingAgrees ty_tree result (spec.no_tuple at end (ty_tree ty.now)) }
{
    let mut types = Vec::new(alloc);
    types.push(ty.copy()?)?;
    types.push(ty.copy()?)?;
    let pair = Ty::Tuple(Parts::new(alloc, types)?);
    Err(mismatch(pair, ty.copy()?, at, end))
}

// The type of the items of a list.
pub fn items_type(alloc: Global, ty: &Ty, at: usize, end: usize) -> Result<Ty, TypeError>
    ensures { TypingAgrees ty_tree result (spec.items_type at end (ty_tree ty.now)) }
{
    match ty {
        Ty::List(part) => Ok(part.get().copy()?),
        _ => no_list(alloc, ty, at, end),
    }
}

// A list is expected in the place of what is none.
fn no_list(alloc: Global, ty: &Ty, at: usize, end: usize) -> Result<Ty, TypeError>
    ensures { TypingAgrees ty_tree result (spec.no_list at end (ty_tree ty.now)) }
{
    let list = Ty::List(Part::new(alloc, ty.copy()?)?);
    Err(mismatch(list, ty.copy()?, at, end))
}
