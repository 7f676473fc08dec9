//! The signatures of the built-in functions. Rule: docs/LANGUAGE.md, "Built-in functions".
ghost use Rattle.std.specs.Prelude.{◌≡◌, IfOk, Some, option_map, slice_get};
ghost use Rattle.pie_value.specs.TypeTrees.{ty_tree};
ghost use Rattle.pie_signature.specs.Signatures.{arity_of, misfit_at, misfit_of, wanted_of};

use crate::Wanted;
use pie_base::OutOfMemory;
use pie_value::{Builtin, Ty};
use std::alloc::Global;

/// What an argument has to be, counted from 0; none past the last one.
pub fn wanted_at(which: Builtin, at: usize) -> Option<Wanted>
    ensures { result ≡ slice_get (wanted_of which) at }
{
    match at {
        0 => Some(first(which)),
        1 => second(which),
        2 => third(which),
        _ => None,
    }
}

// What the first argument has to be.
fn first(which: Builtin) -> Wanted
    ensures { slice_get (wanted_of which) 0 ≡ Some result }
{
    match which {
        Builtin::Join | Builtin::Name | Builtin::Parent => Wanted::Path,
        Builtin::ToText => Wanted::Printable,
        Builtin::Len => Wanted::Measurable,
        Builtin::JoinText => Wanted::Texts,
        Builtin::Range => Wanted::Int,
        Builtin::At | Builtin::Reverse => Wanted::List,
        Builtin::Sort => Wanted::Sortable,
        Builtin::Flatten => Wanted::Lists,
        Builtin::Some => Wanted::Present,
        Builtin::Get | Builtin::IsNull => Wanted::Nullable,
        Builtin::FromBytes | Builtin::SliceBytes => Wanted::Bytes,
        Builtin::Path | Builtin::ParseInt | Builtin::Trim | Builtin::Find => Wanted::Text,
        Builtin::Contains | Builtin::Starts | Builtin::Ends | Builtin::Replace => Wanted::Text,
        Builtin::Split | Builtin::Lines | Builtin::Slice | Builtin::Sha256 => Wanted::Text,
        Builtin::ToBytes => Wanted::Text,
    }
}

// What the second argument has to be.
fn second(which: Builtin) -> Option<Wanted>
    ensures { result ≡ slice_get (wanted_of which) 1 }
{
    match which {
        Builtin::Join | Builtin::Find | Builtin::Contains | Builtin::Starts => Some(Wanted::Text),
        Builtin::Ends | Builtin::Replace | Builtin::Split | Builtin::JoinText => Some(Wanted::Text),
        Builtin::Slice | Builtin::At | Builtin::Range | Builtin::SliceBytes => Some(Wanted::Int),
        Builtin::Path | Builtin::Name | Builtin::Parent | Builtin::ToText => None,
        Builtin::ParseInt | Builtin::Len | Builtin::Trim | Builtin::Lines => None,
        Builtin::Sha256 | Builtin::Reverse | Builtin::Sort | Builtin::Flatten => None,
        Builtin::Some | Builtin::Get | Builtin::IsNull => None,
        Builtin::ToBytes | Builtin::FromBytes => None,
    }
}

// What the third argument has to be.
fn third(which: Builtin) -> Option<Wanted>
    ensures { result ≡ slice_get (wanted_of which) 2 }
{
    match which {
        Builtin::Replace => Some(Wanted::Text),
        Builtin::Slice | Builtin::SliceBytes => Some(Wanted::Int),
        _ => None,
    }
}

/// How many arguments a built-in function takes.
pub fn arity(which: Builtin) -> usize
    ensures { result ≡ arity_of which }
{
    if third(which).is_some() {
        return 3;
    }
    if second(which).is_some() {
        return 2;
    }
    1
}

/// The type that a refusal names as wanted where an argument, counted from 0, has a type that doesn't fit; none
/// where it fits.
pub fn misfit(
    alloc: Global,
    which: Builtin,
    at: usize,
    found: &Ty,
) -> Result<Option<Ty>, OutOfMemory>
    ensures { IfOk result (λ ty. option_map ty_tree ty ≡ misfit_of which at (ty_tree found.now)) }
{
    match wanted_at(which, at) {
        Some(wanted) => unmet(alloc, wanted, found),
        None => Ok(None),
    }
}

// The type that is named where a wish isn't met.
fn unmet(alloc: Global, wanted: Wanted, found: &Ty) -> Result<Option<Ty>, OutOfMemory>
    ensures { IfOk result (λ ty. option_map ty_tree ty ≡ misfit_at (Some wanted) (ty_tree found.now)) }
{
    if wanted.fits(found) {
        return Ok(None);
    }
    let ty = wanted.named(alloc, found)?;
    Ok(Some(ty))
}
