//! Types that are made from others, and what their parts are.
ghost use Rattle.std.specs.Prelude.{◌≡◌, IfOk};
ghost use Rattle.pie_value.specs.Types.{ListTy, NullableTy};
ghost use Rattle.pie_value.specs.TypeTrees.{ty_tree};
ghost use Rattle.pie_signature.specs.Wanted.{present_of};
ghost use Rattle.pie_signature.specs.Answered.{item_of};

use pie_base::OutOfMemory;
use pie_value::{Part, Ty};
use std::alloc::Global;

// The type of lists of a type.
pub fn list_of(alloc: Global, item: Ty) -> Result<Ty, OutOfMemory>
    ensures { IfOk result (λ ty. ty_tree ty ≡ ListTy (ty_tree item)) }
{
    Ok(Ty::List(Part::new(alloc, item)?))
}

// A type whose values can be null.
pub fn nullable(alloc: Global, ty: Ty) -> Result<Ty, OutOfMemory>
    ensures { IfOk result (λ made. ty_tree made ≡ NullableTy (ty_tree ty)) }
{
    Ok(Ty::Nullable(Part::new(alloc, ty)?))
}

// A type without its mark of null.
pub fn present(ty: &Ty) -> Result<Ty, OutOfMemory>
    ensures { IfOk result (λ made. ty_tree made ≡ present_of (ty_tree ty.now)) }
{
    match ty {
        Ty::Nullable(part) => part.get().copy(),
        _ => ty.copy(),
    }
}

// The type of a list's items.
pub fn item(ty: &Ty) -> Result<Ty, OutOfMemory>
    ensures { IfOk result (λ made. ty_tree made ≡ item_of (ty_tree ty.now)) }
{
    match ty {
        Ty::List(part) => part.get().copy(),
        _ => ty.copy(),
    }
}
