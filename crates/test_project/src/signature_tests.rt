//! Names, and types that fit or don't.
use pie_base::OutOfMemory;
use pie_signature::{answer_type, arity, builtin_named, misfit};
use pie_value::{Builtin, Part, Ty};
use std::alloc::Global;
use std::test::Fail;

#[test]
fn each_name_has_its_function(rt: HostRuntime) -> Result<(), Fail> {
    assert!(rt; builtin_named("join") == Some(Builtin::Join));
    assert!(rt; builtin_named("slice_bytes") == Some(Builtin::SliceBytes));
    assert!(rt; builtin_named("path").is_none());
    assert!(rt; builtin_named("read_bytes").is_none());
    Ok(())
}

// The type that is wanted in an argument's place is this one.
fn wants(
    alloc: Global,
    builtin: Builtin,
    at: usize,
    given: &Ty,
    wanted: &Ty,
) -> Result<bool, OutOfMemory> {
    let named = misfit(alloc, builtin, at, given)?;
    Ok(matches!(&named, Some(ty) if ty.same(wanted)))
}

fn fits(alloc: Global, builtin: Builtin, at: usize, given: &Ty) -> Result<bool, OutOfMemory> {
    Ok(misfit(alloc, builtin, at, given)?.is_none())
}

#[test]
fn a_type_that_does_not_fit_has_the_first_wanted_type_named(rt: HostRuntime) -> Result<(), Fail> {
    let alloc = rt.alloc();
    let list = Ty::List(Part::new(alloc, Ty::Bool)?);
    let ints = Ty::List(Part::new(alloc, Ty::Int)?);
    assert!(rt; fits(alloc, Builtin::Len, 0, &list)? && fits(alloc, Builtin::At, 2, &list)?);
    assert!(rt; wants(alloc, Builtin::Sort, 0, &list, &ints)?);
    assert!(rt; wants(alloc, Builtin::At, 1, &list, &Ty::Int)?);
    Ok(())
}

#[test]
fn an_answer_has_the_type_that_the_first_argument_gives(rt: HostRuntime) -> Result<(), Fail> {
    let alloc = rt.alloc();
    let list = Ty::List(Part::new(alloc, Ty::Bool)?);
    let answer = answer_type(alloc, Builtin::At, &list)?;
    assert!(rt; answer.same(&Ty::Bool));
    assert!(rt; arity(Builtin::Replace) == 3);
    assert!(rt; arity(Builtin::Range) == 2);
    assert!(rt; arity(Builtin::Get) == 1);
    Ok(())
}
