//! The type of an expression.
ghost use Rattle.std.specs.Prelude.{◌≡◌, OnOk, ◌∷◌};
ghost use Rattle.pie_value.specs.Types.{ListTy, TupleTy, parts_of};
ghost use Rattle.pie_value.specs.TypeTrees.{ty_tree, ty_trees};
ghost use Rattle.pie_parser.specs.TreeView.{trees_of};
ghost use Rattle.pie_types.specs.Faults.{TypingAgrees};
ghost use Rattle.pie_types.specs.Checking as spec;
ghost use Rattle.pie_types.specs.Forms as forms;

use crate::block::{alone, choice};
use crate::call::call;
use crate::chain::{chain, comparison};
use crate::headings::Headings;
use crate::kinds::{effect_gives, effect_takes, is_writable, literal_type, prefix_type};
use crate::matching::{Span, end_of, matched, refusal, start_of, where_fits};
use crate::part::{items_type, projected};
use crate::scope::Scope;
use crate::written::written;
use crate::{TypeError, TypeKind};
use pie_parser::{EffectKind, Expr, Form, Index, Name, Type};
use pie_value::{Part, Parts, Ty};

// The type of an expression. The names in scope stay the same.
#[cycle(types)]
pub fn type_of(headings: &Headings, scope: &mut Scope, e: &Expr) -> Result<Ty, TypeError>
    ensures typed { TypingAgrees ty_tree result (spec.type_of headings.now scope.old e.now) }
    ensures scope { OnOk result (scope.new ≡ scope.old) }
{
    match &e.form {
        Form::Literal(literal) => Ok(literal_type(literal)),
        Form::Name(name) => name_type(scope, e.at, e.end, name.as_str()),
        Form::Null(ty) => null(headings, ty),
        Form::Empty(ty) => empty(headings, ty),
        Form::Chain(first, steps) => chain(headings, scope, first, steps.as_slice()),
        Form::Compare(kind, a, b) => comparison(headings, scope, *kind, a, b),
        Form::Prefix(prefix, a) => expected(headings, scope, &prefix_type(*prefix), a),
        Form::Project(a, indices) => projection(headings, scope, a, indices.as_slice()),
        Form::Tuple(items) => tuple(headings, scope, items.as_slice()),
        Form::List(items) => list(headings, scope, e.at, e.end, items.as_slice()),
        Form::Each(item, name, list) => each(headings, scope, item, name, list),
        Form::If(test, then, otherwise) => match otherwise {
            None => alone(headings, scope, test, then),
            Some(block) => choice(headings, scope, test, then, block),
        },
        Form::Call(kind, name, items) => {
            let span = Span {
                at: e.at,
                end: e.end,
            };
            call(headings, scope, span, *kind, name, items.as_slice())
        }
        Form::Effect(kind, a) => effect(headings, scope, *kind, a),
        Form::Write(path, value) => write(headings, scope, path, value),
        Form::Fail(ty, text) => fail(headings, scope, ty, text),
    }
}

// The type of an expression of which another type is expected.
#[cycle(types)]
pub fn expected(
    headings: &Headings,
    scope: &mut Scope,
    wanted: &Ty,
    e: &Expr,
) -> Result<Ty, TypeError>
    ensures typed { TypingAgrees ty_tree result (forms.fitting (ty_tree wanted.now) e.now (spec.type_of headings.now scope.old e.now)) }
    ensures scope { OnOk result (scope.new ≡ scope.old) }
{
    let found = type_of(headings, scope, e)?;
    matched(wanted, start_of(e), end_of(e), found)
}

// The type of a name.
fn name_type(scope: &Scope, at: usize, end: usize, name: &str) -> Result<Ty, TypeError>
    ensures { TypingAgrees ty_tree result (forms.of_name scope.now at end name.now) }
{
    match scope.get(name) {
        Some(ty) => Ok(ty.copy()?),
        None => Err(refusal(TypeKind::UnknownName, at, end)),
    }
}

// `null T`
fn null(headings: &Headings, ty: &Type) -> Result<Ty, TypeError>
    ensures { TypingAgrees ty_tree result (forms.of_null ty.now) }
{
    let ty = written(headings.alloc(), ty)?;
    Ok(Ty::Nullable(Part::new(headings.alloc(), ty)?))
}

// `empty T`
fn empty(headings: &Headings, ty: &Type) -> Result<Ty, TypeError>
    ensures { TypingAgrees ty_tree result (forms.of_empty ty.now) }
{
    let ty = written(headings.alloc(), ty)?;
    Ok(Ty::List(Part::new(headings.alloc(), ty)?))
}

// A chain of projections.
#[cycle(types)]
fn projection(
    headings: &Headings,
    scope: &mut Scope,
    e: &Expr,
    indices: &[Index],
) -> Result<Ty, TypeError>
    ensures typed { TypingAgrees ty_tree result (forms.of_project e.now (spec.type_of headings.now scope.old e.now) indices.now) }
    ensures scope { OnOk result (scope.new ≡ scope.old) }
{
    let ty = type_of(headings, scope, e)?;
    projected(headings.alloc(), ty, start_of(e), end_of(e), indices)
}

// `(a, b)`
#[cycle(types)]
fn tuple(headings: &Headings, scope: &mut Scope, items: &[Expr]) -> Result<Ty, TypeError>
    ensures typed { TypingAgrees ty_tree result (forms.of_tuple (spec.types_of headings.now scope.old (trees_of items.now))) }
    ensures scope { OnOk result (scope.new ≡ scope.old) }
{
    let types = types_of(headings, scope, items)?;
    Ok(Ty::Tuple(Parts::new(headings.alloc(), types)?))
}

// The types of expressions, one after another.
#[cycle(types)]
#[tactic(auto, using(crate::proofs::Steps::types_turn, crate::proofs::Steps::onto_nothing, crate::proofs::Left::tree_mass_at))]
fn types_of(headings: &Headings, scope: &mut Scope, items: &[Expr]) -> Result<Vec<Ty>, TypeError>
    ensures typed { TypingAgrees (λ types. ty_trees types.items) result (spec.types_of headings.now scope.old (trees_of items.now)) }
    ensures scope { OnOk result (scope.new ≡ scope.old) }
{
    let mut types = Vec::new(headings.alloc());
    for item in items {
        let ty = type_of(headings, scope, item)?;
        types.push(ty)?;
    }
    Ok(types)
}

// `[a, b]`
#[cycle(types)]
fn list(
    headings: &Headings,
    scope: &mut Scope,
    at: usize,
    end: usize,
    items: &[Expr],
) -> Result<Ty, TypeError>
    ensures typed { TypingAgrees ty_tree result (forms.of_list (spec.list_items headings.now scope.old at end (trees_of items.now))) }
    ensures scope { OnOk result (scope.new ≡ scope.old) }
{
    let item = list_items(headings, scope, at, end, items)?;
    Ok(Ty::List(Part::new(headings.alloc(), item)?))
}

// The type of a list's items.
#[cycle(types)]
fn list_items(
    headings: &Headings,
    scope: &mut Scope,
    at: usize,
    end: usize,
    items: &[Expr],
) -> Result<Ty, TypeError>
    ensures typed { TypingAgrees ty_tree result (spec.list_items headings.now scope.old at end (trees_of items.now)) }
    ensures scope { OnOk result (scope.new ≡ scope.old) }
{
    match items {
        [first, rest @ ..] => {
            let ty = type_of(headings, scope, first)?;
            more_items(headings, scope, &ty, rest)?;
            Ok(ty)
        }
        [] => Err(refusal(TypeKind::Arity, at, end)),
    }
}

// The type of a list's first item, which the others have to have too.
#[cycle(types)]
#[tactic(auto, using(crate::proofs::Steps::more_items_turn, crate::proofs::Left::tree_mass_at))]
fn more_items(
    headings: &Headings,
    scope: &mut Scope,
    ty: &Ty,
    items: &[Expr],
) -> Result<(), TypeError>
    ensures typed { TypingAgrees (λ _. ty_tree ty.now) result (spec.more_items headings.now scope.old (ty_tree ty.now) (trees_of items.now)) }
    ensures scope { OnOk result (scope.new ≡ scope.old) }
{
    for item in items {
        let _found = expected(headings, scope, ty, item)?;
    }
    Ok(())
}

// `[item for name in list]`
#[cycle(types)]
fn each(
    headings: &Headings,
    scope: &mut Scope,
    item: &Expr,
    name: &Name,
    list: &Expr,
) -> Result<Ty, TypeError>
    ensures typed { TypingAgrees ty_tree result (spec.each_type headings.now scope.old item.now name.now list.now) }
    ensures scope { OnOk result (scope.new ≡ scope.old) }
{
    let one = {
        let found = type_of(headings, scope, list)?;
        items_type(headings.alloc(), &found, start_of(list), end_of(list))?
    };
    let ty = within(headings, scope, name, one, item)?;
    Ok(Ty::List(Part::new(headings.alloc(), ty)?))
}

// The type of an expression where one more name is in scope.
#[cycle(types)]
fn within(
    headings: &Headings,
    scope: &mut Scope,
    name: &Name,
    ty: Ty,
    e: &Expr,
) -> Result<Ty, TypeError>
    ensures typed { TypingAgrees ty_tree result (forms.within scope.old name.now (ty_tree ty) (λ inner. spec.type_of headings.now inner e.now)) }
    ensures scope { OnOk result (scope.new ≡ scope.old) }
{
    let depth = scope.len();
    scope.enter(name, ty)?;
    let found = type_of(headings, scope, e)?;
    scope.truncate(depth);
    Ok(found)
}

// `read(e)` and the like
#[cycle(types)]
fn effect(
    headings: &Headings,
    scope: &mut Scope,
    kind: EffectKind,
    e: &Expr,
) -> Result<Ty, TypeError>
    ensures typed { TypingAgrees ty_tree result (forms.of_effect kind e.now (spec.type_of headings.now scope.old e.now)) }
    ensures scope { OnOk result (scope.new ≡ scope.old) }
{
    let _found = expected(headings, scope, &effect_takes(kind), e)?;
    Ok(effect_gives(headings.alloc(), kind)?)
}

// `write(path, value)`
#[cycle(types)]
fn write(headings: &Headings, scope: &mut Scope, path: &Expr, value: &Expr) -> Result<Ty, TypeError>
    ensures typed { TypingAgrees ty_tree result (spec.write_type headings.now scope.old path.now value.now) }
    ensures scope { OnOk result (scope.new ≡ scope.old) }
{
    expected(headings, scope, &Ty::Path, path)?;
    let found = type_of(headings, scope, value)?;
    let fits = is_writable(&found);
    let _value = where_fits(fits, Ty::Text, start_of(value), end_of(value), found)?;
    Ok(Ty::Unit)
}

// `fail T(text)`
#[cycle(types)]
fn fail(headings: &Headings, scope: &mut Scope, ty: &Type, text: &Expr) -> Result<Ty, TypeError>
    ensures typed { TypingAgrees ty_tree result (forms.of_fail ty.now text.now (spec.type_of headings.now scope.old text.now)) }
    ensures scope { OnOk result (scope.new ≡ scope.old) }
{
    let ty = written(headings.alloc(), ty)?;
    let _text = expected(headings, scope, &Ty::Text, text)?;
    Ok(ty)
}
