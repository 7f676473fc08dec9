//! Calls by name.
ghost use Rattle.std.specs.Prelude.{◌≡◌, OnOk};
ghost use Rattle.pie_value.specs.TypeTrees.{ty_tree, ty_trees};
ghost use Rattle.pie_parser.specs.TreeView.{trees_of};
ghost use Rattle.pie_types.specs.Faults.{TypingAgrees};
ghost use Rattle.pie_types.specs.Spans.{at_of, end_of};
ghost use Rattle.pie_types.specs.Calls as calls;
ghost use Rattle.pie_types.specs.inner.Callees.{callee_tree};
ghost use Rattle.pie_types.specs.Checking as spec;

use crate::callee::{Callee, callee_of};
use crate::expr::type_of;
use crate::headings::Headings;
use crate::matching::{Span, end_of, mismatch, refusal, start_of};
use crate::scope::Scope;
use crate::{TypeError, TypeKind};
use pie_parser::{CallKind, Expr, Name};
use pie_value::Ty;
use std::alloc::Global;

// The type of a call that takes these bytes.
#[cycle(types)]
pub fn call(
    headings: &Headings,
    scope: &mut Scope,
    span: Span,
    kind: CallKind,
    name: &Name,
    items: &[Expr],
) -> Result<Ty, TypeError>
    ensures typed { TypingAgrees ty_tree result (spec.call_type headings.now scope.old span.at span.end kind name.now (trees_of items.now)) }
    ensures scope { OnOk result (scope.new ≡ scope.old) }
{
    let callee = callee_of(headings, kind, name)?;
    right_number(&callee, span, items)?;
    let types = arguments(headings, scope, &callee, items)?;
    Ok(callee.answer(headings.alloc(), kind, types.as_slice())?)
}

// Whether as many arguments stand there as are taken.
#[tactic(auto, using(crate::proofs::Left::count_is))]
fn right_number(callee: &Callee, span: Span, items: &[Expr]) -> Result<(), TypeError>
    ensures { TypingAgrees (λ _. callee_tree callee.now) result (calls.right_number span.at span.end (callee_tree callee.now) (spec.count (trees_of items.now))) }
{
    if items.len() == callee.taken() {
        return Ok(());
    }
    Err(refusal(TypeKind::Arity, span.at, span.end))
}

// The types of the arguments, each fitting.
#[cycle(types)]
#[tactic(auto, using(crate::proofs::Steps::arguments_turn, crate::proofs::Left::tree_mass_at))]
fn arguments(
    headings: &Headings,
    scope: &mut Scope,
    callee: &Callee,
    items: &[Expr],
) -> Result<Vec<Ty>, TypeError>
    ensures typed { TypingAgrees (λ types. ty_trees types.items) result (spec.arguments headings.now scope.old (callee_tree callee.now) 0 (trees_of items.now)) }
    ensures scope { OnOk result (scope.new ≡ scope.old) }
{
    let mut types = Vec::new(headings.alloc());
    for i in 0..items.len() {
        let item = &items[i];
        let ty = type_of(headings, scope, item)?;
        let fit = fitting(headings.alloc(), callee, i, item, ty)?;
        types.push(fit)?;
    }
    Ok(types)
}

// The type of an argument, where it fits.
fn fitting(
    alloc: Global,
    callee: &Callee,
    number: usize,
    item: &Expr,
    ty: Ty,
) -> Result<Ty, TypeError>
    ensures { TypingAgrees ty_tree result (calls.unless (calls.misfit (callee_tree callee.now) number (ty_tree ty)) (at_of item.now) (end_of item.now) (ty_tree ty)) }
{
    match callee.misfit(alloc, number, &ty)? {
        None => Ok(ty),
        Some(wanted) => Err(mismatch(wanted, ty, start_of(item), end_of(item))),
    }
}
