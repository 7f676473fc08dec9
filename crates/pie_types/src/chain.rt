//! Chains of operators, and comparisons.
ghost use Rattle.std.specs.Prelude.{◌≡◌, OnOk};
ghost use Rattle.pie_value.specs.TypeTrees.{ty_tree};
ghost use Rattle.pie_parser.specs.TreeView.{steps_of};
ghost use Rattle.pie_types.specs.Faults.{TypingAgrees};
ghost use Rattle.pie_types.specs.Operators as operators;
ghost use Rattle.pie_types.specs.Checking as spec;

use crate::TypeError;
use crate::expr::{expected, type_of};
use crate::headings::Headings;
use crate::kinds::{is_addable, is_equality, is_ordered, is_plus, operand_type};
use crate::matching::{end_of, matched, start_of, where_fits};
use crate::scope::Scope;
use pie_parser::{Comparison, Expr, Step};
use pie_value::Ty;

// The type of a chain.
#[cycle(types)]
pub fn chain(
    headings: &Headings,
    scope: &mut Scope,
    first: &Expr,
    steps: &[Step],
) -> Result<Ty, TypeError>
    ensures typed { TypingAgrees ty_tree result (spec.chain_type headings.now scope.old first.now (steps_of steps.now)) }
    ensures scope { OnOk result (scope.new ≡ scope.old) }
{
    let found = type_of(headings, scope, first)?;
    let ty = first_operand(steps, start_of(first), end_of(first), found)?;
    operands(headings, scope, &ty, steps)?;
    Ok(ty)
}

// The operands behind the first one have to have its type.
#[cycle(types)]
#[tactic(auto, using(crate::proofs::Steps::operands_turn, crate::proofs::Left::step_mass_at))]
fn operands(
    headings: &Headings,
    scope: &mut Scope,
    ty: &Ty,
    steps: &[Step],
) -> Result<(), TypeError>
    ensures typed { TypingAgrees (λ _. ty_tree ty.now) result (spec.operands headings.now scope.old (ty_tree ty.now) (steps_of steps.now)) }
    ensures scope { OnOk result (scope.new ≡ scope.old) }
{
    for step in steps {
        let _found = expected(headings, scope, ty, &step.operand)?;
    }
    Ok(())
}

// The type of the first operand, where the operators take it.
fn first_operand(steps: &[Step], at: usize, end: usize, found: Ty) -> Result<Ty, TypeError>
    ensures { TypingAgrees ty_tree result (operators.first_operand (steps_of steps.now) at end (ty_tree found)) }
{
    if all_plus(steps) {
        let fits = is_addable(&found);
        return where_fits(fits, Ty::Int, at, end, found);
    }
    matched(&operands_type(steps), at, end, found)
}

// Whether all operators are `+`.
#[tactic(auto, using(crate::proofs::Left::steps_left))]
fn all_plus(steps: &[Step]) -> bool
    ensures { result ≡ operators.all_plus (steps_of steps.now) }
{
    for step in steps {
        if !is_plus(step.operator) {
            return false;
        }
    }
    true
}

// The type of the operands by the first operator, but in a chain of `+` alone.
fn operands_type(steps: &[Step]) -> Ty
    ensures { ty_tree result ≡ operators.operands_type (steps_of steps.now) }
{
    match steps {
        [step, ..] => operand_type(step.operator),
        [] => Ty::Int,
    }
}

// The type of a comparison.
#[cycle(types)]
pub fn comparison(
    headings: &Headings,
    scope: &mut Scope,
    kind: Comparison,
    a: &Expr,
    b: &Expr,
) -> Result<Ty, TypeError>
    ensures typed { TypingAgrees ty_tree result (spec.compare_type headings.now scope.old kind a.now b.now) }
    ensures scope { OnOk result (scope.new ≡ scope.old) }
{
    let found = type_of(headings, scope, a)?;
    let ty = left_operand(kind, start_of(a), end_of(a), found)?;
    let _right = expected(headings, scope, &ty, b)?;
    Ok(Ty::Bool)
}

// The type of what stands before a comparison, where it takes it.
fn left_operand(kind: Comparison, at: usize, end: usize, found: Ty) -> Result<Ty, TypeError>
    ensures { TypingAgrees ty_tree result (operators.left_operand kind at end (ty_tree found)) }
{
    if is_equality(kind) {
        return Ok(found);
    }
    let fits = is_ordered(&found);
    where_fits(fits, Ty::Int, at, end, found)
}
