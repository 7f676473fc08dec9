//! Where the code of each form ends, without emitting it: a jump over code needs its target beforehand.
ghost use Rattle.std.specs.Prelude.{◌≡◌, IfOk};
ghost use Rattle.pie_parser.specs.Plain.{TList, TWrite};
ghost use Rattle.pie_parser.specs.TreeView.{trees_of};
ghost use Rattle.pie_codegen.specs.Spots as spec;

use crate::behind_block::{after_alone, after_choice};
use crate::behind_chain::after_chain;
use crate::spot::{Spot, loop_at, next, next_text};
use pie_base::OutOfMemory;
use pie_parser::{CallKind, Expr, Form, Index, Literal};

// Behind an expression.
#[cycle(after)]
pub fn after(e: &Expr, spot: Spot) -> Result<Spot, OutOfMemory>
    ensures { IfOk result (λ n. n ≡ spec.after e.now spot) }
{
    match &e.form {
        Form::Literal(literal) => after_literal(literal, next(spot)?),
        Form::Name(_) => next(next(spot)?),
        Form::Null(_) => next(next(spot)?),
        Form::Empty(_) => next(next(spot)?),
        Form::Chain(first, steps) => after_chain(first, steps.as_slice(), spot),
        Form::Compare(_, a, b) => after_two(a, b, spot),
        Form::Prefix(_, a) => after_one(a, spot),
        Form::Project(a, indices) => after_project(a, indices.as_slice(), spot),
        Form::Tuple(items) => after_list(items.as_slice(), spot),
        Form::List(items) => after_list(items.as_slice(), spot),
        Form::Each(item, _, list) => after_each(item, list, spot),
        Form::If(test, then, otherwise) => match otherwise {
            None => after_alone(test, then, spot),
            Some(block) => after_choice(test, then, block, spot),
        },
        Form::Call(kind, _, items) => after_call(*kind, items.as_slice(), spot),
        Form::Effect(_, a) => after_one(a, spot),
        Form::Write(path, value) => after_two(path, value, spot),
        Form::Fail(_, text) => after_fail(text, spot),
    }
}

// Behind the instruction of a literal.
pub fn after_literal(literal: &Literal, spot: Spot) -> Result<Spot, OutOfMemory>
    ensures { IfOk result (λ n. n ≡ spec.after_literal literal.now spot) }
{
    match literal {
        Literal::Text(_) => next_text(spot),
        _ => next(spot),
    }
}

// Behind a form of one part and an instruction.
#[cycle(after)]
fn after_one(a: &Expr, spot: Spot) -> Result<Spot, OutOfMemory>
    ensures { IfOk result (λ n. n ≡ spec.next (spec.after a.now (spec.next spot))) }
{
    let spot = next(spot)?;
    let spot = after(a, spot)?;
    next(spot)
}

// Behind a form of two parts and an instruction.
#[cycle(after)]
fn after_two(a: &Expr, b: &Expr, spot: Spot) -> Result<Spot, OutOfMemory>
    ensures { IfOk result (λ n. n ≡ spec.after (TWrite 0 0 a.now b.now) spot) }
{
    let spot = next(spot)?;
    let spot = after(a, spot)?;
    let spot = after(b, spot)?;
    next(spot)
}

// Behind a chain of projections.
#[cycle(after)]
fn after_project(a: &Expr, indices: &[Index], spot: Spot) -> Result<Spot, OutOfMemory>
    ensures { IfOk result (λ n. n ≡ spec.after_indices indices.now (spec.after a.now (spec.next spot))) }
{
    let spot = next(spot)?;
    let spot = after(a, spot)?;
    after_indices(indices, spot)
}

// Behind the instructions of projections.
#[tactic(auto, using(crate::proofs::Rests::indices_turn))]
fn after_indices(indices: &[Index], spot: Spot) -> Result<Spot, OutOfMemory>
    ensures { IfOk result (λ n. n ≡ spec.after_indices indices.now spot) }
{
    let mut spot = spot;
    for _index in indices {
        spot = next(spot)?;
    }
    Ok(spot)
}

// Behind a list or a tuple.
#[cycle(after)]
fn after_list(items: &[Expr], spot: Spot) -> Result<Spot, OutOfMemory>
    ensures { IfOk result (λ n. n ≡ spec.after (TList 0 0 (trees_of items.now)) spot) }
{
    let spot = next(spot)?;
    let spot = next(spot)?;
    after_items(items, spot)
}

// Behind items, each pushed.
#[cycle(after)]
#[tactic(auto, using(crate::proofs::Rests::items_turn, crate::proofs::Rests::tree_mass_at))]
fn after_items(items: &[Expr], spot: Spot) -> Result<Spot, OutOfMemory>
    ensures { IfOk result (λ n. n ≡ spec.after_items (trees_of items.now) spot) }
{
    let mut spot = spot;
    for item in items {
        spot = after(item, spot)?;
        spot = next(spot)?;
    }
    Ok(spot)
}

// Behind a comprehension.
#[cycle(after)]
fn after_each(item: &Expr, list: &Expr, spot: Spot) -> Result<Spot, OutOfMemory>
    ensures { IfOk result (λ n. n ≡ spec.next (spec.next (spec.after item.now (spec.next (spec.loop_at (spec.after list.now (spec.next spot))))))) }
{
    let spot = next(spot)?;
    let spot = after(list, spot)?;
    let spot = loop_at(spot)?;
    let spot = next(spot)?;
    let spot = after(item, spot)?;
    let spot = next(spot)?;
    next(spot)
}

// Behind a call.
#[cycle(after)]
fn after_call(kind: CallKind, items: &[Expr], spot: Spot) -> Result<Spot, OutOfMemory>
    ensures { IfOk result (λ n. n ≡ spec.after_call kind (spec.after_args (trees_of items.now) (spec.next spot))) }
{
    let spot = next(spot)?;
    let spot = after_args(items, spot)?;
    called(kind, spot)
}

// Behind the instruction of a call.
pub fn called(kind: CallKind, spot: Spot) -> Result<Spot, OutOfMemory>
    ensures { IfOk result (λ n. n ≡ spec.after_call kind spot) }
{
    match kind {
        CallKind::Plain => next(spot),
        _ => next_text(spot),
    }
}

// Behind arguments.
#[cycle(after)]
#[tactic(auto, using(crate::proofs::Rests::args_turn, crate::proofs::Rests::tree_mass_at))]
fn after_args(items: &[Expr], spot: Spot) -> Result<Spot, OutOfMemory>
    ensures { IfOk result (λ n. n ≡ spec.after_args (trees_of items.now) spot) }
{
    let mut spot = spot;
    for item in items {
        spot = after(item, spot)?;
    }
    Ok(spot)
}

// Behind `fail T(text)`.
#[cycle(after)]
fn after_fail(text: &Expr, spot: Spot) -> Result<Spot, OutOfMemory>
    ensures { IfOk result (λ n. n ≡ spec.next (spec.next (spec.next (spec.after text.now (spec.next spot))))) }
{
    let spot = next(spot)?;
    let spot = after(text, spot)?;
    let spot = next(spot)?;
    let spot = next(spot)?;
    next(spot)
}
