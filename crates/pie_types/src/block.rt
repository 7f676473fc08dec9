//! Blocks, and the choice between them.
ghost use Rattle.std.specs.Prelude.{◌≡◌, OnOk};
ghost use Rattle.pie_value.specs.TypeTrees.{ty_tree};
ghost use Rattle.pie_parser.specs.Plain.{AnElse, NoElse};
ghost use Rattle.pie_parser.specs.TreeView.{block_of, last_of, lines_of};
ghost use Rattle.pie_types.specs.Faults.{TypingAgrees};
ghost use Rattle.pie_types.specs.Checking as spec;
ghost use Rattle.pie_types.specs.inner.Blocks as blocks;

use crate::TypeError;
use crate::expr::{expected, type_of};
use crate::headings::Headings;
use crate::matching::{answer_end, answer_start, matched};
use crate::scope::Scope;
use pie_parser::{Block, Expr, Line, Name};
use pie_value::Ty;

// `if c {..}`
#[cycle(types)]
pub fn alone(
    headings: &Headings,
    scope: &mut Scope,
    test: &Expr,
    then: &Block,
) -> Result<Ty, TypeError>
    ensures typed { TypingAgrees ty_tree result (spec.if_type headings.now scope.old test.now (block_of then.now) NoElse) }
    ensures scope { OnOk result (scope.new ≡ scope.old) }
{
    expected(headings, scope, &Ty::Bool, test)?;
    expected_block(headings, scope, &Ty::Unit, then)
}

// `if c {..} else {..}`
#[cycle(types)]
pub fn choice(
    headings: &Headings,
    scope: &mut Scope,
    test: &Expr,
    then: &Block,
    otherwise: &Block,
) -> Result<Ty, TypeError>
    ensures typed { TypingAgrees ty_tree result (spec.if_type headings.now scope.old test.now (block_of then.now) (AnElse (block_of otherwise.now))) }
    ensures scope { OnOk result (scope.new ≡ scope.old) }
{
    expected(headings, scope, &Ty::Bool, test)?;
    let ty = block_type(headings, scope, then)?;
    expected_block(headings, scope, &ty, otherwise)
}

// The type of a block of which another type is expected.
#[cycle(types)]
pub fn expected_block(
    headings: &Headings,
    scope: &mut Scope,
    wanted: &Ty,
    block: &Block,
) -> Result<Ty, TypeError>
    ensures typed { TypingAgrees ty_tree result (spec.fitting_block headings.now scope.old (ty_tree wanted.now) (block_of block.now)) }
    ensures scope { OnOk result (scope.new ≡ scope.old) }
{
    let found = block_type(headings, scope, block)?;
    matched(wanted, answer_start(block), answer_end(block), found)
}

// The type of a block.
#[cycle(types)]
#[tactic(auto, using(crate::proofs::Steps::lines_keep))]
pub fn block_type(headings: &Headings, scope: &mut Scope, block: &Block) -> Result<Ty, TypeError>
    ensures typed { TypingAgrees ty_tree result (spec.block_type headings.now scope.old (block_of block.now)) }
    ensures scope { OnOk result (scope.new ≡ scope.old) }
{
    let depth = scope.len();
    after_lines(headings, scope, block.lines.as_slice())?;
    let ty = last_type(headings, scope, &block.last)?;
    scope.truncate(depth);
    Ok(ty)
}

// What ends a block.
#[cycle(types)]
fn last_type(headings: &Headings, scope: &mut Scope, last: &Option<Expr>) -> Result<Ty, TypeError>
    ensures typed { TypingAgrees ty_tree result (spec.last_type headings.now scope.old (last_of last.now)) }
    ensures scope { OnOk result (scope.new ≡ scope.old) }
{
    match last {
        Some(e) => type_of(headings, scope, e),
        None => Ok(Ty::Unit),
    }
}

// The lines of a block. Their names come into scope.
#[cycle(types)]
#[tactic(auto, using(crate::proofs::Steps::lines_turn, crate::proofs::Left::line_mass_at))]
fn after_lines(headings: &Headings, scope: &mut Scope, lines: &[Line]) -> Result<(), TypeError>
    ensures { TypingAgrees (λ _. scope.new) result (spec.after_lines headings.now scope.old (lines_of lines.now)) }
{
    for line in lines {
        after_line(headings, scope, line)?;
    }
    Ok(())
}

// A line of a block.
#[cycle(types)]
fn after_line(headings: &Headings, scope: &mut Scope, line: &Line) -> Result<(), TypeError>
    ensures { TypingAgrees (λ _. scope.new) result (blocks.after_line headings.now scope.old line.now) }
{
    match line {
        Line::Val(_, _, name, value) => after_val(headings, scope, name, value),
        Line::Expr(value) => {
            let _found = type_of(headings, scope, value)?;
            Ok(())
        }
    }
}

// `val name = value;`
#[cycle(types)]
fn after_val(
    headings: &Headings,
    scope: &mut Scope,
    name: &Name,
    value: &Expr,
) -> Result<(), TypeError>
    ensures { TypingAgrees (λ _. scope.new) result (blocks.after_val headings.now scope.old name.now value.now) }
{
    let ty = type_of(headings, scope, value)?;
    scope.enter(name, ty)
}
