//! Where the code of a block ends, and that of a choice between blocks.
ghost use Rattle.std.specs.Prelude.{◌≡◌, IfOk};
ghost use Rattle.pie_parser.specs.Plain.{AnElse, NoElse, NoLine, TIf};
ghost use Rattle.pie_parser.specs.TreeView.{block_of, last_of, line_before, lines_of};
ghost use Rattle.pie_codegen.specs.Spots as spec;

use crate::behind::after;
use crate::spot::{Spot, next};
use pie_base::OutOfMemory;
use pie_parser::{Block, Expr, Line};

// Behind `if c {..}`.
#[cycle(after)]
pub fn after_alone(test: &Expr, then: &Block, spot: Spot) -> Result<Spot, OutOfMemory>
    ensures { IfOk result (λ n. n ≡ spec.after (TIf 0 0 test.now (block_of then.now) NoElse) spot) }
{
    let spot = after_then(test, then, spot)?;
    next(spot)
}

// Behind `if c {..} else {..}`.
#[cycle(after)]
pub fn after_choice(
    test: &Expr,
    then: &Block,
    other: &Block,
    spot: Spot,
) -> Result<Spot, OutOfMemory>
    ensures { IfOk result (λ n. n ≡ spec.after (TIf 0 0 test.now (block_of then.now) (AnElse (block_of other.now))) spot) }
{
    let spot = after_then(test, then, spot)?;
    after_block(other, spot)
}

// Behind a test, the block for true, and the jump over the other.
#[cycle(after)]
fn after_then(test: &Expr, then: &Block, spot: Spot) -> Result<Spot, OutOfMemory>
    ensures { IfOk result (λ n. n ≡ spec.next (spec.after_block (block_of then.now) (spec.next (spec.after test.now (spec.next spot))))) }
{
    let spot = next(spot)?;
    let spot = after(test, spot)?;
    let spot = next(spot)?;
    let spot = after_block(then, spot)?;
    next(spot)
}

// Behind a block.
#[cycle(after)]
pub fn after_block(block: &Block, spot: Spot) -> Result<Spot, OutOfMemory>
    ensures { IfOk result (λ n. n ≡ spec.after_block (block_of block.now) spot) }
{
    let spot = after_lines(block.lines.as_slice(), spot)?;
    after_last(&block.last, spot)
}

// Behind the lines of a block.
#[cycle(after)]
#[tactic(auto, using(crate::proofs::Rests::lines_turn, crate::proofs::Rests::line_mass_at))]
fn after_lines(lines: &[Line], spot: Spot) -> Result<Spot, OutOfMemory>
    ensures { IfOk result (λ n. n ≡ spec.after_lines (lines_of lines.now) spot) }
{
    let mut spot = spot;
    for line in lines {
        spot = after_line(line, spot)?;
    }
    Ok(spot)
}

// Behind a line of a block.
#[cycle(after)]
fn after_line(line: &Line, spot: Spot) -> Result<Spot, OutOfMemory>
    ensures { IfOk result (λ n. n ≡ spec.after_lines (line_before line.now NoLine) spot) }
{
    let spot = match line {
        Line::Val(_, _, _, value) => after(value, spot)?,
        Line::Expr(value) => after(value, spot)?,
    };
    next(spot)
}

// Behind what ends a block.
#[cycle(after)]
fn after_last(last: &Option<Expr>, spot: Spot) -> Result<Spot, OutOfMemory>
    ensures { IfOk result (λ n. n ≡ spec.after_last (last_of last.now) spot) }
{
    match last {
        Some(e) => after(e, spot),
        None => next(spot),
    }
}
