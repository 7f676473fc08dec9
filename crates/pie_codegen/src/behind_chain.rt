//! Where the code of a chain of operators ends.
ghost use Rattle.std.specs.Prelude.{◌≡◌, IfOk};
ghost use Rattle.pie_parser.specs.Plain.{TChain};
ghost use Rattle.pie_parser.specs.TreeView.{steps_of};
ghost use Rattle.pie_codegen.specs.Spots as spec;

use crate::behind::after;
use crate::spot::{Spot, next};
use pie_base::OutOfMemory;
use pie_parser::{Expr, Operator, Step};

// Behind a chain.
#[cycle(after)]
pub fn after_chain(first: &Expr, steps: &[Step], spot: Spot) -> Result<Spot, OutOfMemory>
    ensures { IfOk result (λ n. n ≡ spec.after (TChain 0 0 first.now (steps_of steps.now)) spot) }
{
    let spot = next(spot)?;
    let spot = after(first, spot)?;
    match steps {
        [step, ..] => match step.operator {
            Operator::Or => after_constant(after_either(steps, spot)?),
            Operator::And => after_constant(after_both(steps, spot)?),
            _ => after_steps(steps, spot),
        },
        [] => Ok(spot),
    }
}

// Behind a jump and the constant that it jumps over.
fn after_constant(spot: Spot) -> Result<Spot, OutOfMemory>
    ensures { IfOk result (λ n. n ≡ spec.next (spec.next spot)) }
{
    let spot = next(spot)?;
    next(spot)
}

// Behind the operands of a chain of `||`.
#[cycle(after)]
#[tactic(auto, using(crate::proofs::Rests::either_turn, crate::proofs::Rests::step_mass_at))]
pub fn after_either(steps: &[Step], spot: Spot) -> Result<Spot, OutOfMemory>
    ensures { IfOk result (λ n. n ≡ spec.after_either (steps_of steps.now) spot) }
{
    let mut spot = spot;
    for step in steps {
        spot = next(spot)?;
        spot = next(spot)?;
        spot = after(&step.operand, spot)?;
    }
    Ok(spot)
}

// Behind the operands of a chain of `&&`.
#[cycle(after)]
#[tactic(auto, using(crate::proofs::Rests::both_turn, crate::proofs::Rests::step_mass_at))]
pub fn after_both(steps: &[Step], spot: Spot) -> Result<Spot, OutOfMemory>
    ensures { IfOk result (λ n. n ≡ spec.after_both (steps_of steps.now) spot) }
{
    let mut spot = spot;
    for step in steps {
        spot = next(spot)?;
        spot = after(&step.operand, spot)?;
    }
    Ok(spot)
}

// Behind operands, each with its operator.
#[cycle(after)]
#[tactic(auto, using(crate::proofs::Rests::steps_turn, crate::proofs::Rests::step_mass_at))]
fn after_steps(steps: &[Step], spot: Spot) -> Result<Spot, OutOfMemory>
    ensures { IfOk result (λ n. n ≡ spec.after_steps (steps_of steps.now) spot) }
{
    let mut spot = spot;
    for step in steps {
        spot = after(&step.operand, spot)?;
        spot = next(spot)?;
    }
    Ok(spot)
}
