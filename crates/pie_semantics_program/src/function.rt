//! What a function evaluates to.
ghost use Rattle.std.specs.Prelude.{◌≡◌, [], IfOk};
ghost use Rattle.pie_value.specs.Values.{trees_of};
ghost use Rattle.pie_semantics.specs.Meaning.{bound as spec_bound, next_of as spec_next_of};
ghost use Rattle.pie_semantics_program.specs.Whole.{outcome_of, IsTold};

use crate::Evaluator;
use crate::names::Names;
use crate::stop::Stop;
use pie_base::{FaultKind, OutOfMemory};
use pie_parser::{Function, Param};
use pie_value::{Answer, Event, Value};
use std::alloc::Global;

/// What a function evaluates to.
#[derive(Drop)]
pub enum EvaluatorOutcome {
    /// Its output.
    Done(Value),
    /// A fault.
    Fails(FaultKind),
    /// The first effect that no answer is left for.
    Wants(Event),
}

/// What a function evaluated to, and what the evaluation gave with it: the ticks, the paths, the answers that are left.
#[derive(Drop)]
pub struct Evaluated {
    pub outcome: EvaluatorOutcome,
    pub after: Evaluator,
}

/// What a function evaluates to with these arguments and answers.
/// Rule: docs/LANGUAGE.md, "Evaluation".
#[tactic(auto, using(crate::proofs::Settling::told_so))]
pub fn next_of(
    alloc: Global,
    function: &Function,
    args: &[Value],
    answers: Vec<Answer>,
) -> Result<Evaluated, OutOfMemory>
    ensures { IfOk result (λ came. (outcome_of came.outcome, came.after) ≡ spec_next_of function.now (trees_of args.now) answers.items) }
{
    let names = bound(alloc, function.params.as_slice(), args)?;
    let mut after = Evaluator::new(alloc, answers);
    let value = after.block(&function.body, &names);
    let outcome = told(value)?;
    Ok(Evaluated { outcome, after })
}

// The parameters with their arguments.
#[tactic(auto, using(pie_types::proofs::Left::list_left))]
fn bound(alloc: Global, params: &[Param], args: &[Value]) -> Result<Names, OutOfMemory>
    ensures { IfOk result (λ names. names ≡ spec_bound params.now (trees_of args.now) []) }
{
    let mut names = Names::new(alloc);
    let mut rest = args;
    for param in params {
        match rest {
            [arg, more @ ..] => {
                names = names.with(alloc, &param.name.text, arg.copy()?)?;
                rest = more;
            }
            [] => return Ok(names),
        }
    }
    Ok(names)
}

// What an evaluation gave.
fn told(value: Result<Value, Stop>) -> Result<EvaluatorOutcome, OutOfMemory>
    ensures { IfOk result (λ outcome. IsTold value outcome) }
{
    match value {
        Ok(value) => Ok(EvaluatorOutcome::Done(value)),
        Err(Stop::Fault(kind)) => Ok(EvaluatorOutcome::Fails(kind)),
        Err(Stop::Wants(event)) => Ok(EvaluatorOutcome::Wants(event)),
        Err(Stop::OutOfMemory) => Err(OutOfMemory),
    }
}
