//! The value of a chain of operators.
ghost use Rattle.pie_value.specs.Values.{tree_of};
ghost use Rattle.pie_parser.specs.Plain.{TChain};
ghost use Rattle.pie_parser.specs.TreeView.{steps_of};
ghost use Rattle.pie_semantics.specs.Meaning.{both_value, either_value, steps_value, value_of};
ghost use Rattle.pie_semantics_program.specs.Coming.{Comes};

use crate::Evaluator;
use crate::names::Names;
use crate::operating::truth;
use crate::stop::Stop;
use crate::words::infix;
use pie_parser::{Expr, Operator, Step};
use pie_value::Value;

impl Evaluator {
    // A chain of operators of one level.
    #[cycle(value)]
    pub(crate) fn chain(
        &mut self,
        first: &Expr,
        steps: &[Step],
        names: &Names,
    ) -> Result<Value, Stop>
        ensures { Comes tree_of result self.new (value_of (TChain 0 0 first.now (steps_of steps.now)) names.now self.old) }
    {
        self.tick()?;
        let value = self.value(first, names)?;
        match steps {
            [step, ..] => match step.operator {
                Operator::Or => self.either(value, steps, names),
                Operator::And => self.both(value, steps, names),
                _ => self.steps(value, steps, names),
            },
            [] => Ok(value),
        }
    }

    // The operands of `||` behind the first.
    #[cycle(value)]
    #[tactic(auto, using(pie_types::proofs::Left::step_mass_at))]
    fn either(&mut self, value: Value, steps: &[Step], names: &Names) -> Result<Value, Stop>
        ensures { Comes tree_of result self.new (either_value (steps_of steps.now) names.now (tree_of value) self.old) }
    {
        let mut value = value;
        for step in steps {
            if truth(&value)? {
                return Ok(Value::Bool(true));
            }
            value = self.value(&step.operand, names)?;
        }
        Ok(value)
    }

    // The operands of `&&` behind the first.
    #[cycle(value)]
    #[tactic(auto, using(pie_types::proofs::Left::step_mass_at))]
    fn both(&mut self, value: Value, steps: &[Step], names: &Names) -> Result<Value, Stop>
        ensures { Comes tree_of result self.new (both_value (steps_of steps.now) names.now (tree_of value) self.old) }
    {
        let mut value = value;
        for step in steps {
            if !truth(&value)? {
                return Ok(Value::Bool(false));
            }
            value = self.value(&step.operand, names)?;
        }
        Ok(value)
    }

    // The operands of other operators behind the first, each with its operator.
    #[cycle(value)]
    #[tactic(auto, using(pie_types::proofs::Left::step_mass_at))]
    fn steps(&mut self, value: Value, steps: &[Step], names: &Names) -> Result<Value, Stop>
        ensures { Comes tree_of result self.new (steps_value (steps_of steps.now) names.now (tree_of value) self.old) }
    {
        let mut value = value;
        for step in steps {
            let operand = self.value(&step.operand, names)?;
            value = self.binary(infix(step.operator), value, operand)?;
        }
        Ok(value)
    }
}
