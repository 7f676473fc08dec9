//! Emitting chains of operators.
ghost use Rattle.std.specs.Prelude.{◌≡◌, [], ◌∷◌, ◌+◌, IfOk, OnOk};
ghost use Rattle.pie_code.specs.declared.instr.Instr.TheVariants as instrs;
ghost use Rattle.pie_code.specs.declared.instr.Constant.TheVariants as constants;
ghost use Rattle.pie_parser.specs.Plain.{TChain};
ghost use Rattle.pie_parser.specs.TreeView.{steps_of};
ghost use Rattle.pie_codegen.specs.Growing.{Adds, Emits, EmitsBoth, EmitsEither, EmitsSteps};
ghost use Rattle.pie_codegen.specs.Growing.{both_operand, both_part, either_operand, either_part};
ghost use Rattle.pie_codegen.specs.Spots as spots;
ghost use Rattle.pie_codegen.specs.Texts as texts;

use crate::behind_chain::{after_both, after_either};
use crate::emitter::Emitter;
use crate::kinds::infix;
use crate::spot::{Spot, next};
use pie_base::OutOfMemory;
use pie_code::{Constant, Instr};
use pie_operators::Unary;
use pie_parser::{Expr, Operator, Step};

impl Emitter {
    // A chain of operators of one level.
    #[cycle(emit)]
    pub fn chain(
        &mut self,
        first: &Expr,
        steps: &[Step],
        spot: Spot,
        mark: u16,
    ) -> Result<Spot, OutOfMemory>
        ensures spot { IfOk result (λ n. n ≡ spots.after (TChain 0 0 first.now (steps_of steps.now)) spot) }
        ensures added { OnOk result (Emits self.old self.new (TChain 0 0 first.now (steps_of steps.now)) spot mark) }
    {
        let spot = self.tick(spot)?;
        let spot = self.expr(first, spot, mark)?;
        match steps {
            [step, ..] => match step.operator {
                Operator::Or => self.either(steps, spot, mark),
                Operator::And => self.both(steps, spot, mark),
                _ => self.steps(steps, spot, mark),
            },
            [] => Ok(spot),
        }
    }

    // The operands of `||` behind the first; the value true stands behind them, for the first that is true.
    #[cycle(emit)]
    fn either(&mut self, steps: &[Step], spot: Spot, mark: u16) -> Result<Spot, OutOfMemory>
        ensures spot { IfOk result (λ n. n ≡ spots.next (spots.next (spots.after_either (steps_of steps.now) spot))) }
        ensures added { OnOk result (Adds self.old self.new (either_part (steps_of steps.now) spot mark self.old.names)
            (texts.steps_texts (steps_of steps.now))) }
    {
        let to = after_either(steps, spot)?;
        let spot = self.either_operands(steps, spot, to, mark)?;
        self.jump_over(true, spot)
    }

    // The operands of `&&` behind the first; the value false stands behind them, for the first that is false.
    #[cycle(emit)]
    fn both(&mut self, steps: &[Step], spot: Spot, mark: u16) -> Result<Spot, OutOfMemory>
        ensures spot { IfOk result (λ n. n ≡ spots.next (spots.next (spots.after_both (steps_of steps.now) spot))) }
        ensures added { OnOk result (Adds self.old self.new (both_part (steps_of steps.now) spot mark self.old.names)
            (texts.steps_texts (steps_of steps.now))) }
    {
        let to = after_both(steps, spot)?;
        let spot = self.both_operands(steps, spot, to, mark)?;
        self.jump_over(false, spot)
    }

    // A truth value, and the jump over it.
    fn jump_over(&mut self, value: bool, spot: Spot) -> Result<Spot, OutOfMemory>
        ensures spot { IfOk result (λ n. n ≡ spots.next (spots.next spot)) }
        ensures added { OnOk result (Adds self.old self.new (instrs.Jump (spot.at + 1 + 1) ∷ instrs.Push (constants.Bool value) ∷ []) []) }
    {
        let behind = next(next(spot)?)?;
        let spot = self.put(spot, Instr::Jump(behind.at))?;
        self.put(spot, Instr::Push(Constant::Bool(value)))
    }

    // Operands of `||`, with a jump over the last of them before each.
    #[cycle(emit)]
    #[tactic(auto, using(crate::proofs::Walks::either_walk))]
    fn either_operands(
        &mut self,
        steps: &[Step],
        spot: Spot,
        to: Spot,
        mark: u16,
    ) -> Result<Spot, OutOfMemory>
        ensures spot { IfOk result (λ n. n ≡ spots.after_either (steps_of steps.now) spot) }
        ensures added { OnOk result (EmitsEither self.old self.new (steps_of steps.now) spot to.at mark) }
    {
        let found = next(to)?;
        let mut spot = spot;
        for step in steps {
            spot = self.either_operand(&step.operand, spot, found.at, mark)?;
        }
        Ok(spot)
    }

    // An operand of `||`.
    #[cycle(emit)]
    fn either_operand(
        &mut self,
        e: &Expr,
        spot: Spot,
        found: u32,
        mark: u16,
    ) -> Result<Spot, OutOfMemory>
        ensures spot { IfOk result (λ n. n ≡ spots.after e.now (spots.next (spots.next spot))) }
        ensures added { OnOk result (Adds self.old self.new (either_operand e.now found spot mark self.old.names) (texts.texts_of e.now)) }
    {
        let spot = self.put(spot, Instr::Unary(Unary::Not))?;
        let spot = self.put(spot, Instr::JumpIfNot(found))?;
        self.expr(e, spot, mark)
    }

    // Operands of `&&`, with a jump over the last of them before each.
    #[cycle(emit)]
    #[tactic(auto, using(crate::proofs::Walks::both_walk))]
    fn both_operands(
        &mut self,
        steps: &[Step],
        spot: Spot,
        to: Spot,
        mark: u16,
    ) -> Result<Spot, OutOfMemory>
        ensures spot { IfOk result (λ n. n ≡ spots.after_both (steps_of steps.now) spot) }
        ensures added { OnOk result (EmitsBoth self.old self.new (steps_of steps.now) spot to.at mark) }
    {
        let found = next(to)?;
        let mut spot = spot;
        for step in steps {
            spot = self.both_operand(&step.operand, spot, found.at, mark)?;
        }
        Ok(spot)
    }

    // An operand of `&&`.
    #[cycle(emit)]
    fn both_operand(
        &mut self,
        e: &Expr,
        spot: Spot,
        found: u32,
        mark: u16,
    ) -> Result<Spot, OutOfMemory>
        ensures spot { IfOk result (λ n. n ≡ spots.after e.now (spots.next spot)) }
        ensures added { OnOk result (Adds self.old self.new (both_operand e.now found spot mark self.old.names) (texts.texts_of e.now)) }
    {
        let spot = self.put(spot, Instr::JumpIfNot(found))?;
        self.expr(e, spot, mark)
    }

    // Operands, each with its operator behind it.
    #[cycle(emit)]
    #[tactic(auto, using(crate::proofs::Walks::steps_walk))]
    fn steps(&mut self, steps: &[Step], spot: Spot, mark: u16) -> Result<Spot, OutOfMemory>
        ensures spot { IfOk result (λ n. n ≡ spots.after_steps (steps_of steps.now) spot) }
        ensures added { OnOk result (EmitsSteps self.old self.new (steps_of steps.now) spot mark) }
    {
        let mut spot = spot;
        for step in steps {
            spot = self.expr(&step.operand, spot, mark)?;
            spot = self.put(spot, Instr::Binary(infix(step.operator)))?;
        }
        Ok(spot)
    }
}
