//! Emitting expressions.
ghost use Rattle.std.specs.Prelude.{◌≡◌, [], ◌∷◌, IfOk, OnOk};
ghost use Rattle.pie_code.specs.declared.instr.Instr.TheVariants as instrs;
ghost use Rattle.pie_parser.specs.Plain.{TCompare, TEffect, TList, TLiteral, TName, TPrefix, TProject, TTuple, TWrite};
ghost use Rattle.pie_parser.specs.TreeView.{trees_of};
ghost use Rattle.pie_codegen.specs.Compiled as spec;
ghost use Rattle.pie_codegen.specs.Growing.{Adds, Emits, EmitsItems, fail_code, failing_code};
ghost use Rattle.pie_codegen.specs.Spots as spots;
ghost use Rattle.pie_codegen.specs.Texts as texts;

use crate::emitter::Emitter;
use crate::kinds::{comparison, effect, index, prefix};
use crate::spot::{Spot, next};
use pie_base::{OutOfMemory, Text};
use pie_code::{Constant, Instr};
use pie_parser::{Comparison, EffectKind, Expr, Form, Index, Literal, Prefix};

impl Emitter {
    // An expression, from a spot on; slots from the mark on are free. What comes back is the spot behind its code.
    #[cycle(emit)]
    pub fn expr(&mut self, e: &Expr, spot: Spot, mark: u16) -> Result<Spot, OutOfMemory>
        ensures spot { IfOk result (λ n. n ≡ spots.after e.now spot) }
        ensures added { OnOk result (Emits self.old self.new e.now spot mark) }
    {
        match &e.form {
            Form::Literal(literal) => self.literal(literal, spot),
            Form::Name(name) => self.name(name, spot),
            Form::Null(_) => self.constant(Constant::Null, spot),
            Form::Empty(_) => self.constant(Constant::EmptyList, spot),
            Form::Chain(first, steps) => self.chain(first, steps.as_slice(), spot, mark),
            Form::Compare(kind, a, b) => self.compare(*kind, a, b, spot, mark),
            Form::Prefix(kind, a) => self.prefixed(*kind, a, spot, mark),
            Form::Project(a, indices) => self.project(a, indices.as_slice(), spot, mark),
            Form::Tuple(items) => self.tuple(items.as_slice(), spot, mark),
            Form::List(items) => self.list(items.as_slice(), spot, mark),
            Form::Each(item, name, list) => self.each(item, name, list, spot, mark),
            Form::If(test, then, otherwise) => match otherwise {
                None => self.alone(test, then, spot, mark),
                Some(block) => self.choice(test, then, block, spot, mark),
            },
            Form::Call(kind, name, items) => self.call(*kind, name, items.as_slice(), spot, mark),
            Form::Effect(kind, a) => self.effect(*kind, a, spot, mark),
            Form::Write(path, value) => self.write(path, value, spot, mark),
            Form::Fail(_, text) => self.fail(text, spot, mark),
        }
    }

    // A literal.
    fn literal(&mut self, literal: &Literal, spot: Spot) -> Result<Spot, OutOfMemory>
        ensures spot { IfOk result (λ n. n ≡ spots.after (TLiteral 0 0 literal.now) spot) }
        ensures added { OnOk result (Emits self.old self.new (TLiteral 0 0 literal.now) spot 0) }
    {
        match literal {
            Literal::Int(n) => self.constant(Constant::Int(*n), spot),
            Literal::Text(text) => self.text(text, spot),
            Literal::Bool(b) => self.constant(Constant::Bool(*b), spot),
            Literal::Unit => self.constant(Constant::Unit, spot),
        }
    }

    // A text.
    fn text(&mut self, text: &Text, spot: Spot) -> Result<Spot, OutOfMemory>
        ensures spot { IfOk result (λ n. n ≡ spots.next_text (spots.next spot)) }
        ensures added { OnOk result (Adds self.old self.new (instrs.Tick ∷ instrs.PushText spot.text ∷ []) (text.now ∷ [])) }
    {
        let spot = self.tick(spot)?;
        self.put_text(spot, Instr::PushText(spot.text), text)
    }

    // A name.
    fn name(&mut self, name: &Text, spot: Spot) -> Result<Spot, OutOfMemory>
        ensures spot { IfOk result (λ n. n ≡ spots.next (spots.next spot)) }
        ensures added { OnOk result (Emits self.old self.new (TName 0 0 name.now) spot 0) }
    {
        let slot = self.names.slot(name.as_str());
        let spot = self.tick(spot)?;
        self.put(spot, Instr::Load(slot))
    }

    // A constant.
    fn constant(&mut self, constant: Constant, spot: Spot) -> Result<Spot, OutOfMemory>
        ensures spot { IfOk result (λ n. n ≡ spots.next (spots.next spot)) }
        ensures added { OnOk result (Adds self.old self.new (instrs.Tick ∷ instrs.Push constant ∷ []) []) }
    {
        let spot = self.tick(spot)?;
        self.put(spot, Instr::Push(constant))
    }

    // A comparison.
    #[cycle(emit)]
    fn compare(
        &mut self,
        kind: Comparison,
        a: &Expr,
        b: &Expr,
        spot: Spot,
        mark: u16,
    ) -> Result<Spot, OutOfMemory>
        ensures spot { IfOk result (λ n. n ≡ spots.after (TCompare 0 0 kind a.now b.now) spot) }
        ensures added { OnOk result (Emits self.old self.new (TCompare 0 0 kind a.now b.now) spot mark) }
    {
        let spot = self.tick(spot)?;
        let spot = self.expr(a, spot, mark)?;
        let spot = self.expr(b, spot, mark)?;
        self.put(spot, Instr::Binary(comparison(kind)))
    }

    // `write(path, value)`
    #[cycle(emit)]
    fn write(
        &mut self,
        path: &Expr,
        value: &Expr,
        spot: Spot,
        mark: u16,
    ) -> Result<Spot, OutOfMemory>
        ensures spot { IfOk result (λ n. n ≡ spots.after (TWrite 0 0 path.now value.now) spot) }
        ensures added { OnOk result (Emits self.old self.new (TWrite 0 0 path.now value.now) spot mark) }
    {
        let spot = self.tick(spot)?;
        let spot = self.expr(path, spot, mark)?;
        let spot = self.expr(value, spot, mark)?;
        self.put(spot, Instr::Write)
    }

    // A prefix operator.
    #[cycle(emit)]
    fn prefixed(
        &mut self,
        kind: Prefix,
        a: &Expr,
        spot: Spot,
        mark: u16,
    ) -> Result<Spot, OutOfMemory>
        ensures spot { IfOk result (λ n. n ≡ spots.after (TPrefix 0 0 kind a.now) spot) }
        ensures added { OnOk result (Emits self.old self.new (TPrefix 0 0 kind a.now) spot mark) }
    {
        let spot = self.tick(spot)?;
        let spot = self.expr(a, spot, mark)?;
        self.put(spot, Instr::Unary(prefix(kind)))
    }

    // `read(e)` and the like.
    #[cycle(emit)]
    fn effect(
        &mut self,
        kind: EffectKind,
        a: &Expr,
        spot: Spot,
        mark: u16,
    ) -> Result<Spot, OutOfMemory>
        ensures spot { IfOk result (λ n. n ≡ spots.after (TEffect 0 0 kind a.now) spot) }
        ensures added { OnOk result (Emits self.old self.new (TEffect 0 0 kind a.now) spot mark) }
    {
        let spot = self.tick(spot)?;
        let spot = self.expr(a, spot, mark)?;
        self.put(spot, effect(kind))
    }

    // `fail T(text)`: the jump that is never taken leaves the rest of the code reachable.
    #[cycle(emit)]
    fn fail(&mut self, text: &Expr, spot: Spot, mark: u16) -> Result<Spot, OutOfMemory>
        ensures spot { IfOk result (λ n. n ≡ spots.next (spots.next (spots.next (spots.after text.now (spots.next spot))))) }
        ensures added { OnOk result (Adds self.old self.new (fail_code text.now spot mark self.old.names) (texts.texts_of text.now)) }
    {
        let spot = self.tick(spot)?;
        let spot = self.expr(text, spot, mark)?;
        self.failing(spot)
    }

    // What fails with the text on the stack.
    fn failing(&mut self, spot: Spot) -> Result<Spot, OutOfMemory>
        ensures spot { IfOk result (λ n. n ≡ spots.next (spots.next (spots.next spot))) }
        ensures added { OnOk result (Adds self.old self.new (failing_code spot) []) }
    {
        let behind = next(next(next(spot)?)?)?;
        let spot = self.put(spot, Instr::Push(Constant::Bool(true)))?;
        let spot = self.put(spot, Instr::JumpIfNot(behind.at))?;
        self.put(spot, Instr::Fail)
    }

    // A chain of projections.
    #[cycle(emit)]
    fn project(
        &mut self,
        a: &Expr,
        indices: &[Index],
        spot: Spot,
        mark: u16,
    ) -> Result<Spot, OutOfMemory>
        ensures spot { IfOk result (λ n. n ≡ spots.after (TProject 0 0 a.now indices.now) spot) }
        ensures added { OnOk result (Emits self.old self.new (TProject 0 0 a.now indices.now) spot mark) }
    {
        let spot = self.tick(spot)?;
        let spot = self.expr(a, spot, mark)?;
        self.indices(indices, spot)
    }

    // Projections, one after another.
    #[tactic(auto, using(crate::proofs::Rests::indices_turn, crate::proofs::Turns::indices_code_turn))]
    fn indices(&mut self, indices: &[Index], spot: Spot) -> Result<Spot, OutOfMemory>
        ensures spot { IfOk result (λ n. n ≡ spots.after_indices indices.now spot) }
        ensures added { OnOk result (Adds self.old self.new (spec.indices_code indices.now) []) }
    {
        let mut spot = spot;
        for one in indices {
            spot = self.put(spot, index(one.number)?)?;
        }
        Ok(spot)
    }

    // `(a, b)`
    #[cycle(emit)]
    fn tuple(&mut self, items: &[Expr], spot: Spot, mark: u16) -> Result<Spot, OutOfMemory>
        ensures spot { IfOk result (λ n. n ≡ spots.after (TTuple 0 0 (trees_of items.now)) spot) }
        ensures added { OnOk result (Emits self.old self.new (TTuple 0 0 (trees_of items.now)) spot mark) }
    {
        let spot = self.constant(Constant::EmptyTuple, spot)?;
        self.items(Instr::TuplePush, items, spot, mark)
    }

    // `[a, b]`
    #[cycle(emit)]
    fn list(&mut self, items: &[Expr], spot: Spot, mark: u16) -> Result<Spot, OutOfMemory>
        ensures spot { IfOk result (λ n. n ≡ spots.after (TList 0 0 (trees_of items.now)) spot) }
        ensures added { OnOk result (Emits self.old self.new (TList 0 0 (trees_of items.now)) spot mark) }
    {
        let spot = self.constant(Constant::EmptyList, spot)?;
        self.items(Instr::ListPush, items, spot, mark)
    }

    // Items, each pushed by this instruction.
    #[cycle(emit)]
    #[tactic(auto, using(crate::proofs::Walks::items_walk))]
    fn items(
        &mut self,
        grow: Instr,
        items: &[Expr],
        spot: Spot,
        mark: u16,
    ) -> Result<Spot, OutOfMemory>
        ensures spot { IfOk result (λ n. n ≡ spots.after_items (trees_of items.now) spot) }
        ensures added { OnOk result (EmitsItems self.old self.new grow (trees_of items.now) spot mark) }
    {
        let mut spot = spot;
        for item in items {
            spot = self.expr(item, spot, mark)?;
            spot = self.put(spot, grow)?;
        }
        Ok(spot)
    }
}
