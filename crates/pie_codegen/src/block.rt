//! Emitting blocks, and the choice between them.
ghost use Rattle.std.specs.Prelude.{◌≡◌, IfOk, OnOk};
ghost use Rattle.pie_parser.specs.Plain.{AnElse, NoElse, TIf};
ghost use Rattle.pie_parser.specs.declared.tree.Line.TheVariants as lines;
ghost use Rattle.pie_parser.specs.TreeView.{block_of, last_of};
ghost use Rattle.pie_codegen.specs.Growing.{Emits, EmitsBlock, EmitsLast, EmitsTested};
ghost use Rattle.pie_codegen.specs.Lines.{AddsLine};
ghost use Rattle.pie_codegen.specs.Spots as spots;

use crate::behind_block::after_block;
use crate::emitter::Emitter;
use crate::spot::{Place, Spot, next, slot_above};
use pie_base::OutOfMemory;
use pie_code::{Constant, Instr};
use pie_parser::{Block, Expr, Line, Name};

impl Emitter {
    // `if c {..}`
    #[cycle(emit)]
    pub fn alone(
        &mut self,
        test: &Expr,
        then: &Block,
        spot: Spot,
        mark: u16,
    ) -> Result<Spot, OutOfMemory>
        ensures spot { IfOk result (λ n. n ≡ spots.after (TIf 0 0 test.now (block_of then.now) NoElse) spot) }
        ensures added { OnOk result (Emits self.old self.new (TIf 0 0 test.now (block_of then.now) NoElse) spot mark) }
    {
        let spot = self.tested(test, then, spot, mark)?;
        let end = next(next(spot)?)?;
        let spot = self.put(spot, Instr::Jump(end.at))?;
        self.put(spot, Instr::Push(Constant::Unit))
    }

    // `if c {..} else {..}`
    #[cycle(emit)]
    pub fn choice(
        &mut self,
        test: &Expr,
        then: &Block,
        other: &Block,
        spot: Spot,
        mark: u16,
    ) -> Result<Spot, OutOfMemory>
        ensures spot { IfOk result (λ n. n ≡ spots.after (TIf 0 0 test.now (block_of then.now) (AnElse (block_of other.now))) spot) }
        ensures added { OnOk result (Emits self.old self.new (TIf 0 0 test.now (block_of then.now) (AnElse (block_of other.now))) spot mark) }
    {
        let spot = self.tested(test, then, spot, mark)?;
        let end = after_block(other, next(spot)?)?;
        let spot = self.put(spot, Instr::Jump(end.at))?;
        self.block(other, spot, mark)
    }

    // A test, and the block for true; where it is false, it goes on behind the jump that follows.
    #[cycle(emit)]
    fn tested(
        &mut self,
        test: &Expr,
        then: &Block,
        spot: Spot,
        mark: u16,
    ) -> Result<Spot, OutOfMemory>
        ensures spot { IfOk result (λ n. n ≡ spots.after_block (block_of then.now) (spots.next (spots.after test.now (spots.next spot)))) }
        ensures added { OnOk result (EmitsTested self.old self.new test.now (block_of then.now) spot mark) }
    {
        let spot = self.tick(spot)?;
        let spot = self.expr(test, spot, mark)?;
        let other = next(after_block(then, next(spot)?)?)?;
        let spot = self.put(spot, Instr::JumpIfNot(other.at))?;
        self.block(then, spot, mark)
    }

    // A block. Its names leave the scope at its end.
    #[cycle(emit)]
    #[tactic(auto, using(crate::proofs::Walks::lines_walk))]
    pub fn block(&mut self, block: &Block, spot: Spot, mark: u16) -> Result<Spot, OutOfMemory>
        ensures spot { IfOk result (λ n. n ≡ spots.after_block (block_of block.now) spot) }
        ensures added { OnOk result (EmitsBlock self.old self.new (block_of block.now) spot mark) }
    {
        let depth = self.names.len();
        let mut place = Place { spot, mark };
        let lines = block.lines.as_slice();
        for line in lines {
            place = self.line(line, place)?;
        }
        let end = self.last(&block.last, place.spot, place.mark)?;
        self.names.truncate(depth);
        Ok(end)
    }

    // A line of a block.
    #[cycle(emit)]
    fn line(&mut self, line: &Line, place: Place) -> Result<Place, OutOfMemory>
        ensures { IfOk result (λ behind. AddsLine self.old self.new line.now place behind) }
    {
        match line {
            Line::Val(_, _, name, value) => self.val(name, value, place),
            Line::Expr(value) => self.dropped(value, place),
        }
    }

    // `val name = value;`
    #[cycle(emit)]
    fn val(&mut self, name: &Name, value: &Expr, place: Place) -> Result<Place, OutOfMemory>
        ensures { IfOk result (λ behind. AddsLine self.old self.new (lines.Val 0 0 name.now value.now) place behind) }
    {
        let spot = self.expr(value, place.spot, place.mark)?;
        let spot = self.put(spot, Instr::Store(place.mark))?;
        self.names.push(name.text.copy()?, place.mark)?;
        let mark = slot_above(place.mark, 1)?;
        Ok(Place { spot, mark })
    }

    // `value;`
    #[cycle(emit)]
    fn dropped(&mut self, value: &Expr, place: Place) -> Result<Place, OutOfMemory>
        ensures { IfOk result (λ behind. AddsLine self.old self.new (lines.Expr value.now) place behind) }
    {
        let spot = self.expr(value, place.spot, place.mark)?;
        let spot = self.put(spot, Instr::Drop)?;
        Ok(Place {
            spot,
            mark: place.mark,
        })
    }

    // What ends a block.
    #[cycle(emit)]
    fn last(&mut self, last: &Option<Expr>, spot: Spot, mark: u16) -> Result<Spot, OutOfMemory>
        ensures spot { IfOk result (λ n. n ≡ spots.after_last (last_of last.now) spot) }
        ensures added { OnOk result (EmitsLast self.old self.new (last_of last.now) spot mark) }
    {
        match last {
            Some(e) => self.expr(e, spot, mark),
            None => self.put(spot, Instr::Push(Constant::Unit)),
        }
    }
}
