//! Emitting comprehensions.
ghost use Rattle.std.specs.Prelude.{◌≡◌, [], IfOk, OnOk};
ghost use Rattle.pie_parser.specs.Plain.{TEach};
ghost use Rattle.pie_codegen.specs.Compiled as spec;
ghost use Rattle.pie_codegen.specs.Growing.{Adds, Emits, EmitsWith, loop_start, loop_turn};
ghost use Rattle.pie_codegen.specs.Spots as spots;
ghost use Rattle.pie_codegen.specs.Texts as texts;

use crate::behind::after;
use crate::emitter::Emitter;
use crate::spot::{Spot, next, slot_above};
use pie_base::OutOfMemory;
use pie_code::{Constant, Each, Instr};
use pie_parser::{Expr, Name};

impl Emitter {
    // `[item for name in list]`
    #[cycle(emit)]
    pub fn each(
        &mut self,
        item: &Expr,
        name: &Name,
        list: &Expr,
        spot: Spot,
        mark: u16,
    ) -> Result<Spot, OutOfMemory>
        ensures spot { IfOk result (λ n. n ≡ spots.after (TEach 0 0 item.now name.now list.now) spot) }
        ensures added { OnOk result (Emits self.old self.new (TEach 0 0 item.now name.now list.now) spot mark) }
    {
        let spot = self.tick(spot)?;
        let spot = self.expr(list, spot, mark)?;
        let spot = self.loop_start(spot, mark)?;
        self.loop_turn(item, name, spot, mark)
    }

    // The list goes into the first slot and the number of the next item into the one behind, and an empty list is pushed.
    fn loop_start(&mut self, spot: Spot, mark: u16) -> Result<Spot, OutOfMemory>
        ensures spot { IfOk result (λ n. n ≡ spots.loop_at spot) }
        ensures added { OnOk result (Adds self.old self.new (loop_start mark) []) }
    {
        let at = slot_above(mark, 1)?;
        let spot = self.put(spot, Instr::Store(mark))?;
        let spot = self.put(spot, Instr::Push(Constant::Int(0)))?;
        let spot = self.put(spot, Instr::Store(at))?;
        self.put(spot, Instr::Push(Constant::EmptyList))
    }

    // The loop over the items.
    #[cycle(emit)]
    fn loop_turn(
        &mut self,
        item: &Expr,
        name: &Name,
        top: Spot,
        mark: u16,
    ) -> Result<Spot, OutOfMemory>
        ensures spot { IfOk result (λ n. n ≡ spots.next (spots.next (spots.after item.now (spots.next top)))) }
        ensures added { OnOk result (Adds self.old self.new (loop_turn item.now name.now top mark self.old.names) (texts.texts_of item.now)) }
    {
        let inner = next(top)?;
        let end = next(next(after(item, inner)?)?)?;
        let slot = slot_above(mark, 2)?;
        let free = slot_above(mark, 3)?;
        let spot = self.put(top, loop_head(mark, end)?)?;
        let spot = self.within(item, name, slot, spot, free)?;
        let spot = self.put(spot, Instr::ListPush)?;
        self.put(spot, Instr::Jump(top.at))
    }

    // An expression where one more name is in scope.
    #[cycle(emit)]
    #[tactic(auto, using(crate::proofs::Scoped::oldest_one))]
    fn within(
        &mut self,
        e: &Expr,
        name: &Name,
        slot: u16,
        spot: Spot,
        mark: u16,
    ) -> Result<Spot, OutOfMemory>
        ensures spot { IfOk result (λ n. n ≡ spots.after e.now spot) }
        ensures added { OnOk result (EmitsWith self.old self.new name.now slot e.now spot mark) }
    {
        let depth = self.names.len();
        self.names.push(name.text.copy()?, slot)?;
        let spot = self.expr(e, spot, mark)?;
        self.names.truncate(depth);
        Ok(spot)
    }
}

// The instruction that begins each turn of a loop.
fn loop_head(mark: u16, end: Spot) -> Result<Instr, OutOfMemory>
    ensures { IfOk result (λ i. i ≡ spec.each_code mark end.at) }
{
    let at = slot_above(mark, 1)?;
    let item = slot_above(mark, 2)?;
    Ok(Instr::Each(Each {
        list: mark,
        at,
        item,
        end: end.at,
    }))
}
