//! Emitting calls.
ghost use Rattle.std.specs.Prelude.{◌≡◌, [], ◌∷◌, IfOk, OnOk};
ghost use Rattle.pie_parser.specs.Plain.{TCall};
ghost use Rattle.pie_parser.specs.TreeView.{trees_of};
ghost use Rattle.pie_types.specs.Checking.{count};
ghost use Rattle.pie_codegen.specs.Compiled as spec;
ghost use Rattle.pie_codegen.specs.Growing.{Adds, Emits, EmitsArgs, required_code};
ghost use Rattle.pie_codegen.specs.Spots as spots;
ghost use Rattle.pie_codegen.specs.Texts as texts;

use crate::emitter::Emitter;
use crate::kinds::plain_call;
use crate::spot::Spot;
use pie_base::{OutOfMemory, Text};
use pie_code::{Instr, Required};
use pie_parser::{CallKind, Expr, Name};
use pie_value::How;

impl Emitter {
    // A call.
    #[cycle(emit)]
    pub fn call(
        &mut self,
        kind: CallKind,
        name: &Name,
        items: &[Expr],
        spot: Spot,
        mark: u16,
    ) -> Result<Spot, OutOfMemory>
        ensures spot { IfOk result (λ n. n ≡ spots.after (TCall 0 0 kind name.now (trees_of items.now)) spot) }
        ensures added { OnOk result (Emits self.old self.new (TCall 0 0 kind name.now (trees_of items.now)) spot mark) }
    {
        let spot = self.tick(spot)?;
        let spot = self.arguments(items, spot, mark)?;
        let count = count_of(items);
        self.called(kind, &name.text, count, spot)
    }

    // What calls by a name with so many arguments on the stack.
    fn called(
        &mut self,
        kind: CallKind,
        name: &Text,
        count: usize,
        spot: Spot,
    ) -> Result<Spot, OutOfMemory>
        ensures spot { IfOk result (λ n. n ≡ spots.after_call kind spot) }
        ensures added { OnOk result (Adds self.old self.new (spec.call_code kind name.now count spot ∷ []) (texts.call_texts kind name.now)) }
    {
        match kind {
            CallKind::Plain => self.put(spot, plain_call(name.as_str(), count)),
            CallKind::Require => self.put_required(spot, name, count, How::Whole),
            CallKind::RequireByHash => self.put_required(spot, name, count, How::Hashed),
            CallKind::Run => self.put_required(spot, name, count, How::Ran),
        }
    }

    // What requires a function by its name.
    fn put_required(
        &mut self,
        spot: Spot,
        name: &Text,
        count: usize,
        how: How,
    ) -> Result<Spot, OutOfMemory>
        ensures spot { IfOk result (λ n. n ≡ spots.next_text spot) }
        ensures added { OnOk result (Adds self.old self.new (required_code spot count how ∷ []) (name.now ∷ [])) }
    {
        let instr = required(spot, count, how)?;
        self.put_text(spot, instr, name)
    }

    // Arguments, one after another.
    #[cycle(emit)]
    #[tactic(auto, using(crate::proofs::Walks::args_walk))]
    fn arguments(&mut self, items: &[Expr], spot: Spot, mark: u16) -> Result<Spot, OutOfMemory>
        ensures spot { IfOk result (λ n. n ≡ spots.after_args (trees_of items.now) spot) }
        ensures added { OnOk result (EmitsArgs self.old self.new (trees_of items.now) spot mark) }
    {
        let mut spot = spot;
        for item in items {
            spot = self.expr(item, spot, mark)?;
        }
        Ok(spot)
    }
}

// How many arguments there are.
#[tactic(auto, using(crate::proofs::Turns::args_counted))]
fn count_of(items: &[Expr]) -> usize
    ensures { result ≡ count (trees_of items.now) }
{
    items.len()
}

// A requirement of the function whose name is the next text. More than 65,535 arguments find no memory.
fn required(spot: Spot, count: usize, how: How) -> Result<Instr, OutOfMemory>
    ensures { IfOk result (λ i. i ≡ required_code spot count how) }
{
    match u16::try_from(count) {
        Ok(count) => Ok(Instr::Require(Required {
            func: spot.text,
            count,
            how,
        })),
        Err(_) => Err(OutOfMemory),
    }
}
