//! The code and the texts that were emitted so far.
ghost use Rattle.std.specs.Prelude.{◌≡◌, [], ◌∷◌, ◌++◌, IfOk, OnOk};
ghost use Rattle.pie_code.specs.declared.instr.Instr.TheVariants as instrs;
ghost use Rattle.pie_codegen.specs.Growing.{Adds};
ghost use Rattle.pie_codegen.specs.Spots as spots;

use crate::scope::Scope;
use crate::spot::{Spot, next, next_text};
use pie_base::{OutOfMemory, Text};
use pie_code::Instr;
use std::alloc::Global;

// The code and the texts of a function so far, and the names in scope.
#[derive(Drop)]
pub struct Emitter {
    pub code: Vec<Instr>,
    pub texts: Vec<Text>,
    pub names: Scope,
}

impl Emitter {
    // No code, where these names are in scope.
    pub fn new(alloc: Global, names: Scope) -> Emitter
        ensures code { result.code.items ≡ [] }
        ensures texts { result.texts.items ≡ [] }
        ensures names { result.names ≡ names }
    {
        Emitter {
            code: Vec::new(alloc),
            texts: Vec::new(alloc),
            names,
        }
    }

    // One more instruction, and the place behind it.
    pub fn put(&mut self, spot: Spot, instr: Instr) -> Result<Spot, OutOfMemory>
        ensures spot { IfOk result (λ n. n ≡ spots.next spot) }
        ensures added { OnOk result (Adds self.old self.new (instr ∷ []) []) }
    {
        let behind = next(spot)?;
        self.code.push(instr)?;
        Ok(behind)
    }

    // The tick that each expression begins with.
    pub fn tick(&mut self, spot: Spot) -> Result<Spot, OutOfMemory>
        ensures spot { IfOk result (λ n. n ≡ spots.next spot) }
        ensures added { OnOk result (Adds self.old self.new (instrs.Tick ∷ []) []) }
    {
        self.put(spot, Instr::Tick)
    }

    // One more instruction, and the text that it names.
    pub fn put_text(&mut self, spot: Spot, instr: Instr, text: &Text) -> Result<Spot, OutOfMemory>
        ensures spot { IfOk result (λ n. n ≡ spots.next_text spot) }
        ensures added { OnOk result (Adds self.old self.new (instr ∷ []) (text.now ∷ [])) }
    {
        let behind = next_text(spot)?;
        self.code.push(instr)?;
        push_copy(&mut self.texts, text)?;
        Ok(behind)
    }
}

fn push_copy(texts: &mut Vec<Text>, text: &Text) -> Result<(), OutOfMemory>
    ensures { OnOk result (texts.new.items ≡ texts.old.items ++ text.now ∷ []) }
{
    let copy = text.copy()?;
    texts.push(copy)?;
    Ok(())
}
