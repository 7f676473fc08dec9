//! The code of a function.
ghost use Rattle.std.specs.Prelude.{◌≡◌, IfOk, length};
ghost use Rattle.pie_codegen.specs.Functions.{IsCodeOf, Means, scope_of};

use crate::emitter::Emitter;
use crate::room::block_room;
use crate::scope::Scope;
use crate::spot::{Spot, slot_above};
use pie_base::OutOfMemory;
use pie_code::{Code, Instr};
use pie_parser::{Function, Param};
use std::alloc::Global;

/// The code of a function: that of its body, and a return.
/// More than 65,535 parameters, slots or arguments, or a number past the last one of `u32`, find no memory.
/// Rule: docs/LANGUAGE.md, "Bytecode".
#[tactic(auto, using(crate::proofs::Whole::compiled))]
pub fn function_code(alloc: Global, function: &Function) -> Result<Code, OutOfMemory>
    ensures code { IfOk result (λ code. IsCodeOf function.now code) }
    ensures means { IfOk result (λ code. Means function.now code) }
{
    let code = emitted(alloc, function)?;
    Ok(code)
}

// The code of a function.
fn emitted(alloc: Global, function: &Function) -> Result<Code, OutOfMemory>
    ensures { IfOk result (λ code. IsCodeOf function.now code) }
{
    let params = params_count(function.params.as_slice())?;
    let slots = slot_above(params, block_room(&function.body)?)?;
    let names = params_scope(alloc, function.params.as_slice())?;
    let mut emitter = Emitter::new(alloc, names);
    let spot = emitter.block(&function.body, Spot { at: 0, text: 0 }, params)?;
    let _end = emitter.put(spot, Instr::Return)?;
    let Emitter { code, texts, .. } = emitter;
    Ok(Code {
        params,
        slots,
        texts,
        instrs: code,
    })
}

// How many parameters there are.
fn params_count(params: &[Param]) -> Result<u16, OutOfMemory>
    ensures { IfOk result (λ n. n ≡ length params.now) }
{
    match u16::try_from(params.len()) {
        Ok(count) => Ok(count),
        Err(_) => Err(OutOfMemory),
    }
}

// The parameters, the first in slot 0.
#[tactic(auto, using(crate::proofs::Coded::params_turn))]
fn params_scope(alloc: Global, params: &[Param]) -> Result<Scope, OutOfMemory>
    ensures { IfOk result (λ names. names ≡ scope_of params.now) }
{
    let mut names = Scope::new(alloc);
    let mut slot = 0;
    for param in params {
        names.push(param.name.text.copy()?, slot)?;
        slot = slot_above(slot, 1)?;
    }
    Ok(names)
}
