//! The test that lets code run.
ghost use Rattle.std.specs.Prelude.{◌≡◌, ℕ, ◌<◌, ◌↔◌, length, IsTrue, IfOk, IfErr, MatchOption};
ghost use Rattle.pie_code.specs.Checked.{IsAccepted, IsRefusal, JumpsWell, HeightsFit, SlotsFit, HasEnd};
ghost use Rattle.pie_code.specs.Scans.{IsFirst, limit_of};

use crate::heights::first_bad_height;
use crate::jumps::{first_bad_jump, jumps_well};
use crate::slots::{first_bad_slot, slots_fit};
use crate::table::goes_on;
use crate::{Checked, Code, CodeError, Instr};
use pie_base::OutOfMemory;
use std::alloc::Global;

/// Tests code; a refusal names the least place at which something is wrong. Out of memory is also answered where
/// code that is wrong has more than 1,000,000 heights of the stack besides one for each instruction.
/// Rule: docs/LANGUAGE.md, "Bytecode".
pub fn verify(alloc: Global, code: Code) -> Result<Checked, CodeError>
    ensures code { IfOk result (λ checked. checked ≡ code) }
    ensures accepted { IfOk result (λ checked. IsAccepted checked) }
    ensures refused { IfErr result (λ error. IsRefusal code error) }
{
    if let Some(error) = refusal_of(alloc, &code)? {
        return Err(error);
    }
    Ok(Checked { code })
}

/// Whether neither jumps nor slots are wrong at a place.
pub fn checks(code: &Code, at: usize) -> bool
    requires { at < length code.now.instrs.items }
    ensures { IsTrue result ↔ (JumpsWell code.now.instrs.items at × SlotsFit code.now at) }
{
    jumps_well(&code.instrs, at) && slots_fit(code, at)
}

// Why code is refused; none where it is accepted.
fn refusal_of(alloc: Global, code: &Code) -> Result<Option<CodeError>, OutOfMemory>
    ensures { IfOk result (λ refusal. MatchOption refusal (IsAccepted code.now) (λ error. IsRefusal code.now error)) }
{
    let jump = first_bad_jump(&code.instrs);
    let slot = first_bad_slot(code);
    let limit = limit_of(code.instrs.len(), jump, slot);
    let height = first_bad_height(alloc, &code.instrs, limit)?;
    match height {
        Some(at) => Ok(Some(CodeError::Height(at))),
        None => Ok(other_refusal(code, jump, slot)),
    }
}

// The end of the places at which wrong heights would be told.
fn limit_of(count: usize, jump: Option<usize>, slot: Option<usize>) -> usize
    ensures { result ≡ limit_of count jump slot }
{
    let jump = jump.unwrap_or(count);
    match slot {
        Some(at) => { if at < jump { at + 1 } else { jump } }
        None => jump,
    }
}

// Why code is refused whose heights are right as far as that matters.
fn other_refusal(code: &Code, jump: Option<usize>, slot: Option<usize>) -> Option<CodeError>
    requires jump { IsFirst (JumpsWell code.now.instrs.items) jump }
    requires slot { IsFirst (SlotsFit code.now) slot }
    requires heights { (at : ℕ) → at < limit_of (length code.now.instrs.items) jump slot → HeightsFit code.now.instrs.items at }
    ensures { MatchOption result (IsAccepted code.now) (λ error. IsRefusal code.now error) }
{
    match (jump, slot) {
        (Some(jump), None) => Some(CodeError::Jump(jump)),
        (Some(jump), Some(slot)) => {
            if slot < jump {
                Some(CodeError::Slot(slot))
            } else {
                Some(CodeError::Jump(jump))
            }
        }
        (None, Some(slot)) => Some(CodeError::Slot(slot)),
        (None, None) => {
            if has_end(&code.instrs) {
                None
            } else {
                Some(CodeError::NoEnd)
            }
        }
    }
}

// Whether running doesn't go on behind the last instruction.
fn has_end(code: &[Instr]) -> bool
    ensures { IsTrue result ↔ HasEnd code.now }
{
    let count = code.len();
    count > 0 && !goes_on(code[count - 1])
}
