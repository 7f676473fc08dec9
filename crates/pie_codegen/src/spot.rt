//! Where compiling stands.
ghost use Rattle.std.specs.Prelude.{◌≡◌, ◌+◌, ◌≤◌, IfOk};
ghost use Rattle.pie_codegen.specs.Spots as spec;

use pie_base::OutOfMemory;

/// The place of the next instruction, and of the next text in the table of texts, both from 0.
#[derive(Clone, Copy)]
pub struct Spot {
    pub at: u32,
    pub text: u32,
}

// A spot, and the first slot that is free.
#[derive(Clone, Copy)]
pub struct Place {
    pub spot: Spot,
    pub mark: u16,
}

// So many slots above one.
pub fn slot_above(slot: u16, count: u16) -> Result<u16, OutOfMemory>
    ensures sum { IfOk result (λ n. n ≡ slot + count) }
    ensures fits { IfOk result (λ n. n ≤ 65535) }
{
    slot.checked_add(count).ok_or(OutOfMemory)
}

// Behind one instruction.
pub fn next(spot: Spot) -> Result<Spot, OutOfMemory>
    ensures { IfOk result (λ n. n ≡ spec.next spot) }
{
    let at = spot.at.checked_add(1).ok_or(OutOfMemory)?;
    Ok(Spot {
        at,
        text: spot.text,
    })
}

// Behind one instruction and its text.
pub fn next_text(spot: Spot) -> Result<Spot, OutOfMemory>
    ensures { IfOk result (λ n. n ≡ spec.next_text spot) }
{
    let at = spot.at.checked_add(1).ok_or(OutOfMemory)?;
    let text = spot.text.checked_add(1).ok_or(OutOfMemory)?;
    Ok(Spot { at, text })
}

// Behind what comes before the items of a comprehension.
pub fn loop_at(spot: Spot) -> Result<Spot, OutOfMemory>
    ensures { IfOk result (λ n. n ≡ spec.loop_at spot) }
{
    let spot = next(spot)?;
    let spot = next(spot)?;
    let spot = next(spot)?;
    next(spot)
}
