//! Where jumps and loops are wrong.
ghost use Rattle.std.specs.Prelude.{◌≡◌, ℕ, ◌≤◌, ◌<◌, ◌↔◌, length, MatchOption, IsTrue, Some, slice_get};
ghost use Rattle.pie_code.specs.declared.instr.Each.{Each as EachLoop};
ghost use Rattle.pie_code.specs.declared.instr.Instr.TheVariants.{Tick};
ghost use Rattle.pie_code.specs.Ways.{JumpsTo};
ghost use Rattle.pie_code.specs.Checked.{IsLoop, JumpsWell};
ghost use Rattle.pie_code.specs.Scans as spec;

use crate::table::target;
use crate::{Each, Instr};

/// The least place at which jumps are wrong.
pub(crate) fn first_bad_jump(code: &[Instr]) -> Option<usize>
    ensures { spec.IsFirst (JumpsWell code.now) result }
{
    let mut found = None;
    for from in 0..code.len() {
        found = earlier(found, spoilt_by(code, from));
    }
    found
}

/// Whether jumps are right at a place.
pub(crate) fn jumps_well(code: &[Instr], at: usize) -> bool
    requires { at < length code.now }
    ensures { IsTrue result ↔ JumpsWell code.now at }
{
    jumps_out(code, at) && !is_jumped_to_late(code, at)
}

fn is_jumped_to_late(code: &[Instr], at: usize) -> bool
    requires { at < length code.now }
    ensures { IsTrue result ↔ ((from : ℕ) × spec.JumpsLate code.now from at) }
{
    for from in at..code.len() {
        if late_target(code, from) == Some(at) {
            return true;
        }
    }
    false
}

// The least place at which an instruction makes jumps wrong.
fn spoilt_by(code: &[Instr], from: usize) -> Option<usize>
    requires { from < length code.now }
    ensures { spec.IsLeast (spec.Spoils code.now from) result }
{
    if let Some(at) = late_target(code, from) {
        return Some(at);
    }
    if jumps_out(code, from) {
        None
    } else {
        Some(from)
    }
}

fn earlier(a: Option<usize>, b: Option<usize>) -> Option<usize>
    ensures { result ≡ spec.earlier a b }
{
    match (a, b) {
        (None, b) => b,
        (Some(a), None) => Some(a),
        (Some(a), Some(b)) => { if b < a { Some(b) } else { Some(a) } }
    }
}

// The loop to which an instruction jumps back from its end or from behind it.
fn late_target(code: &[Instr], from: usize) -> Option<usize>
    requires { from < length code.now }
    ensures { MatchOption result ((at : ℕ) → spec.JumpsLate code.now from at → ⊥) (λ at. spec.JumpsLate code.now from at) }
{
    let to = target(code[from])?;
    let each = loop_at(code, to)?;
    if to <= from && each.end as usize <= from {
        Some(to)
    } else {
        None
    }
}

fn jumps_out(code: &[Instr], at: usize) -> bool
    requires { at < length code.now }
    ensures { IsTrue result ↔ spec.JumpsOut code.now at }
{
    jump_is_right(code, at) && loop_is_right(code, at)
}

// Whether a jump goes to an instruction, and back only to a loop.
fn jump_is_right(code: &[Instr], at: usize) -> bool
    requires { at < length code.now }
    ensures { IsTrue result ↔ spec.JumpIsRight code.now at }
{
    match target(code[at]) {
        None => true,
        Some(to) => to < code.len() && (at < to || loop_at(code, to).is_some()),
    }
}

// Whether a loop begins with a tick, and ends behind its beginning.
fn loop_is_right(code: &[Instr], at: usize) -> bool
    requires { at < length code.now }
    ensures { IsTrue result ↔ spec.LoopIsRight code.now at }
{
    match loop_at(code, at) {
        None => true,
        Some(each) => at < each.end as usize && is_tick(code, at + 1),
    }
}

fn is_tick(code: &[Instr], at: usize) -> bool
    ensures { IsTrue result ↔ (slice_get code.now at ≡ Some Tick) }
{
    matches!(code.get(at), Some(Instr::Tick))
}

// The loop that begins at a place.
fn loop_at(code: &[Instr], at: usize) -> Option<Each>
    ensures { MatchOption result ((each : EachLoop) → IsLoop code.now at each → ⊥) (λ each. IsLoop code.now at each) }
{
    match code.get(at) {
        Some(Instr::Each(each)) => Some(*each),
        _ => None,
    }
}
