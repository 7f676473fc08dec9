//! How far back the ways from each place may lead.
ghost use Rattle.std.specs.Prelude.{◌≡◌, ℕ, ◌≤◌, ◌<◌, true, length, Some, IfOk, slice_get, slice_index};
ghost use Rattle.pie_code.specs.declared.instr.Instr.{Instr};
ghost use Rattle.pie_code.specs.Ways as ways;
ghost use Rattle.pie_code.specs.Ways.{Leads};
ghost use Rattle.pie_code.specs.Searches.{AreLows, IsLow};

use crate::Instr;
use crate::table::{goes_on, target};
use pie_base::OutOfMemory;
use std::alloc::Global;

// After so many sweeps the bounds are given up.
const SWEEPS: usize = 64;

/// For each place a bound of the places to which ways from there lead.
pub(crate) fn lows_of(alloc: Global, code: &[Instr]) -> Result<Vec<usize>, OutOfMemory>
    ensures { IfOk result (λ lows. AreLows code.now lows.items) }
{
    let mut lows = places(alloc, code.len())?;
    for _ in 0..SWEEPS {
        if are_lows(code, &lows) {
            return Ok(lows);
        }
        sweep(code, &mut lows);
    }
    zeros(alloc, code.len())
}

fn places(alloc: Global, count: usize) -> Result<Vec<usize>, OutOfMemory>
    ensures { IfOk result (λ places. length places.items ≡ count) }
{
    let mut places = vec![in alloc; 0; count]?;
    for at in 0..count {
        places[at] = at;
    }
    Ok(places)
}

fn zeros(alloc: Global, count: usize) -> Result<Vec<usize>, OutOfMemory>
    ensures sized { IfOk result (λ zeros. length zeros.items ≡ count) }
    ensures zero { IfOk result (λ zeros. (at : ℕ) → slice_index zeros.items at ≡ 0) }
{
    Ok(vec![in alloc; 0; count]?)
}

// Each bound is lowered to those of the places to which its instruction leads, the last first.
fn sweep(code: &[Instr], lows: &mut [usize])
    requires { length lows.old ≡ length code.now }
    ensures { length lows.new ≡ length lows.old }
{
    for done in 0..code.len() {
        let at = code.len() - 1 - done;
        lows[at] = lows[at].min(bound_led(code, lows, at));
    }
}

fn are_lows(code: &[Instr], lows: &[usize]) -> bool
    requires { length lows.now ≡ length code.now }
    ensures { result ≡ true → AreLows code.now lows.now }
{
    for at in 0..code.len() {
        if !is_low(code, lows, at) {
            return false;
        }
    }
    true
}

fn is_low(code: &[Instr], lows: &[usize], at: usize) -> bool
    requires sized { length lows.now ≡ length code.now }
    requires at { at < length code.now }
    ensures { result ≡ true → IsLow code.now lows.now at }
{
    lows[at] <= at && lows[at] <= bound_led(code, lows, at)
}

// The least bound of the places to which an instruction leads.
fn bound_led(code: &[Instr], lows: &[usize], at: usize) -> usize
    requires { at < length code.now }
    ensures { (i : Instr) (to : ℕ) → slice_get code.now at ≡ Some i → Leads at i to → to < length lows.now → result ≤ slice_index lows.now to }
{
    bound_next(lows, code[at], at + 1).min(bound_target(lows, code[at]))
}

fn bound_next(lows: &[usize], instr: Instr, next: usize) -> usize
    ensures { ways.goes_on instr ≡ true → next < length lows.now → result ≤ slice_index lows.now next }
{
    if goes_on(instr) {
        bound_at(lows, next)
    } else {
        usize::MAX
    }
}

fn bound_target(lows: &[usize], instr: Instr) -> usize
    ensures { (to : ℕ) → ways.target instr ≡ Some to → to < length lows.now → result ≤ slice_index lows.now to }
{
    match target(instr) {
        Some(to) => bound_at(lows, to),
        None => usize::MAX,
    }
}

fn bound_at(lows: &[usize], at: usize) -> usize
    ensures { at < length lows.now → result ≤ slice_index lows.now at }
{
    if at < lows.len() {
        lows[at]
    } else {
        usize::MAX
    }
}
