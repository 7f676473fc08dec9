//! Where heights of the stack are wrong.
ghost use Rattle.std.specs.Prelude.{◌≡◌, ℕ, ◌≤◌, ◌<◌, ◌↔◌, length, Some, IsTrue, IfOk, OnOk, slice_get};
ghost use Rattle.pie_code.specs.declared.instr.Instr.{Instr};
ghost use Rattle.pie_code.specs.Ways as ways;
ghost use Rattle.pie_code.specs.Effects as effects;
ghost use Rattle.pie_code.specs.Checked.{HeightsFit};
ghost use Rattle.pie_code.specs.Searches.{Met, Grows, IsSearch, AreLows, Judges, IsFollowed, IsDone, IsOver, FitsAlone, IsFirstBefore};

use crate::Instr;
use crate::height_search::Search;
use crate::lows::lows_of;
use crate::table::{fits, pops, pushes};
use pie_base::OutOfMemory;
use std::alloc::Global;

// How many heights besides one for each instruction are looked at.
const FURTHER_HEIGHTS: usize = 1_000_000;

/// The first place before the limit at which heights are wrong.
pub(crate) fn first_bad_height(
    alloc: Global,
    code: &[Instr],
    limit: usize,
) -> Result<Option<usize>, OutOfMemory>
    ensures { IfOk result (λ found. IsFirstBefore (HeightsFit code.now) limit found) }
{
    let lows = lows_of(alloc, code)?;
    let mut search = Search::new(alloc, code.len(), limit)?;
    search.meet(0, 0)?;
    search.run(code, &lows)?;
    let found = search.first_bad(code, &lows);
    Ok(found)
}

impl Search {
    // A place is found wrong where operands are missing.
    fn judge(&mut self, instr: Instr, place: usize, height: usize)
        ensures { Judges instr place height self.old self.new }
    {
        if !fits(instr, height) {
            self.bad = self.bad.min(place);
        }
    }

    // One pair is followed.
    fn go_on(
        &mut self,
        code: &[Instr],
        lows: &[usize],
        place: usize,
        height: usize,
    ) -> Result<(), OutOfMemory>
        requires search { IsSearch code.now self.old }
        requires lows { AreLows code.now lows.now }
        requires place { place < length code.now }
        requires met { Met self.old place height }
        ensures search { OnOk result (IsSearch code.now self.new) }
        ensures grows { OnOk result (Grows self.old self.new) }
        ensures followed { OnOk result ((i : Instr) → slice_get code.now place ≡ Some i → IsFollowed code.now lows.now self.new i place height) }
    {
        let instr = code[place];
        if pops(instr) > height || lows[place] >= self.bad {
            return Ok(());
        }
        let next = behind(instr, height)?;
        self.follow(instr, place, next)?;
        Ok(())
    }

    // One pair is done.
    fn treat(
        &mut self,
        code: &[Instr],
        lows: &[usize],
        place: usize,
        height: usize,
    ) -> Result<(), OutOfMemory>
        requires search { IsSearch code.now self.old }
        requires lows { AreLows code.now lows.now }
        requires place { place < length code.now }
        requires met { Met self.old place height }
        ensures search { OnOk result (IsSearch code.now self.new) }
        ensures grows { OnOk result (Grows self.old self.new) }
        ensures done { OnOk result (IsDone code.now lows.now self.new place height) }
    {
        self.judge(code[place], place, height);
        self.go_on(code, lows, place, height)?;
        Ok(())
    }

    // All pairs are done, and those that follow on them.
    fn run(&mut self, code: &[Instr], lows: &[usize]) -> Result<(), OutOfMemory>
        requires search { IsSearch code.now self.old }
        requires lows { AreLows code.now lows.now }
        ensures search { OnOk result (IsSearch code.now self.new) }
        ensures grows { OnOk result (Grows self.old self.new) }
        ensures done { OnOk result ((place height : ℕ) → Met self.new place height → IsDone code.now lows.now self.new place height) }
    {
        let most = code.len().saturating_add(FURTHER_HEIGHTS);
        for next in 0..most {
            if next >= self.met.len() {
                return Ok(());
            }
            let (place, height) = self.met[next];
            self.treat(code, lows, place, height)?;
        }
        Err(OutOfMemory)
    }

    // Whether a place that wasn't met has its operands on an empty stack.
    fn fits_alone(&self, code: &[Instr], at: usize) -> bool
        requires sized { length self.now.first.items ≡ length code.now }
        requires at { at < length code.now }
        ensures { IsTrue result ↔ FitsAlone code.now self.now at }
    {
        self.first[at].is_some() || fits(code[at], 0)
    }

    // The first place before the limit at which heights are wrong.
    fn first_bad(&self, code: &[Instr], lows: &[usize]) -> Option<usize>
        requires search { IsSearch code.now self.now }
        requires lows { AreLows code.now lows.now }
        requires over { IsOver code.now lows.now self.now }
        ensures { IsFirstBefore (HeightsFit code.now) self.now.limit result }
    {
        for at in 0..code.len().min(self.bad) {
            if !self.fits_alone(code, at) {
                return Some(at);
            }
        }
        if self.bad < self.limit {
            Some(self.bad)
        } else {
            None
        }
    }
}

// The height behind an instruction.
fn behind(instr: Instr, height: usize) -> Result<usize, OutOfMemory>
    requires { effects.pops instr ≤ height }
    ensures { IfOk result (λ next. next ≡ ways.after instr height) }
{
    (height - pops(instr))
        .checked_add(pushes(instr))
        .ok_or(OutOfMemory)
}
