//! The search for heights of the stack: pairs of a place and a height, each found from one before it.
ghost use Rattle.std.specs.Prelude.{◌≡◌, ◌≢◌, ℕ, ◌+◌, ◌<◌, true, false, [], length, Some, None, IfOk, OnOk, slice_get};
ghost use Rattle.std.specs.BTreeSet.{contains};
ghost use Rattle.pie_code.specs.Ways as ways;
ghost use Rattle.pie_code.specs.Searches.{Meets, IsIndexed, pair_cmp};

use crate::Instr;
use crate::table::{goes_on, target};
use pie_base::OutOfMemory;
use std::alloc::Global;
use std::collections::BTreeSet;

/// The pairs that were met.
#[derive(Drop)]
pub(crate) struct Search {
    /// The height that was first met at each place.
    pub(crate) first: Vec<Option<usize>>,
    /// Places that were met again, each with the other height.
    pub(crate) more: BTreeSet<(usize, usize)>,
    /// Places and heights, in the order in which they were met.
    pub(crate) met: Vec<(usize, usize)>,
    /// The least place that was found wrong; the limit, before one is found.
    pub(crate) bad: usize,
    /// Places from here on don't matter.
    pub(crate) limit: usize,
}

impl Search {
    /// Nothing was met.
    pub(crate) fn new(alloc: Global, count: usize, limit: usize) -> Result<Search, OutOfMemory>
        ensures sized { IfOk result (λ s. length s.first.items ≡ count) }
        ensures unmet { IfOk result (λ s. (place n : ℕ) → slice_get s.first.items place ≡ Some (Some n) → ⊥) }
        ensures empty { IfOk result (λ s. s.met.items ≡ []) }
        ensures none { IfOk result (λ s. (pair : ℕ × ℕ) → contains pair_cmp s.more pair ≡ false) }
        ensures bad { IfOk result (λ s. s.bad ≡ limit) }
        ensures limit { IfOk result (λ s. s.limit ≡ limit) }
    {
        Ok(Search {
            first: vec![in alloc; None; count]?,
            more: BTreeSet::new(alloc),
            met: Vec::new(alloc),
            bad: limit,
            limit,
        })
    }

    /// A place is met with a height; one that is out of the code isn't.
    pub(crate) fn meet(&mut self, place: usize, height: usize) -> Result<(), OutOfMemory>
        requires { IsIndexed self.old }
        ensures { OnOk result (Meets (λ to. to ≡ place) height self.old self.new) }
    {
        if place >= self.first.len() {
            return Ok(());
        }
        match self.first[place] {
            None => self.meet_first(place, height),
            Some(other) => {
                if other == height {
                    Ok(())
                } else {
                    self.meet_again(place, height)
                }
            }
        }
    }

    fn meet_first(&mut self, place: usize, height: usize) -> Result<(), OutOfMemory>
        requires indexed { IsIndexed self.old }
        requires unmet { slice_get self.old.first.items place ≡ Some None }
        ensures { OnOk result (Meets (λ to. to ≡ place) height self.old self.new) }
    {
        self.first[place] = Some(height);
        self.met.push((place, height))?;
        Ok(())
    }

    fn meet_again(&mut self, place: usize, height: usize) -> Result<(), OutOfMemory>
        requires indexed { IsIndexed self.old }
        requires otherwise { (other : ℕ) × (slice_get self.old.first.items place ≡ Some (Some other)) × (other ≢ height) }
        ensures { OnOk result (Meets (λ to. to ≡ place) height self.old self.new) }
    {
        self.bad = self.bad.min(place);
        if self.more.insert((place, height))? {
            self.met.push((place, height))?;
        }
        Ok(())
    }

    // The next place is met, where an instruction goes on there.
    fn meet_next(&mut self, instr: Instr, place: usize, height: usize) -> Result<(), OutOfMemory>
        requires indexed { IsIndexed self.old }
        requires place { place < length self.old.first.items }
        ensures { OnOk result (Meets (λ to. (ways.goes_on instr ≡ true) × (to ≡ place + 1)) height self.old self.new) }
    {
        if goes_on(instr) {
            self.meet(place + 1, height)?;
        }
        Ok(())
    }

    // The target of an instruction is met.
    fn meet_target(&mut self, instr: Instr, height: usize) -> Result<(), OutOfMemory>
        requires { IsIndexed self.old }
        ensures { OnOk result (Meets (λ to. ways.target instr ≡ Some to) height self.old self.new) }
    {
        if let Some(to) = target(instr) {
            self.meet(to, height)?;
        }
        Ok(())
    }

    /// All places are met to which an instruction leads.
    pub(crate) fn follow(
        &mut self,
        instr: Instr,
        place: usize,
        height: usize,
    ) -> Result<(), OutOfMemory>
        requires indexed { IsIndexed self.old }
        requires place { place < length self.old.first.items }
        ensures { OnOk result (Meets (ways.Leads place instr) height self.old self.new) }
    {
        self.meet_next(instr, place, height)?;
        self.meet_target(instr, height)?;
        Ok(())
    }
}
