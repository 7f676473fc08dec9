//! Marks on numbers, which are all taken away without a walk over them.
ghost use Rattle.std.specs.Prelude.{◌≡◌, ◌<◌, [], false, true, length, replicate, slice_index_or, slice_set, OnOk};

use pie_base::OutOfMemory;
use pie_graph::TaskNo;
use std::alloc::Global;
use std::marker::Model;

/// Marks on numbers. Contracts see for each number whether it has one.
// A number has its mark where its stamp is that of the round.
#[derive(Drop)]
pub(crate) struct Marks {
    stamps: Vec<u32>,
    round: u32,
}

impl Model for Marks {
    ghost use Rattle.std.specs.Prelude.{List, Bool, map, ◌==◌, ◌+◌};
    ghost use Rattle.pie_graph.specs.Numbers.{AllBelow};

    ghost Value = { List Bool };

    ghost view = { λ m. map (λ stamp. stamp == m.round) m.stamps.items };

    ghost invariant = { λ m. AllBelow (m.round + 1) m.stamps.items };
}

impl Marks {
    /// No numbers.
    pub(crate) fn new(alloc: Global) -> Marks
        ensures { result ≡ [] }
    {
        Marks {
            stamps: Vec::new(alloc),
            round: 0,
        }
    }

    /// So many numbers, none with a mark.
    pub(crate) fn clear(&mut self, count: u32) -> Result<(), OutOfMemory>
        ensures { OnOk result (self.new ≡ replicate count false) }
    {
        if self.round == u32::MAX {
            self.stamps.clear();
            self.round = 0;
        }
        self.round += 1;
        self.stamps.resize(count as usize, 0)?;
        Ok(())
    }

    pub(crate) fn has(&self, no: TaskNo) -> bool
        requires { no.0 < length self.now }
        ensures { result ≡ slice_index_or self.now no.0 false }
    {
        self.stamps[no.0 as usize] == self.round
    }

    /// The number gets its mark.
    pub(crate) fn set(&mut self, no: TaskNo)
        requires { no.0 < length self.old }
        ensures { self.new ≡ slice_set self.old no.0 true }
    {
        self.stamps[no.0 as usize] = self.round;
    }
}
