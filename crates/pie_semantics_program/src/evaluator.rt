//! What an evaluation keeps, and what operators and built-in functions make of it.
ghost use Rattle.std.specs.Prelude.{◌≡◌};
ghost use Rattle.pie_value.specs.Values.{tree_of};
ghost use Rattle.pie_operators.specs.Domain.{at_start};
ghost use Rattle.pie_semantics_program.specs.Coming.{Ticks};

use crate::stop::Stop;
use pie_base::{FaultKind, MAX_TICKS};
use pie_value::Answer;
use pie_vm::PathSet;
use std::alloc::Global;
use std::collections::VecDeque;
use std::marker::Model;

/// What an evaluation gave: the answers that are left, the paths observed and written, and the ticks.
/// Contracts see it as the meaning does.
#[derive(Drop)]
pub struct Evaluator {
    pub(crate) alloc: Global,
    pub(crate) answers: VecDeque<Answer>,
    pub(crate) seen: PathSet,
    pub(crate) wrote: PathSet,
    pub(crate) ticks: u32,
}

impl Model for Evaluator {
    ghost use Rattle.pie_operators.specs.Domain.{State};
    ghost use Rattle.pie_vm.specs.ConfigCodes.{coded_state};

    ghost Value = { State };

    ghost coded = { coded_state };

    ghost view = { λ e. record { answers = e.answers.items; seen = e.seen; wrote = e.wrote; ticks = e.ticks } };
}

impl Evaluator {
    // At the start of a function, with these answers.
    pub(crate) fn new(alloc: Global, answers: Vec<Answer>) -> Evaluator
        ensures { result ≡ at_start answers.items }
    {
        Evaluator {
            alloc,
            answers: VecDeque::from_vec(answers),
            seen: PathSet::new(alloc),
            wrote: PathSet::new(alloc),
            ticks: 0,
        }
    }

    /// How many ticks were counted.
    pub fn ticks(&self) -> u32
        ensures { result ≡ self.now.ticks }
    {
        self.ticks
    }

    // One tick.
    pub(crate) fn tick(&mut self) -> Result<(), Stop>
        ensures { Ticks result self.old self.new }
    {
        if self.ticks >= MAX_TICKS {
            return Err(Stop::Fault(FaultKind::Budget));
        }
        self.ticks += 1;
        Ok(())
    }
}
