//! What a machine stands at while it runs code, and what each instruction does to it.
ghost use Rattle.std.specs.Prelude.{◌≡◌, ◌+◌};
ghost use Rattle.pie_value.specs.Values.{tree_of};
ghost use Rattle.pie_code.specs.Running.{goes, misfit, onward, push};
ghost use Rattle.pie_vm.specs.Steps.{Moved, Settles};

use crate::ending::Ending;
use crate::{PathSet, Slots, Stack};
use pie_base::{FaultKind, OutOfMemory};
use pie_operators::OperatorFault;
use pie_value::{Answer, Value};
use std::alloc::Global;
use std::marker::Model;

/// Where running stands: the next instruction, the stack, the slots, and what running gave. Contracts see it as the
/// definition of running does.
#[derive(Drop)]
pub struct Frame {
    pub(crate) alloc: Global,
    pub(crate) at: usize,
    pub(crate) stack: Stack,
    pub(crate) slots: Slots,
    pub(crate) answer: Option<Answer>,
    pub(crate) seen: PathSet,
    pub(crate) wrote: PathSet,
    pub(crate) ticks: u32,
}

impl Model for Frame {
    ghost use Rattle.pie_code.specs.Running.{Config};
    ghost use Rattle.pie_vm.specs.ConfigCodes.{coded_config};
    ghost use Rattle.pie_vm.specs.Steps.{answers_of};

    ghost Value = { Config };

    ghost coded = { coded_config };

    ghost view = { λ c. record {
      at = c.at;
      stack = c.stack;
      slots = c.slots;
      state = record
          { answers = answers_of c.answer; seen = c.seen; wrote = c.wrote; ticks = c.ticks };
    } };
}

impl Frame {
    /// Puts a value on the stack, and goes on behind the instruction.
    pub(crate) fn push(&mut self, value: Value) -> Result<Option<Ending>, OutOfMemory>
        ensures { Moved result self.new (push (tree_of value) self.old) }
    {
        self.stack.push(value)?;
        self.onward()
    }

    /// Goes on behind the instruction.
    pub(crate) fn onward(&mut self) -> Result<Option<Ending>, OutOfMemory>
        ensures { Moved result self.new (onward self.old) }
    {
        match self.at.checked_add(1) {
            Some(at) => self.go_to(at),
            None => Err(OutOfMemory),
        }
    }

    /// Goes on at this place.
    pub(crate) fn go_to(&mut self, at: usize) -> Result<Option<Ending>, OutOfMemory>
        ensures { Moved result self.new (goes (record self.old { at = at })) }
    {
        self.at = at;
        Ok(None)
    }

    /// The fault of operands that don't fit.
    pub(crate) fn misfit(&mut self) -> Result<Option<Ending>, OutOfMemory>
        ensures { Moved result self.new (misfit self.old) }
    {
        Ok(Some(Ending::Fail(FaultKind::Unknown)))
    }

    /// What an operator or a built-in function answered: a value goes on the stack.
    pub(crate) fn settle(
        &mut self,
        answer: Result<Value, OperatorFault>,
    ) -> Result<Option<Ending>, OutOfMemory>
        ensures { Settles answer result self.old self.new }
    {
        match answer {
            Ok(value) => self.push(value),
            Err(OperatorFault::Fault(kind)) => Ok(Some(Ending::Fail(kind))),
            Err(OperatorFault::OutOfMemory) => Err(OutOfMemory),
        }
    }
}
