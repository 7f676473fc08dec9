//! The instructions on texts, slots and ticks, and those that end running.
ghost use Rattle.std.specs.Prelude.{◌≡◌, slice_get};
ghost use Rattle.pie_value.specs.Tree.{TText};
ghost use Rattle.pie_value.specs.Values.{tree_of};
ghost use Rattle.pie_value.specs.BuiltinForms.{made};
ghost use Rattle.pie_operators.specs.inner.Agreement.{ResultAgrees};
ghost use Rattle.pie_operators.specs.Domain.{by_answer};
ghost use Rattle.pie_operators.specs.Effects.{fail};
ghost use Rattle.pie_code.specs.Running.{act_on, finish, pop, push_found, push_text, store, tick};
ghost use Rattle.pie_vm.specs.Steps.{Moved};

use crate::Frame;
use crate::ending::Ending;
use pie_base::{FaultKind, MAX_TICKS, OutOfMemory, Text};
use pie_operators::OperatorFault;
use pie_value::Value;

impl Frame {
    /// Counts one tick.
    pub(crate) fn tick(&mut self) -> Result<Option<Ending>, OutOfMemory>
        ensures { Moved result self.new (tick self.old) }
    {
        if self.ticks < MAX_TICKS {
            self.ticks += 1;
            self.onward()
        } else {
            Ok(Some(Ending::Fail(FaultKind::Budget)))
        }
    }

    /// Puts a text of the table on the stack.
    pub(crate) fn push_text(
        &mut self,
        texts: &[Text],
        number: u32,
    ) -> Result<Option<Ending>, OutOfMemory>
        ensures { Moved result self.new (push_text (slice_get texts.now number) self.old) }
    {
        match texts.get(number as usize) {
            Some(text) => self.new_text(text),
            None => self.misfit(),
        }
    }

    // A text as a new value, which has to keep the limits.
    #[tactic(auto, using(crate::proofs::Settling::settled))]
    fn new_text(&mut self, text: &Text) -> Result<Option<Ending>, OutOfMemory>
        ensures { Moved result self.new (act_on (by_answer (made (TText text.now))) self.old) }
    {
        let value = Value::Text(text.copy()?);
        self.settle(made(value))
    }

    /// Puts a copy of what is in a slot on the stack.
    pub(crate) fn load(&mut self, slot: u16) -> Result<Option<Ending>, OutOfMemory>
        ensures { Moved result self.new (push_found (slice_get self.old.slots slot) self.old) }
    {
        match self.slots.get(slot as usize) {
            Some(value) => {
                let value = value.copy()?;
                self.push(value)
            }
            None => self.misfit(),
        }
    }

    /// Takes a value from the stack into a slot.
    pub(crate) fn store(&mut self, slot: u16) -> Result<Option<Ending>, OutOfMemory>
        ensures { Moved result self.new (pop self.old (store slot)) }
    {
        match self.stack.pop() {
            Some(value) => self.put(slot, value),
            None => self.misfit(),
        }
    }

    // Puts a value into a slot, and goes on.
    fn put(&mut self, slot: u16, value: Value) -> Result<Option<Ending>, OutOfMemory>
        ensures { Moved result self.new (store slot (tree_of value) self.old) }
    {
        let slot = slot as usize;
        if slot < self.slots.len() {
            self.slots.set(slot, value);
            self.onward()
        } else {
            self.misfit()
        }
    }

    /// Ends with the text that is said.
    pub(crate) fn fail(&mut self) -> Result<Option<Ending>, OutOfMemory>
        ensures { Moved result self.new (pop self.old (λ a d. act_on (fail a) d)) }
    {
        match self.stack.pop() {
            Some(Value::Text(text)) => Ok(Some(Ending::Fail(FaultKind::Said(text)))),
            Some(_) => self.misfit(),
            None => self.misfit(),
        }
    }

    /// Ends with an output.
    pub(crate) fn finish(&mut self) -> Result<Option<Ending>, OutOfMemory>
        ensures { Moved result self.new (pop self.old finish) }
    {
        match self.stack.pop() {
            Some(value) => Ok(Some(Ending::Done(value))),
            None => self.misfit(),
        }
    }
}

// A new value, or the fault Big where it passes the limits.
fn made(value: Value) -> Result<Value, OperatorFault>
    ensures { ResultAgrees result (made (tree_of value)) }
{
    if value.is_small() {
        Ok(value)
    } else {
        Err(OperatorFault::Fault(FaultKind::Big))
    }
}
