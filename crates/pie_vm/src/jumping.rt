//! The instructions that go on elsewhere.
ghost use Rattle.std.specs.Prelude.{◌≡◌, ◌+◌, ◌<◌, pos, slice_get, length, IfOk};
ghost use Rattle.pie_value.specs.Values.{tree_of};
ghost use Rattle.pie_code.specs.Running.{branch, each_from, each_turn, item_found, next_item, number_in, pop};
ghost use Rattle.pie_vm.specs.Steps.{Moved};

use crate::Frame;
use crate::ending::Ending;
use pie_base::OutOfMemory;
use pie_code::Each;
use pie_value::Value;

impl Frame {
    /// Takes a truth value, and goes on at the place where it is false.
    pub(crate) fn jump_if_not(&mut self, place: u32) -> Result<Option<Ending>, OutOfMemory>
        ensures { Moved result self.new (pop self.old (branch place)) }
    {
        match self.stack.pop() {
            Some(Value::Bool(true)) => self.onward(),
            Some(Value::Bool(false)) => self.go_to(place as usize),
            Some(_) => self.misfit(),
            None => self.misfit(),
        }
    }

    /// The next turn of a loop over a list, or its end.
    pub(crate) fn each(&mut self, each: Each) -> Result<Option<Ending>, OutOfMemory>
        ensures { Moved result self.new (each_from each (number_in (slice_get self.old.slots each.at)) self.old) }
    {
        match self.slots.number(each.at as usize) {
            Some(number) => self.each_turn(each, number),
            None => self.misfit(),
        }
    }

    // The turn for the item with this number.
    fn each_turn(&mut self, each: Each, number: usize) -> Result<Option<Ending>, OutOfMemory>
        requires { each.at < length self.old.slots }
        ensures { Moved result self.new (each_turn each (item_found (slice_get self.old.slots each.list) number) number self.old) }
    {
        match self.slots.item(each.list as usize, number)? {
            Some(Some(item)) => self.next_item(each, item, number),
            Some(None) => self.go_to(each.end as usize),
            None => self.misfit(),
        }
    }

    // The item goes into its slot, and the number of the next grows.
    fn next_item(
        &mut self,
        each: Each,
        item: Value,
        number: usize,
    ) -> Result<Option<Ending>, OutOfMemory>
        requires { each.at < length self.old.slots }
        ensures { Moved result self.new (next_item each (tree_of item) number self.old) }
    {
        let slot = each.item as usize;
        if slot >= self.slots.len() {
            return self.misfit();
        }
        let next = following(number)?;
        self.slots.set(slot, item);
        self.slots.set(each.at as usize, Value::Int(next));
        self.onward()
    }
}

// The next number.
fn following(number: usize) -> Result<i64, OutOfMemory>
    ensures { IfOk result (λ n. n ≡ pos (number + 1)) }
{
    match number.checked_add(1) {
        Some(next) => i64::try_from(next).map_err(|_| OutOfMemory),
        None => Err(OutOfMemory),
    }
}
