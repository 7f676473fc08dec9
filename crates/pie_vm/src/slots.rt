//! The slots of a function's names.
ghost use Rattle.std.specs.Prelude.{◌≡◌, ◌<◌, ◌++◌, length, slice_get, slice_set, option_map, IfOk, OnOk, OnErr};
ghost use Rattle.pie_value.specs.Tree.{items_of, list_of};
ghost use Rattle.pie_value.specs.Values.{tree_of, trees_of};
ghost use Rattle.pie_code.specs.Running.{item_found, number_in, units};
ghost use Rattle.pie_vm.specs.Stacks.{items_told};

use pie_base::OutOfMemory;
use pie_value::{Items, Value};
use std::alloc::Global;
use std::marker::Model;

/// Values by number. Contracts see the list of their trees.
#[derive(Drop)]
pub struct Slots {
    values: Vec<Value>,
}

impl Model for Slots {
    ghost use Rattle.std.specs.Prelude.{List};
    ghost use Rattle.pie_value.specs.Tree.{Tree};
    ghost use Rattle.pie_value.specs.inner.Codes.{coded_trees};
    ghost use Rattle.pie_value.specs.Values.{trees_of};

    ghost Value = { List Tree };

    ghost coded = { coded_trees };

    ghost view = { λ s. trees_of s.values.items };
}

impl Slots {
    /// The arguments, and so many slots of unit behind them.
    pub fn new(alloc: Global, args: &Items, others: u16) -> Result<Slots, OutOfMemory>
        ensures { IfOk result (λ s. s ≡ args.now ++ units others) }
    {
        let mut values = copies(alloc, args.as_slice())?;
        add_units(&mut values, others)?;
        Ok(Slots { values })
    }

    /// How many slots there are.
    #[tactic(auto, using(crate::proofs::Flipped::length_map))]
    pub fn len(&self) -> usize
        ensures { result ≡ length self.now }
    {
        self.values.len()
    }

    /// What is in a slot.
    pub fn get(&self, slot: usize) -> Option<&Value>
        ensures { option_map (λ v. tree_of v.now) result ≡ slice_get self.now slot }
    {
        self.values.get(slot)
    }

    /// Puts a value into a slot.
    #[tactic(auto, using(crate::proofs::Flipped::set_map, crate::proofs::Flipped::length_map))]
    pub fn set(&mut self, slot: usize, value: Value)
        requires { slot < length self.old }
        ensures { self.new ≡ slice_set self.old slot (tree_of value) }
    {
        self.values[slot] = value;
    }

    /// The number in a slot, where it is one that counts items.
    pub fn number(&self, slot: usize) -> Option<usize>
        ensures { result ≡ number_in (slice_get self.now slot) }
    {
        match self.get(slot) {
            Some(Value::Int(n)) => usize::try_from(*n).ok(),
            _ => None,
        }
    }

    /// A copy of the item of a list in a slot, or none past its end; nothing where no list is there.
    pub fn item(&self, slot: usize, number: usize) -> Result<Option<Option<Value>>, OutOfMemory>
        ensures { IfOk result (λ o. items_told o ≡ item_found (slice_get self.now slot) number) }
    {
        match self.get(slot) {
            Some(Value::List(items)) => Ok(Some(item_of(items, number)?)),
            _ => Ok(None),
        }
    }
}

// A copy of an item, or none past the end.
#[tactic(auto, using(pie_value::proofs::Elements::list_of_items))]
fn item_of(items: &Items, number: usize) -> Result<Option<Value>, OutOfMemory>
    ensures { IfOk result (λ o. option_map tree_of o ≡ slice_get (list_of (items_of items.now)) number) }
{
    item_among(items.as_slice(), number)
}

// The same of values in a slice.
fn item_among(values: &[Value], number: usize) -> Result<Option<Value>, OutOfMemory>
    ensures { IfOk result (λ o. option_map tree_of o ≡ slice_get (trees_of values.now) number) }
{
    match values.get(number) {
        Some(value) => Ok(Some(value.copy()?)),
        None => Ok(None),
    }
}

// Copies of some values.
fn copies(alloc: Global, values: &[Value]) -> Result<Vec<Value>, OutOfMemory>
    ensures { IfOk result (λ copied. trees_of copied.items ≡ trees_of values.now) }
{
    let mut copied = Vec::new(alloc);
    for value in values {
        copied.push(value.copy()?)?;
    }
    Ok(copied)
}

// Adds so many units.
#[tactic(auto, using(crate::proofs::Turning::unit_more, crate::proofs::Turning::no_unit))]
fn add_units(values: &mut Vec<Value>, count: u16) -> Result<(), OutOfMemory>
    ensures { OnOk result (trees_of values.new.items ≡ trees_of values.old.items ++ units count) }
{
    for _ in 0..count {
        values.push(Value::Unit)?;
    }
    Ok(())
}
