//! The stack of values.
ghost use Rattle.std.specs.Prelude.{◌≡◌, [], ◌∷◌, length, List, Option, None, Some, IfOk, OnOk, OnErr, MatchOption, take, drop, reverse, ◌≤◌};
ghost use Rattle.pie_value.specs.Tree.{Tree};
ghost use Rattle.pie_value.specs.Values.{tree_of, trees_of};
ghost use Rattle.pie_vm.specs.Stacks.{flipped};
ghost use Rattle.pie_vm.specs.Steps.{IsShort};

use pie_base::OutOfMemory;
use pie_value::{Items, Value};
use std::alloc::Global;
use std::marker::Model;

/// The values that instructions work on. Contracts see their trees, the top first.
#[derive(Drop)]
pub struct Stack {
    values: Vec<Value>,
}

impl Model for Stack {
    ghost use Rattle.std.specs.Prelude.{List};
    ghost use Rattle.pie_value.specs.Tree.{Tree};
    ghost use Rattle.pie_value.specs.inner.Codes.{coded_trees};
    ghost use Rattle.pie_vm.specs.Stacks.{flipped};

    ghost Value = { List Tree };

    ghost coded = { coded_trees };

    ghost view = { λ s. flipped s.values.items };
}

impl Stack {
    /// No values.
    pub fn new(alloc: Global) -> Stack
        ensures { result ≡ [] }
    {
        Stack {
            values: Vec::new(alloc),
        }
    }

    /// Puts a value on top.
    #[tactic(auto, using(crate::proofs::Flipped::flipped_end))]
    pub fn push(&mut self, value: Value) -> Result<(), OutOfMemory>
        ensures pushed { OnOk result (self.new ≡ tree_of value ∷ self.old) }
        ensures unchanged { OnErr result (self.new ≡ self.old) }
    {
        self.values.push(value)?;
        Ok(())
    }

    /// Takes the top.
    #[tactic(auto, using(crate::proofs::Flipped::flipped_end))]
    pub fn pop(&mut self) -> Option<Value>
        ensures { MatchOption result ((self.old ≡ []) × (self.new ≡ [])) (λ v. self.old ≡ tree_of v ∷ self.new) }
    {
        self.values.pop()
    }

    /// The top.
    #[tactic(auto, using(crate::proofs::Flipped::flipped_end))]
    pub fn top(&self) -> Option<&Value>
        ensures { MatchOption result (self.now ≡ []) (λ v. (ts : List Tree) × (self.now ≡ tree_of v.now ∷ ts)) }
    {
        self.values.last()
    }

    /// The value under the top, and the top.
    pub fn top_two(&self) -> Option<(&Value, &Value)>
        ensures { MatchOption result (IsShort self.now) (λ p. (ts : List Tree) × (self.now ≡ tree_of p.1.now ∷ tree_of p.0.now ∷ ts)) }
    {
        last_two(self.values.as_slice())
    }

    /// How many values there are.
    pub fn len(&self) -> usize
        ensures { result ≡ length self.now }
    {
        self.values.len()
    }

    /// Copies of so many values from the top, the top last.
    #[tactic(auto, using(crate::proofs::Flipped::top_values))]
    pub fn top_copies(&self, alloc: Global, count: usize) -> Result<Items, OutOfMemory>
        requires { count ≤ length self.now }
        ensures { IfOk result (λ items. items ≡ reverse (take count self.now)) }
    {
        let (_, top) = self.values.split_at(self.values.len() - count);
        copies(alloc, top)
    }

    /// Takes so many values from the top, and drops them.
    #[tactic(auto, using(crate::proofs::Flipped::left_values))]
    pub fn drop_top(&mut self, count: usize)
        requires { count ≤ length self.old }
        ensures { self.new ≡ drop count self.old }
    {
        let left = self.values.len() - count;
        self.values.truncate(left);
    }
}

// The last two values.
#[tactic(auto, using(crate::proofs::Flipped::two_at_end, crate::proofs::Flipped::is_short))]
fn last_two(values: &[Value]) -> Option<(&Value, &Value)>
    ensures { MatchOption result (IsShort (flipped values.now)) (λ p. (ts : List Tree) × (flipped values.now ≡ tree_of p.1.now ∷ tree_of p.0.now ∷ ts)) }
{
    match values {
        [.., under, top] => Some((under, top)),
        _ => None,
    }
}

// Copies of some values.
fn copies(alloc: Global, values: &[Value]) -> Result<Items, OutOfMemory>
    ensures { IfOk result (λ items. items ≡ trees_of values.now) }
{
    let mut items = Items::new();
    for value in values {
        items.push(alloc, value.copy()?)?;
    }
    Ok(items)
}
