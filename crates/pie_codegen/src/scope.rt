//! The names in scope, each with its slot.
ghost use Rattle.std.specs.Prelude.{◌≡◌, [], ◌∷◌, length, OnOk};
ghost use Rattle.pie_codegen.specs.Compiled as spec;
ghost use Rattle.pie_codegen.specs.Scopes.{oldest, as_scope};

use pie_base::{OutOfMemory, Text};
use std::alloc::Global;
use std::marker::Model;

/// What stands for the slot of a name that isn't in scope. No function has so many slots.
pub const NO_SLOT: u16 = 65_535;

// A name with its slot.
#[derive(Drop)]
pub struct Bound {
    pub name: Text,
    pub slot: u16,
}

// The names in scope in the order in which they came. Contracts see them with their slots, the newest first.
#[derive(Drop)]
pub struct Scope {
    bound: Vec<Bound>,
}

impl Model for Scope {
    ghost use Rattle.std.specs.Prelude.{ℕ, List};
    ghost use Rattle.pie_codegen.specs.Scopes.{coded_scope, as_scope};

    ghost Value = { List (List ℕ × ℕ) };

    ghost coded = { coded_scope };

    ghost view = { λ s. as_scope s.bound.items };
}

impl Scope {
    // No names.
    pub fn new(alloc: Global) -> Scope
        ensures { result ≡ [] }
    {
        Scope {
            bound: Vec::new(alloc),
        }
    }

    #[tactic(auto, using(crate::proofs::Scoped::scope_length))]
    pub fn len(&self) -> usize
        ensures { result ≡ length self.now }
    {
        self.bound.len()
    }

    // One more name.
    #[tactic(auto, using(crate::proofs::Scoped::scope_end))]
    pub fn push(&mut self, name: Text, slot: u16) -> Result<(), OutOfMemory>
        ensures { OnOk result (self.new ≡ (name, slot) ∷ self.old) }
    {
        self.bound.push(Bound { name, slot })?;
        Ok(())
    }

    // Leaves the names that came first, so many.
    #[tactic(auto, using(crate::proofs::Scoped::scope_take))]
    pub fn truncate(&mut self, len: usize)
        ensures { self.new ≡ oldest len self.old }
    {
        self.bound.truncate(len);
    }

    // The slot of the newest name that is this one, or `NO_SLOT`.
    pub fn slot(&self, name: &str) -> u16
        ensures { result ≡ spec.slot_of name.now self.now }
    {
        newest(self.bound.as_slice(), name)
    }
}

// The slot of the last name that is this one, or `NO_SLOT`.
#[tactic(auto, using(crate::proofs::Scoped::from_the_end))]
fn newest(bound: &[Bound], name: &str) -> u16
    ensures { result ≡ spec.slot_of name.now (as_scope bound.now) }
{
    let mut left = bound.len();
    while left > 0 {
        left -= 1;
        let one = &bound[left];
        if name == one.name.as_str() {
            return one.slot;
        }
    }
    NO_SLOT
}
