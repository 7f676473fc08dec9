//! The names in scope with their values.
ghost use Rattle.std.specs.Prelude.{◌≡◌, [], ◌∷◌, ◌++◌, option_map, IfOk, OnOk};
ghost use Rattle.pie_value.specs.Values.{tree_of};
ghost use Rattle.pie_semantics.specs.Words.{look_up};
ghost use Rattle.pie_semantics_program.specs.Bindings.{env_of};

use pie_base::{OutOfMemory, Text};
use pie_value::Value;
use std::alloc::Global;
use std::marker::Model;

// A name with its value.
#[derive(Drop)]
pub struct Bound {
    pub name: Text,
    pub value: Value,
}

// The names in scope, the newest first. Contracts see their list. One more name makes others, and leaves these as they are.
#[derive(Drop)]
pub struct Names {
    bound: Vec<Bound>,
}

impl Model for Names {
    ghost use Rattle.pie_semantics.specs.Words.{Env};
    ghost use Rattle.pie_semantics_program.specs.Stored.{coded_env};

    ghost Value = { Env };

    ghost coded = { coded_env };

    ghost use Rattle.pie_semantics_program.specs.Bindings.{env_of};

    ghost view = { λ n. env_of n.bound.items };
}

impl Names {
    // No names.
    pub fn new(alloc: Global) -> Names
        ensures { result ≡ [] }
    {
        Names {
            bound: Vec::new(alloc),
        }
    }

    // The same names.
    pub fn copy(&self, alloc: Global) -> Result<Names, OutOfMemory>
        ensures { IfOk result (λ names. names ≡ self.now) }
    {
        let mut bound = Vec::new(alloc);
        copy_onto(&mut bound, self.bound.as_slice())?;
        Ok(Names { bound })
    }

    // These names and a newer one.
    pub fn with(&self, alloc: Global, name: &Text, value: Value) -> Result<Names, OutOfMemory>
        ensures { IfOk result (λ names. names ≡ (name.now, tree_of value) ∷ self.now) }
    {
        let mut bound = Vec::new(alloc);
        let name = name.copy()?;
        bound.push(Bound { name, value })?;
        copy_onto(&mut bound, self.bound.as_slice())?;
        Ok(Names { bound })
    }

    // The value of the newest name that is this one.
    #[tactic(auto, using(crate::proofs::Left::env_left))]
    pub fn get(&self, name: &str) -> Option<&Value>
        ensures { option_map (λ v. tree_of v.now) result ≡ look_up name.now self.now }
    {
        for bound in self.bound.as_slice() {
            if name == bound.name.as_str() {
                return Some(&bound.value);
            }
        }
        None
    }
}

// Copies of some names behind others.
fn copy_onto(bound: &mut Vec<Bound>, more: &[Bound]) -> Result<(), OutOfMemory>
    ensures { OnOk result (env_of bound.new.items ≡ env_of bound.old.items ++ env_of more.now) }
{
    for one in more {
        let name = one.name.copy()?;
        let value = one.value.copy()?;
        bound.push(Bound { name, value })?;
    }
    Ok(())
}
