//! The headings of functions: the types of their parameters, and of what they answer.
ghost use Rattle.std.specs.Prelude.{◌≡◌, [], ◌∷◌, ◌++◌, IfOk, OnOk, cond, bytes_eq, option_map};
ghost use Rattle.pie_types.specs.Headings.{function_in, place_from};
ghost use Rattle.std.specs.Prelude.{ℕ, List};
ghost use Rattle.std.specs.BTreeMap.{get_by_text};
ghost use Rattle.pie_types.specs.inner.Shown.{heading_tree};
ghost use Rattle.pie_types.specs.inner.Noted.{kept};

use crate::scope::Scope;
use pie_base::{OutOfMemory, Text};
use pie_value::Ty;
use std::alloc::Global;
use std::collections::BTreeMap;
use std::marker::Model;

// What calls see of a function.
#[derive(Drop)]
pub struct Heading {
    pub name: Text,
    pub params: Scope,
    pub result: Ty,
}

// The headings of functions in text order, found by their names. Contracts see their list.
#[derive(Drop)]
pub struct Headings {
    alloc: Global,
    rows: Vec<Heading>,
    numbers: BTreeMap<String, u32>,
}

impl Model for Headings {
    ghost use Rattle.std.specs.Prelude.{◌≡◌, ℕ, List};
    ghost use Rattle.std.specs.BTreeMap.{get_by_text};
    ghost use Rattle.pie_types.specs.Headings.{Heading, place_from};
    ghost use Rattle.pie_types.specs.inner.Stored.{coded_headings};

    ghost Value = { List Heading };

    ghost coded = { coded_headings };

    ghost use Rattle.pie_types.specs.inner.Shown.{heading_trees};

    ghost view = { λ h. heading_trees h.rows.items };

    ghost invariant = { λ h. (q : List ℕ) → get_by_text h.numbers q ≡ place_from 0 q (heading_trees h.rows.items) };
}

impl Headings {
    // No headings.
    pub fn new(alloc: Global) -> Headings
        ensures { result ≡ [] }
    {
        Headings {
            alloc,
            rows: Vec::new(alloc),
            numbers: BTreeMap::new(alloc),
        }
    }

    pub fn alloc(&self) -> Global {
        self.alloc
    }

    // The number of the function with this name.
    pub fn number(&self, name: &str) -> Option<u32>
        ensures { result ≡ place_from 0 name.now self.now }
    {
        self.numbers.get(name).copied()
    }

    // The heading of the function with this name.
    #[tactic(auto, using(crate::proofs::Found::no_place, crate::proofs::Found::at_row, crate::proofs::Found::past_rows))]
    pub fn get(&self, name: &str) -> Option<&Heading>
        ensures { option_map (λ h. heading_tree h.now) result ≡ function_in name.now self.now }
    {
        let number = self.number(name)? as usize;
        if number < self.rows.len() {
            return Some(&self.rows[number]);
        }
        None
    }

    // These headings, and one more.
    #[tactic(auto, using(crate::proofs::Found::one_more_place))]
    pub fn with(self, heading: Heading) -> Result<Headings, OutOfMemory>
        ensures { IfOk result (λ more. more ≡ self ++ heading_tree heading ∷ []) }
    {
        let Headings {
            alloc,
            mut rows,
            mut numbers,
        } = self;
        let Ok(number) = u32::try_from(rows.len()) else {
            return Err(OutOfMemory);
        };
        note(alloc, &mut numbers, heading.name.as_str(), number)?;
        rows.push(heading)?;
        Ok(Headings {
            alloc,
            rows,
            numbers,
        })
    }
}

// Notes the number of a name, unless it has one.
#[tactic(auto, using(crate::proofs::Found::noted_so, crate::proofs::Found::kept_so))]
fn note(
    alloc: Global,
    numbers: &mut BTreeMap<String, u32>,
    name: &str,
    number: u32,
) -> Result<(), OutOfMemory>
    ensures { OnOk result ((q : List ℕ) → get_by_text numbers.new q ≡ kept (get_by_text numbers.old q) (cond (bytes_eq q name.now) (Some number) None)) }
{
    match numbers.get(name).copied() {
        Some(_) => Ok(()),
        None => {
            let name = String::from_str(alloc, name)?;
            let _old = numbers.insert(name, number)?;
            Ok(())
        }
    }
}
