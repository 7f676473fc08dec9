//! The names in scope, each with its type.
ghost use Rattle.std.specs.Prelude.{◌≡◌, [], OnOk, length, take, option_map};
ghost use Rattle.pie_value.specs.TypeTrees.{ty_tree};
ghost use Rattle.pie_types.specs.Faults.{TypingAgrees};
ghost use Rattle.pie_types.specs.Scope.{entered, may_enter, type_in, with_name};
ghost use Rattle.pie_types.specs.inner.Shown.{entries_of};

use crate::matching::refusal;
use crate::room::{MAX_TYPE_PARTS, room_after};
use crate::{TypeError, TypeKind};
use pie_base::{MAX_NAMES, OutOfMemory, Text};
use pie_parser::Name;
use pie_value::Ty;
use std::alloc::Global;
use std::marker::Model;

// A name with its type.
#[derive(Drop)]
pub struct Bound {
    pub name: Text,
    pub ty: Ty,
}

// The names in scope in the order in which they came. Contracts see their list.
#[derive(Drop)]
pub struct Scope {
    bound: Vec<Bound>,
}

impl Model for Scope {
    ghost use Rattle.std.specs.Prelude.{List};
    ghost use Rattle.pie_types.specs.Scope.{Entry};
    ghost use Rattle.pie_types.specs.inner.Stored.{coded_scope};

    ghost Value = { List Entry };

    ghost coded = { coded_scope };

    ghost use Rattle.pie_types.specs.inner.Shown.{entries_of};

    ghost view = { λ s. entries_of s.bound.items };
}

impl Scope {
    // No names.
    pub fn new(alloc: Global) -> Scope
        ensures { result ≡ [] }
    {
        Scope {
            bound: Vec::new(alloc),
        }
    }

    pub fn len(&self) -> usize
        ensures { result ≡ length self.now }
    {
        self.bound.len()
    }

    // The names one after another.
    pub fn as_slice(&self) -> &[Bound]
        ensures { entries_of result.now ≡ self.now }
    {
        self.bound.as_slice()
    }

    // The type of a name.
    #[tactic(auto, using(crate::proofs::Left::entries_left))]
    pub fn get(&self, name: &str) -> Option<&Ty>
        ensures { option_map (λ t. ty_tree t.now) result ≡ type_in name.now self.now }
    {
        for bound in self.bound.as_slice() {
            if bound.name.as_str() == name {
                return Some(&bound.ty);
            }
        }
        None
    }

    // Whether a name may come into scope.
    pub fn may_enter(&self, name: &Name) -> Result<(), TypeError>
        ensures { TypingAgrees (λ _. self.now) result (may_enter name.now self.now) }
    {
        if self.get(name.text.as_str()).is_some() {
            return Err(refusal(TypeKind::Duplicate, name.at, name.end));
        }
        if self.len() >= MAX_NAMES {
            return Err(refusal(TypeKind::TooManyNames, name.at, name.end));
        }
        Ok(())
    }

    // One more name. A type of more than `MAX_TYPE_PARTS` parts finds no memory.
    pub fn push(&mut self, name: Text, ty: Ty) -> Result<(), OutOfMemory>
        ensures { OnOk result (self.new ≡ with_name self.old name (ty_tree ty)) }
    {
        if room_after(&ty, MAX_TYPE_PARTS).is_none() {
            return Err(OutOfMemory);
        }
        self.bound.push(Bound { name, ty })?;
        Ok(())
    }

    // A name comes into scope, if it may.
    pub fn enter(&mut self, name: &Name, ty: Ty) -> Result<(), TypeError>
        ensures { TypingAgrees (λ _. self.new) result (entered name.now (ty_tree ty) self.old) }
    {
        self.may_enter(name)?;
        let text = name.text.copy()?;
        self.push(text, ty)?;
        Ok(())
    }

    // Leaves the first names alone, so many.
    #[tactic(auto, using(crate::proofs::Left::entries_take))]
    pub fn truncate(&mut self, len: usize)
        ensures { self.new ≡ take len self.old }
    {
        self.bound.truncate(len);
    }
}
