//! Equality of types, and which values have a type.
ghost use Rattle.std.specs.Prelude.{◌≡◌, ◌↔◌, IsTrue};
ghost use Rattle.pie_value.specs.Tree.{items_of};
ghost use Rattle.pie_value.specs.Values.{tree_of, trees_of};
ghost use Rattle.pie_value.specs.Types.{parts_of};
ghost use Rattle.pie_value.specs.TypeTrees.{ty_tree, ty_trees};
ghost use Rattle.pie_value.specs.HasType.{all_items, has_type, have_types};

use crate::{Part, Ty, Value};

impl Ty {
    /// Whether the types are equal.
    #[cycle(same_types)]
    pub fn same(&self, other: &Ty) -> bool
        ensures { IsTrue result ↔ (self.now ≡ other.now) }
    {
        match (self, other) {
            (Ty::Unit, Ty::Unit) => true,
            (Ty::Bool, Ty::Bool) => true,
            (Ty::Int, Ty::Int) => true,
            (Ty::Text, Ty::Text) => true,
            (Ty::Path, Ty::Path) => true,
            (Ty::List(a), Ty::List(b)) => a.get().same(b.get()),
            (Ty::Tuple(a), Ty::Tuple(b)) => same_each(a.as_slice(), b.as_slice()),
            (Ty::Nullable(a), Ty::Nullable(b)) => a.get().same(b.get()),
            (Ty::Bytes, Ty::Bytes) => true,
            _ => false,
        }
    }
}

#[cycle(same_types)]
fn same_each(a: &[Ty], b: &[Ty]) -> bool
    ensures { IsTrue result ↔ (a.now ≡ b.now) }
{
    if a.len() != b.len() {
        return false;
    }
    for i in 0..a.len() {
        if !a[i].same(&b[i]) {
            return false;
        }
    }
    true
}

impl Value {
    /// Whether the value has the type. Null has each type that can be null, and another value has such a type
    /// where it has the type itself.
    #[cycle(typing)]
    pub fn has_type(&self, ty: &Ty) -> bool
        ensures { result ≡ has_type (ty_tree ty.now) (tree_of self.now) }
    {
        match (ty, self) {
            (Ty::Unit, Value::Unit) => true,
            (Ty::Bool, Value::Bool(_)) => true,
            (Ty::Int, Value::Int(_)) => true,
            (Ty::Text, Value::Text(_)) => true,
            (Ty::Path, Value::Path(_)) => true,
            (Ty::List(part), Value::List(items)) => all_have_type(items.as_slice(), part),
            (Ty::Tuple(parts), Value::Tuple(items)) => have_types(
                items.as_slice(),
                parts.as_slice(),
            ),
            (Ty::Nullable(_), Value::Null) => true,
            (Ty::Nullable(part), _) => self.has_type(part.get()),
            (Ty::Bytes, Value::Bytes(_)) => true,
            _ => false,
        }
    }
}

#[cycle(typing)]
#[tactic(auto, using(crate::proofs::Elements::trees_left))]
fn all_have_type(values: &[Value], part: &Part) -> bool
    ensures { result ≡ all_items (has_type part.now) (items_of (trees_of values.now)) }
{
    let ty = part.get();
    for value in values {
        if !value.has_type(ty) {
            return false;
        }
    }
    true
}

// Whether there are as many values as types, each of its type.
#[cycle(typing)]
#[tactic(auto, using(crate::proofs::TypeElements::types_step, crate::proofs::TypeElements::other_lengths))]
fn have_types(values: &[Value], types: &[Ty]) -> bool
    ensures { result ≡ have_types (parts_of (ty_trees types.now)) (items_of (trees_of values.now)) }
{
    if types.len() != values.len() {
        return false;
    }
    for i in 0..types.len() {
        if !values[i].has_type(&types[i]) {
            return false;
        }
    }
    true
}
