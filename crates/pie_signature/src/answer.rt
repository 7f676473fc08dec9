//! The types of what built-in functions answer.
ghost use Rattle.std.specs.Prelude.{◌≡◌, IfOk};
ghost use Rattle.pie_value.specs.TypeTrees.{ty_tree};
ghost use Rattle.pie_signature.specs.Answered.{answer_of, answered};
ghost use Rattle.pie_signature.specs.Signatures.{answer_type_of};

use crate::parts::{item, list_of, nullable, present};
use pie_base::OutOfMemory;
use pie_value::{Builtin, Ty};
use std::alloc::Global;

/// How the type of an answer follows.
#[derive(Clone, Copy, Debug, PartialEq, Eq)]
pub enum Answered {
    Text,
    Int,
    Bool,
    Path,
    Bytes,
    /// A list of texts.
    Texts,
    /// A list of integers.
    Ints,
    /// A text or null.
    TextOrNull,
    /// An integer or null.
    IntOrNull,
    /// A path or null.
    PathOrNull,
    /// The type of the first argument.
    First,
    /// The type of the first argument's items.
    Item,
    /// The type of the first argument, or null.
    FirstOrNull,
    /// The type of the first argument without null.
    Present,
}

/// The type of the answer, from the type of the first argument.
pub fn answer_type(alloc: Global, which: Builtin, first: &Ty) -> Result<Ty, OutOfMemory>
    ensures { IfOk result (λ ty. ty_tree ty ≡ answer_type_of which (ty_tree first.now)) }
{
    kind_of(which).ty(alloc, first)
}

// How the type of the answer follows.
fn kind_of(which: Builtin) -> Answered
    ensures { result ≡ answer_of which }
{
    match which {
        Builtin::Path | Builtin::Join => Answered::Path,
        Builtin::Parent => Answered::PathOrNull,
        Builtin::ParseInt | Builtin::Find => Answered::IntOrNull,
        Builtin::FromBytes => Answered::TextOrNull,
        Builtin::Len => Answered::Int,
        Builtin::Contains | Builtin::Starts | Builtin::Ends | Builtin::IsNull => Answered::Bool,
        Builtin::Split | Builtin::Lines => Answered::Texts,
        Builtin::Range => Answered::Ints,
        Builtin::At | Builtin::Flatten => Answered::Item,
        Builtin::Reverse | Builtin::Sort => Answered::First,
        Builtin::Some => Answered::FirstOrNull,
        Builtin::Get => Answered::Present,
        Builtin::ToBytes | Builtin::SliceBytes => Answered::Bytes,
        Builtin::Name | Builtin::ToText | Builtin::Trim | Builtin::Replace => Answered::Text,
        Builtin::JoinText | Builtin::Slice | Builtin::Sha256 => Answered::Text,
    }
}

impl Answered {
    // The type itself.
    fn ty(self, alloc: Global, first: &Ty) -> Result<Ty, OutOfMemory>
        ensures { IfOk result (λ ty. ty_tree ty ≡ answered self (ty_tree first.now)) }
    {
        match self {
            Answered::Text => Ok(Ty::Text),
            Answered::Int => Ok(Ty::Int),
            Answered::Bool => Ok(Ty::Bool),
            Answered::Path => Ok(Ty::Path),
            Answered::Bytes => Ok(Ty::Bytes),
            Answered::Texts => list_of(alloc, Ty::Text),
            Answered::Ints => list_of(alloc, Ty::Int),
            Answered::TextOrNull => nullable(alloc, Ty::Text),
            Answered::IntOrNull => nullable(alloc, Ty::Int),
            Answered::PathOrNull => nullable(alloc, Ty::Path),
            Answered::First => first.copy(),
            Answered::Item => item(first),
            Answered::FirstOrNull => nullable(alloc, first.copy()?),
            Answered::Present => present(first),
        }
    }
}
