//! What an argument of a built-in function has to be.
ghost use Rattle.std.specs.Prelude.{◌≡◌, IfOk};
ghost use Rattle.pie_value.specs.TypeTrees.{ty_tree};
ghost use Rattle.pie_signature.specs.Wanted.{fits, named};

use crate::kinds::{
    holds_lists, holds_ordered, holds_texts, is_bytes, is_int, is_list, is_measurable, is_nullable,
    is_path, is_printable, is_text,
};
use crate::parts::{list_of, nullable, present};
use pie_base::OutOfMemory;
use pie_value::Ty;
use std::alloc::Global;

/// What an argument has to be. Rule: docs/LANGUAGE.md, "Built-in functions".
#[derive(Clone, Copy, Debug, PartialEq, Eq)]
pub enum Wanted {
    /// A text.
    Text,
    /// An integer.
    Int,
    /// A path.
    Path,
    /// Bytes.
    Bytes,
    /// A list of texts.
    Texts,
    /// An integer, a truth value or a path.
    Printable,
    /// A text, bytes or a list.
    Measurable,
    /// A list of integers, texts or paths.
    Sortable,
    /// A list.
    List,
    /// A list of lists.
    Lists,
    /// What can't be null.
    Present,
    /// What can be null.
    Nullable,
}

impl Wanted {
    /// Whether a type is wanted here.
    pub fn fits(self, found: &Ty) -> bool
        ensures { result ≡ fits self (ty_tree found.now) }
    {
        match self {
            Wanted::Text => is_text(found),
            Wanted::Int => is_int(found),
            Wanted::Path => is_path(found),
            Wanted::Bytes => is_bytes(found),
            Wanted::Texts => holds_texts(found),
            Wanted::Printable => is_printable(found),
            Wanted::Measurable => is_measurable(found),
            Wanted::Sortable => holds_ordered(found),
            Wanted::List => is_list(found),
            Wanted::Lists => holds_lists(found),
            Wanted::Present => !is_nullable(found),
            Wanted::Nullable => is_nullable(found),
        }
    }

    /// The one type that a refusal names as wanted, where another is found.
    pub fn named(self, alloc: Global, found: &Ty) -> Result<Ty, OutOfMemory>
        ensures { IfOk result (λ ty. ty_tree ty ≡ named self (ty_tree found.now)) }
    {
        match self {
            Wanted::Text | Wanted::Measurable => Ok(Ty::Text),
            Wanted::Int | Wanted::Printable => Ok(Ty::Int),
            Wanted::Path => Ok(Ty::Path),
            Wanted::Bytes => Ok(Ty::Bytes),
            Wanted::Texts => list_of(alloc, Ty::Text),
            Wanted::Sortable => list_of(alloc, Ty::Int),
            Wanted::List | Wanted::Lists => list_of(alloc, found.copy()?),
            Wanted::Present => present(found),
            Wanted::Nullable => nullable(alloc, found.copy()?),
        }
    }
}
