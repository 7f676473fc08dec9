//! What a call by name calls.
ghost use Rattle.std.specs.Prelude.{◌≡◌, IfOk, option_map, slice_get};
ghost use Rattle.pie_value.specs.TypeTrees.{ty_tree, ty_trees};
ghost use Rattle.pie_types.specs.Faults.{TypingAgrees};
ghost use Rattle.pie_signature.specs.Signatures.{answer_type_of};
ghost use Rattle.pie_types.specs.Headings.{function_in};
ghost use Rattle.pie_types.specs.inner.Shown.{entries_of, heading_tree};
ghost use Rattle.pie_types.specs.Calls as calls;
ghost use Rattle.pie_types.specs.inner.Callees.{callee_tree};

use crate::headings::{Heading, Headings};
use crate::matching::{refusal, same_type};
use crate::scope::Bound;
use crate::{TypeError, TypeKind};
use pie_base::OutOfMemory;
use pie_parser::{CallKind, Name};
use pie_signature::{answer_type, arity, builtin_named, misfit};
use pie_value::{Builtin, Part, Ty};
use std::alloc::Global;

// What a call by name calls.
#[derive(Clone, Copy)]
pub enum Callee<'a> {
    // `read_bytes`
    ReadBytes,
    // A built-in function.
    OfBuiltin(Builtin),
    // A function of the pipeline.
    OfFunction(&'a Heading),
}

// What a call calls.
pub fn callee_of<'a>(
    headings: &'a Headings,
    kind: CallKind,
    name: &Name,
) -> Result<Callee<'a>, TypeError>
    ensures { TypingAgrees callee_tree result (calls.known name.now (calls.callee_of headings.now kind name.now.text)) }
{
    match found(headings, kind, name.text.as_str()) {
        Some(callee) => Ok(callee),
        None => Err(refusal(TypeKind::UnknownFunction, name.at, name.end)),
    }
}

// What a name calls in a call of this kind.
fn found<'a>(headings: &'a Headings, kind: CallKind, name: &str) -> Option<Callee<'a>>
    ensures { option_map callee_tree result ≡ calls.callee_of headings.now kind name.now }
{
    match kind {
        CallKind::Plain => plain_callee(name),
        _ => function_callee(headings, name),
    }
}

// What a name calls by itself.
fn plain_callee<'a>(name: &str) -> Option<Callee<'a>>
    ensures { option_map callee_tree result ≡ calls.plain_callee name.now }
{
    if name == "read_bytes" {
        return Some(Callee::ReadBytes);
    }
    let which = builtin_named(name)?;
    Some(Callee::OfBuiltin(which))
}

// What a name calls behind `require` or `run`.
fn function_callee<'a>(headings: &'a Headings, name: &str) -> Option<Callee<'a>>
    ensures { option_map callee_tree result ≡ option_map calls.OfFunction (function_in name.now headings.now) }
{
    let heading = headings.get(name)?;
    Some(Callee::OfFunction(heading))
}

impl<'a> Callee<'a> {
    // How many arguments it takes.
    pub fn taken(&self) -> usize
        ensures { result ≡ calls.taken (callee_tree self.now) }
    {
        match self {
            Callee::ReadBytes => 1,
            Callee::OfBuiltin(which) => arity(*which),
            Callee::OfFunction(heading) => heading.params.len(),
        }
    }

    // The type that is expected of an argument, counted from 0, where it doesn't fit.
    pub fn misfit(&self, alloc: Global, at: usize, ty: &Ty) -> Result<Option<Ty>, OutOfMemory>
        ensures { IfOk result (λ o. option_map ty_tree o ≡ calls.misfit (callee_tree self.now) at (ty_tree ty.now)) }
    {
        match self {
            Callee::ReadBytes => other_than(&Ty::Path, ty),
            Callee::OfBuiltin(which) => misfit(alloc, *which, at, ty),
            Callee::OfFunction(heading) => other_than_param(heading.params.as_slice(), at, ty),
        }
    }

    // The type of the answer, from the types of the arguments.
    pub fn answer(&self, alloc: Global, kind: CallKind, types: &[Ty]) -> Result<Ty, OutOfMemory>
        ensures { IfOk result (λ t. ty_tree t ≡ calls.answer kind (callee_tree self.now) (ty_trees types.now)) }
    {
        match self {
            Callee::ReadBytes => Ok(Ty::Nullable(Part::new(alloc, Ty::Bytes)?)),
            Callee::OfBuiltin(which) => builtin_answer(alloc, *which, types),
            Callee::OfFunction(heading) => function_answer(kind, heading),
        }
    }
}

// The first type, where the second is another.
fn other_than(wanted: &Ty, ty: &Ty) -> Result<Option<Ty>, OutOfMemory>
    ensures { IfOk result (λ o. option_map ty_tree o ≡ calls.other_than (ty_tree wanted.now) (ty_tree ty.now)) }
{
    if same_type(wanted, ty) {
        return Ok(None);
    }
    let wanted = wanted.copy()?;
    Ok(Some(wanted))
}

// The type of a parameter, where an argument has another.
fn other_than_param(params: &[Bound], at: usize, ty: &Ty) -> Result<Option<Ty>, OutOfMemory>
    ensures { IfOk result (λ o. option_map ty_tree o ≡ calls.other_than_param (slice_get (entries_of params.now) at) (ty_tree ty.now)) }
{
    match params.get(at) {
        Some(param) => other_than(&param.ty, ty),
        None => Ok(None),
    }
}

// The type that a built-in function answers.
fn builtin_answer(alloc: Global, which: Builtin, types: &[Ty]) -> Result<Ty, OutOfMemory>
    ensures { IfOk result (λ t. ty_tree t ≡ answer_type_of which (calls.first (ty_trees types.now))) }
{
    match types {
        [first, ..] => answer_type(alloc, which, first),
        [] => answer_type(alloc, which, &Ty::Unit),
    }
}

// The type that a call of a function answers.
fn function_answer(kind: CallKind, heading: &Heading) -> Result<Ty, OutOfMemory>
    ensures { IfOk result (λ t. ty_tree t ≡ calls.function_answer kind (heading_tree heading.now)) }
{
    match kind {
        CallKind::Run => Ok(Ty::Unit),
        _ => heading.result.copy(),
    }
}
