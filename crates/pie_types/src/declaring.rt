//! The headings of functions, as a pipeline declares them.
ghost use Rattle.std.specs.Prelude.{◌≡◌, [], Ok};
ghost use Rattle.pie_types.specs.Faults.{TypingAgrees};
ghost use Rattle.pie_types.specs.inner.Shown.{heading_tree};
ghost use Rattle.pie_types.specs.Headings as spec;

use crate::headings::{Heading, Headings};
use crate::matching::refusal;
use crate::scope::Scope;
use crate::written::written;
use crate::{TypeError, TypeKind};
use pie_parser::{Function, Name, Param};
use pie_signature::builtin_named;
use std::alloc::Global;

// The headings of functions.
#[tactic(auto, using(crate::proofs::Steps::headings_turn))]
pub fn headings_of(alloc: Global, functions: &[Function]) -> Result<Headings, TypeError>
    ensures { TypingAgrees (λ h. h) result (spec.headings_from [] functions.now) }
{
    let mut headings = Headings::new(alloc);
    for function in functions {
        let heading = heading_of(alloc, &headings, function)?;
        headings = headings.with(heading)?;
    }
    Ok(headings)
}

// The heading of a function behind others.
fn heading_of(alloc: Global, headings: &Headings, function: &Function) -> Result<Heading, TypeError>
    ensures { TypingAgrees heading_tree result (spec.heading_of headings.now function.now) }
{
    may_be_named(&function.name, headings)?;
    signature_of(alloc, function)
}

// Whether a function may have a name behind others.
fn may_be_named(name: &Name, headings: &Headings) -> Result<(), TypeError>
    ensures { TypingAgrees (λ _. headings.now) result (spec.may_be_named name.now headings.now) }
{
    let text = name.text.as_str();
    if is_builtin(text) || headings.get(text).is_some() {
        return Err(refusal(TypeKind::Duplicate, name.at, name.end));
    }
    Ok(())
}

// Whether a name is that of a built-in function, `read_bytes` among them.
fn is_builtin(name: &str) -> bool
    ensures { result ≡ spec.is_builtin name.now }
{
    name == "read_bytes" || builtin_named(name).is_some()
}

// The heading of a function by itself.
pub fn signature_of(alloc: Global, function: &Function) -> Result<Heading, TypeError>
    ensures { TypingAgrees heading_tree result (spec.signature_of function.now) }
{
    let name = function.name.text.copy()?;
    let params = params_of(alloc, function.params.as_slice())?;
    let result = written(alloc, &function.result)?;
    Ok(Heading {
        name,
        params,
        result,
    })
}

// The parameters with their types.
#[tactic(auto, using(crate::proofs::Steps::params_turn))]
fn params_of(alloc: Global, params: &[Param]) -> Result<Scope, TypeError>
    ensures { TypingAgrees (λ s. s) result (spec.params_from [] params.now) }
{
    let mut done = Scope::new(alloc);
    for param in params {
        declare(alloc, &mut done, param)?;
    }
    Ok(done)
}

// One more parameter: its name, and then its type.
fn declare(alloc: Global, done: &mut Scope, param: &Param) -> Result<(), TypeError>
    ensures { TypingAgrees (λ _. done.new) result (spec.with_param done.old param.now) }
{
    done.may_enter(&param.name)?;
    let name = param.name.text.copy()?;
    let ty = written(alloc, &param.kind)?;
    done.push(name, ty)?;
    Ok(())
}
