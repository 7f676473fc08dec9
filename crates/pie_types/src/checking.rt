//! The one call: from a syntax tree to its types.
ghost use Rattle.std.specs.Prelude.{◌≡◌, IfOk};
ghost use Rattle.pie_value.specs.TypeTrees.{ty_tree};
ghost use Rattle.pie_types.specs.Faults.{TypingAgrees};
ghost use Rattle.pie_types.specs.Whole as spec;
ghost use Rattle.pie_types.specs.inner.WholeRules.{IsTyped};
ghost use Rattle.pie_types.specs.inner.Law.{NotRefused, OneType};

use crate::block::expected_block;
use crate::declaring::{headings_of, signature_of};
use crate::headings::Headings;
use crate::{TypeError, Typed};
use pie_parser::{Function, Pipeline};
use pie_value::Ty;
use std::alloc::Global;

/// The pipeline, where each of its expressions has a type; else the first refusal, where the headings
/// of all functions come in text order before the bodies. Rule: docs/LANGUAGE.md, "Types".
pub fn check(alloc: Global, pipeline: Pipeline) -> Result<Typed, TypeError>
    ensures checked { TypingAgrees (λ typed. typed) result (spec.checked pipeline.functions.items) }
    ensures typed { IfOk result (λ typed. IsTyped typed) }
    ensures all { IsTyped pipeline.functions.items → NotRefused result }
    ensures one_type { OneType }
{
    checked(alloc, pipeline)
}

// The pipeline, or the first refusal.
fn checked(alloc: Global, pipeline: Pipeline) -> Result<Typed, TypeError>
    ensures { TypingAgrees (λ typed. typed) result (spec.checked pipeline.functions.items) }
{
    let headings = headings_of(alloc, pipeline.functions.as_slice())?;
    bodies(&headings, pipeline.functions.as_slice())?;
    Ok(Typed { pipeline, headings })
}

// The bodies, one after another.
#[tactic(auto, using(crate::proofs::Steps::bodies_turn))]
fn bodies(headings: &Headings, functions: &[Function]) -> Result<(), TypeError>
    ensures { TypingAgrees (λ _. headings.now) result (spec.bodies headings.now functions.now) }
{
    for function in functions {
        let _found = body_type(headings, function)?;
    }
    Ok(())
}

// The type of a body, which has to be that of the function's answer.
fn body_type(headings: &Headings, function: &Function) -> Result<Ty, TypeError>
    ensures { TypingAgrees ty_tree result (spec.body_type headings.now function.now) }
{
    let mut heading = signature_of(headings.alloc(), function)?;
    let scope = &mut heading.params;
    expected_block(headings, scope, &heading.result, &function.body)
}
