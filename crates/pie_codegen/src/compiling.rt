//! The code of a pipeline.
ghost use Rattle.std.specs.Prelude.{◌≡◌, IfOk};
ghost use Rattle.pie_code.specs.declared.error.CodeError.TheVariants.{OutOfMemory as NoMemory};
ghost use Rattle.pie_codegen.specs.Formed.{BlockFormed};
ghost use Rattle.pie_codegen.specs.Functions.{IsCodeOf};
ghost use Rattle.pie_codegen.specs.Names.{names_of};
ghost use Rattle.pie_codegen.specs.Pipelines.{AllFormed, AllMean, AreCodesOf, AreNeverStuck};

use crate::function::function_code;
use pie_base::OutOfMemory;
use pie_code::{Checked, CodeError, verify};
use pie_parser::Function;
use pie_types::Typed;
use std::alloc::Global;

/// The code of each function, in text order. It is accepted, and means what the function means.
/// Rule: docs/LANGUAGE.md, "Bytecode".
#[tactic(auto, using(crate::proofs::Pipelined::all_formed, crate::proofs::Pipelined::all_mean, crate::proofs::Pipelined::no_task_stuck))]
pub fn compile(alloc: Global, typed: &Typed) -> Result<Vec<Checked>, OutOfMemory>
    ensures codes { IfOk result (λ codes. AreCodesOf typed.now codes.items) }
    ensures means { IfOk result (λ codes. AllMean typed.now codes.items) }
    ensures never_stuck { IfOk result (λ codes. AreNeverStuck typed.now codes.items) }
{
    let codes = codes(alloc, typed.pipeline().functions.as_slice())?;
    Ok(codes)
}

// The code of each of some functions.
#[tactic(auto, using(crate::proofs::Coded::one_more, crate::proofs::Coded::all_of_them, crate::proofs::Pipelined::formed_at))]
fn codes(alloc: Global, functions: &[Function]) -> Result<Vec<Checked>, OutOfMemory>
    requires { AllFormed functions.now }
    ensures { IfOk result (λ codes. AreCodesOf functions.now codes.items) }
{
    let mut codes = Vec::new(alloc);
    for function in functions {
        let code = checked(alloc, function)?;
        codes.push(code)?;
    }
    Ok(codes)
}

// The code of a function, as code that may run.
#[tactic(auto, using(crate::proofs::Pipelined::no_refusal))]
fn checked(alloc: Global, function: &Function) -> Result<Checked, OutOfMemory>
    requires { BlockFormed (names_of function.now.params) function.now.body }
    ensures { IfOk result (λ code. IsCodeOf function.now code) }
{
    let code = function_code(alloc, function)?;
    match verify(alloc, code) {
        Ok(checked) => Ok(checked),
        Err(error) => Err(out_of_memory(&error)),
    }
}

// The one way in which the code of a typed function is refused.
fn out_of_memory(error: &CodeError) -> OutOfMemory
    requires { error.now ≡ NoMemory }
{
    OutOfMemory
}
