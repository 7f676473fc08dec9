//! Checking a project, and what is told of it.
ghost use Rattle.std.specs.Prelude.{◌≡◌, true, IfSome, IfOk, string_bytes};
ghost use Rattle.pie_files.specs.Reading.{LeavesAsBefore};
ghost use Rattle.pie_files.specs.Streams.{Counted};
ghost use Rattle.pie_project.specs.Looking.{Asks, prefix_calls};
ghost use Rattle.pie_project.specs.Refusals.{plain};
ghost use Rattle.pie_report.specs.Refused as refused;
ghost use Rattle.pie_cli.specs.Check as spec;
ghost use Rattle.pie_cli.specs.Check.{Tells, TellsOnly};
ghost use Rattle.pie_cli.specs.Run.{is_answer};

use crate::told::CommandResult;
use pie_base::{OutOfMemory, Status};
use pie_files::{Files, FilesError};
use pie_project::{BuildError, PipelineFault, RootsReason, check_project};
use std::alloc::Global;

/// Reads the pipeline and the roots of a directory, and reports how many functions and roots there
/// are, or the first refusal. It changes no file.
pub(crate) fn check<F: Files>(alloc: Global, files: &mut F) -> Result<CommandResult, FilesError>
    ensures told { IfSome (F.holds files.old) (λ d. IfOk result (Tells d)) }
    ensures only { IfSome (F.holds files.old) (λ d. IfOk result (TellsOnly d)) }
    ensures answer { IfOk result (λ told. is_answer told.status ≡ true) }
    ensures same { F.holds files.new ≡ F.holds files.old }
    ensures crash { LeavesAsBefore F.holds F.moment F.left_since F.images files.old files.new }
    ensures asks { Asks prefix_calls (F.asked files.old) (F.asked files.new) }
    ensures counted { Counted F.faults FilesError.Failed files.old files.new result }
{
    match check_project(alloc, files) {
        Ok((functions, roots)) => Ok(counts(alloc, functions, roots)?),
        Err(BuildError::Pipeline(fault)) => Ok(bad_pipeline(alloc, fault)?),
        Err(BuildError::Roots(reason)) => Ok(bad_roots(alloc, reason)?),
        Err(BuildError::Files) => Err(FilesError::Failed),
        Err(BuildError::OutOfMemory) => Err(FilesError::OutOfMemory),
    }
}

// What is told of a project that can be built.
fn counts(alloc: Global, functions: u32, roots: u32) -> Result<CommandResult, OutOfMemory>
    ensures text { IfOk result (λ told. string_bytes told.text ≡ spec.counts_text functions roots) }
    ensures status { IfOk result (λ told. told.status ≡ Status.Ok) }
{
    let text = format!(in alloc; "ok {functions} functions, {roots} roots\n")?;
    Ok(CommandResult {
        text,
        status: Status::Ok,
    })
}

/// What is told of a pipeline that is refused.
pub(crate) fn bad_pipeline(
    alloc: Global,
    fault: PipelineFault,
) -> Result<CommandResult, OutOfMemory>
    ensures text { IfOk result (λ told. string_bytes told.text ≡ refused.bad_pipeline_text (plain fault)) }
    ensures status { IfOk result (λ told. told.status ≡ Status.Pipeline) }
{
    let text = pie_report::bad_pipeline(alloc, &fault)?;
    Ok(CommandResult {
        text,
        status: Status::Pipeline,
    })
}

/// What is told of roots that are refused.
pub(crate) fn bad_roots(alloc: Global, reason: RootsReason) -> Result<CommandResult, OutOfMemory>
    ensures text { IfOk result (λ told. string_bytes told.text ≡ refused.bad_roots_text reason) }
    ensures status { IfOk result (λ told. told.status ≡ Status.Pipeline) }
{
    let text = pie_report::bad_roots(alloc, reason)?;
    Ok(CommandResult {
        text,
        status: Status::Pipeline,
    })
}
