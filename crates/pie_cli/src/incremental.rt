//! An incremental build, and what is told of it.
ghost use Rattle.std.specs.Prelude.{◌≡◌, true, IfOk, OnOk, string_bytes};
ghost use Rattle.pie_build.specs.Crashes.{StaysAtRest};
ghost use Rattle.pie_build.specs.Left.{KeepsRest};
ghost use Rattle.pie_commit.specs.Outcomes.{LeavesFromRest};
ghost use Rattle.pie_files.specs.Streams.{Counted};
ghost use Rattle.pie_incremental.specs.Crashes.{EndsMarked, MayEnd, MayStop};
ghost use Rattle.pie_report.specs.Refused as refused;
ghost use Rattle.pie_cli.specs.Build.{MakeSays};
ghost use Rattle.pie_cli.specs.Run.{is_answer};

use crate::check::{bad_pipeline, bad_roots};
use crate::told::{CommandResult, of_report};
use pie_base::{OutOfMemory, Path, Status};
use pie_files::{Files, FilesError};
use pie_project::BuildError;
use pie_script::InputFault;
use pie_vm::Runs;
use std::alloc::Global;

/// Builds a directory from what the last build left and the paths that may have changed since, and tells the report, as
/// JSON where that is wanted, or the first refusal of the project.
pub(crate) fn build<F: Files>(
    alloc: Global,
    files: &mut F,
    changes: &[Path],
    json: bool,
) -> Result<CommandResult, FilesError>
    ensures says { IfOk result (λ told. MakeSays json (F.asked files.old) (F.asked files.new) changes.now (F.holds files.old) (F.holds files.new) (string_bytes told.text) told.status) }
    ensures answer { IfOk result (λ told. is_answer told.status ≡ true) }
    ensures rest { KeepsRest (F.holds files.old) (F.holds files.new) }
    ensures crash { LeavesFromRest F.holds F.moment F.left_since F.images (MayStop changes.now) files.old files.new }
    ensures marked { EndsMarked F.holds F.images (MayEnd changes.now) files.old files.new }
    ensures durable { OnOk result (StaysAtRest F.holds F.images files.old files.new) }
    ensures counted { Counted F.faults FilesError.Failed files.old files.new result }
{
    let mut runs = Runs::new(alloc);
    match pie_incremental::build(alloc, files, changes, &mut runs) {
        Ok(report) => Ok(of_report(alloc, report, json)?),
        Err(BuildError::Pipeline(fault)) => Ok(bad_pipeline(alloc, fault)?),
        Err(BuildError::Roots(reason)) => Ok(bad_roots(alloc, reason)?),
        Err(BuildError::Files) => Err(FilesError::Failed),
        Err(BuildError::OutOfMemory) => Err(FilesError::OutOfMemory),
    }
}

/// What is told of an input that is refused.
pub(crate) fn bad_input(alloc: Global, fault: InputFault) -> Result<CommandResult, OutOfMemory>
    ensures text { IfOk result (λ told. string_bytes told.text ≡ refused.bad_input_text fault) }
    ensures status { IfOk result (λ told. told.status ≡ Status.BadInput) }
    ensures answer { IfOk result (λ told. is_answer told.status ≡ true) }
{
    let text = pie_report::bad_input(alloc, fault)?;
    Ok(CommandResult {
        text,
        status: Status::BadInput,
    })
}
