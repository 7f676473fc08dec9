//! A clean build, and what is told of it.
ghost use Rattle.std.specs.Prelude.{◌≡◌, true, IfSome, IfOk, OnOk, string_bytes};
ghost use Rattle.pie_build.specs.Asked.{AsksEntered};
ghost use Rattle.pie_build.specs.Crashes.{StaysAtRest, Withstands};
ghost use Rattle.pie_build.specs.Left.{ChangesIfAccepted, KeepsRest, Leaves};
ghost use Rattle.pie_files.specs.Streams.{Counted};
ghost use Rattle.pie_cli.specs.Fresh.{FreshSays};
ghost use Rattle.pie_cli.specs.Run.{is_answer};

use crate::check::{bad_pipeline, bad_roots};
use crate::told::{CommandResult, of_report};
use pie_build::rebuild;
use pie_files::{Files, FilesError};
use pie_project::BuildError;
use pie_vm::Runs;
use std::alloc::Global;

/// Builds a directory as from an empty store, and tells the report, as JSON where that is wanted, or the first refusal
/// of the project.
#[tactic(auto, using(crate::proofs::Fresh::told_asks))]
pub(crate) fn fresh<F: Files>(
    alloc: Global,
    files: &mut F,
    json: bool,
) -> Result<CommandResult, FilesError>
    ensures built { IfSome (F.holds files.old) (λ d. IfOk result (λ told. FreshSays d json (F.holds files.new) (string_bytes told.text) told.status)) }
    ensures answer { IfOk result (λ told. is_answer told.status ≡ true) }
    ensures changed { IfSome (F.holds files.old) (λ d. ChangesIfAccepted d (F.holds files.new)) }
    ensures rest { KeepsRest (F.holds files.old) (F.holds files.new) }
    ensures crash { Withstands F.holds F.moment F.left_since F.images Leaves files.old files.new }
    ensures durable { OnOk result (StaysAtRest F.holds F.images files.old files.new) }
    ensures asks { IfSome (F.holds files.old) (λ d. IfOk result (λ _. AsksEntered d (F.asked files.old) (F.asked files.new))) }
    ensures counted { Counted F.faults FilesError.Failed files.old files.new result }
{
    let mut runs = Runs::new(alloc);
    match rebuild(alloc, files, &mut runs) {
        Ok(report) => Ok(of_report(alloc, report, json)?),
        Err(BuildError::Pipeline(fault)) => Ok(bad_pipeline(alloc, fault)?),
        Err(BuildError::Roots(reason)) => Ok(bad_roots(alloc, reason)?),
        Err(BuildError::Files) => Err(FilesError::Failed),
        Err(BuildError::OutOfMemory) => Err(FilesError::OutOfMemory),
    }
}
