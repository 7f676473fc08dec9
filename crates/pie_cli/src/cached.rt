//! A build with the record cache, and what is told of it.
ghost use Rattle.std.specs.Prelude.{◌≡◌, true, All, IfOk, OnOk, string_bytes};
ghost use Rattle.pie_build.specs.Crashes.{StaysAtRest};
ghost use Rattle.pie_cached.specs.Cached.{KeepsOthers};
ghost use Rattle.pie_cached.specs.Crashes.{EndsMarkedCached, StopsCached};
ghost use Rattle.pie_cached.specs.Lines.{IsCachedText};
ghost use Rattle.pie_commit.specs.Outcomes.{LeavesFromRest};
ghost use Rattle.pie_files.specs.Streams.{Counted};
ghost use Rattle.pie_value.specs.Canonical.{IsEncodableTask};
ghost use Rattle.pie_cli.specs.Cached.{CachedSays};
ghost use Rattle.pie_cli.specs.Fresh.{verdict_status};
ghost use Rattle.pie_cli.specs.Run.{is_answer};

use crate::check::{bad_pipeline, bad_roots};
use crate::told::{CommandResult, status_of};
use pie_base::OutOfMemory;
use pie_cached::{build_cached, print_cached};
use pie_files::{Files, FilesError};
use pie_project::BuildError;
use pie_report::Report;
use pie_value::Task;
use pie_vm::Runs;
use std::alloc::Global;

/// Builds a directory from what the last build left and from the record cache, and tells the report and which tasks weren't run since the cache had
/// their records, or the first refusal of the project.
pub(crate) fn cached<F: Files>(alloc: Global, files: &mut F) -> Result<CommandResult, FilesError>
    ensures says { IfOk result (λ told. CachedSays (F.holds files.old) (F.holds files.new) (string_bytes told.text) told.status) }
    ensures answer { IfOk result (λ told. is_answer told.status ≡ true) }
    ensures rest { KeepsOthers (F.holds files.old) (F.holds files.new) }
    ensures crash { LeavesFromRest F.holds F.moment F.left_since F.images StopsCached files.old files.new }
    ensures marked { EndsMarkedCached F.holds F.images files.old files.new }
    ensures durable { OnOk result (StaysAtRest F.holds F.images files.old files.new) }
    ensures counted { Counted F.faults FilesError.Failed files.old files.new result }
{
    let mut runs = Runs::new(alloc);
    match build_cached(alloc, files, &mut runs) {
        Ok((report, reused)) => Ok(of_cached(alloc, &report, reused.as_slice())?),
        Err(BuildError::Pipeline(fault)) => Ok(bad_pipeline(alloc, fault)?),
        Err(BuildError::Roots(reason)) => Ok(bad_roots(alloc, reason)?),
        Err(BuildError::Files) => Err(FilesError::Failed),
        Err(BuildError::OutOfMemory) => Err(FilesError::OutOfMemory),
    }
}

// What is told of a report and of the tasks whose records came from the cache.
fn of_cached(alloc: Global, report: &Report, reused: &[Task]) -> Result<CommandResult, OutOfMemory>
    requires ran { All IsEncodableTask report.now.ran.items }
    requires reused { All IsEncodableTask reused.now }
    ensures text { IfOk result (λ told. IsCachedText report.now reused.now (string_bytes told.text)) }
    ensures status { IfOk result (λ told. told.status ≡ verdict_status report.now.verdict) }
    ensures answer { IfOk result (λ told. is_answer told.status ≡ true) }
{
    let text = print_cached(alloc, report, reused)?;
    let status = status_of(&report.verdict);
    Ok(CommandResult { text, status })
}
