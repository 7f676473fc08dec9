//! Builds that find what changed, and what is told of them.
ghost use Rattle.std.specs.Prelude.{◌≡◌, ◌++◌, true, All, IfOk, OnOk, string_bytes};
ghost use Rattle.pie_auto.specs.Found.{KeepsOutside};
ghost use Rattle.pie_build.specs.Crashes.{StaysAtRest};
ghost use Rattle.pie_build.specs.Left.{KeepsRest};
ghost use Rattle.pie_commit.specs.Outcomes.{LeavesFromRest};
ghost use Rattle.pie_files.specs.Streams.{Counted};
ghost use Rattle.pie_incremental.specs.Crashes.{EndsMarked};
ghost use Rattle.pie_topdown_build.specs.Crashes.{HasEnded, MayStop};
ghost use Rattle.pie_value.specs.Canonical.{IsEncodableTask};
ghost use Rattle.pie_cli.specs.Auto.{AutoSays, IsAutoText, head_line};
ghost use Rattle.pie_cli.specs.Fresh.{verdict_status};
ghost use Rattle.pie_cli.specs.Run.{is_answer};
ghost use Rattle.pie_cli.specs.Topdown.{TopdownSays};

use crate::check::{bad_pipeline, bad_roots};
use crate::scan::unlisted;
use crate::told::{CommandResult, of_report, printed, status_of};
use pie_auto::Automatic;
use pie_base::{OutOfMemory, Path};
use pie_files::{Files, FilesError};
use pie_listing::Listing;
use pie_project::BuildError;
use pie_topdown_build::build_topdown;
use pie_vm::Runs;
use std::alloc::Global;

/// Builds a directory from what the last build left, without a list, and tells the report, as JSON where that is wanted, or the first refusal of
/// the project.
pub(crate) fn topdown<F: Files>(
    alloc: Global,
    files: &mut F,
    json: bool,
) -> Result<CommandResult, FilesError>
    ensures says { IfOk result (λ told. TopdownSays json (F.holds files.old) (F.holds files.new) (string_bytes told.text) told.status) }
    ensures answer { IfOk result (λ told. is_answer told.status ≡ true) }
    ensures rest { KeepsRest (F.holds files.old) (F.holds files.new) }
    ensures crash { LeavesFromRest F.holds F.moment F.left_since F.images MayStop files.old files.new }
    ensures marked { EndsMarked F.holds F.images HasEnded files.old files.new }
    ensures durable { OnOk result (StaysAtRest F.holds F.images files.old files.new) }
    ensures counted { Counted F.faults FilesError.Failed files.old files.new result }
{
    let mut runs = Runs::new(alloc);
    match build_topdown(alloc, files, &mut runs) {
        Ok(report) => Ok(of_report(alloc, report, json)?),
        Err(BuildError::Pipeline(fault)) => Ok(bad_pipeline(alloc, fault)?),
        Err(BuildError::Roots(reason)) => Ok(bad_roots(alloc, reason)?),
        Err(BuildError::Files) => Err(FilesError::Failed),
        Err(BuildError::OutOfMemory) => Err(FilesError::OutOfMemory),
    }
}

/// Builds a directory by what scanning below these tops finds, and tells what was found and the report, or the first refusal of the project.
pub(crate) fn auto<F: Files>(
    alloc: Global,
    files: &mut F,
    tops: &[Path],
) -> Result<CommandResult, FilesError>
    ensures says { IfOk result (λ told. AutoSays tops.now (F.holds files.old) (F.holds files.new) (string_bytes told.text) told.status) }
    ensures answer { IfOk result (λ told. is_answer told.status ≡ true) }
    ensures rest { KeepsOutside (F.holds files.old) (F.holds files.new) }
    ensures counted { Counted F.faults FilesError.Failed files.old files.new result }
{
    let mut runs = Runs::new(alloc);
    match pie_auto::auto(alloc, files, tops, &mut runs) {
        Ok(found) => Ok(of_found(alloc, &found)?),
        Err(BuildError::Pipeline(fault)) => Ok(bad_pipeline(alloc, fault)?),
        Err(BuildError::Roots(reason)) => Ok(bad_roots(alloc, reason)?),
        Err(BuildError::Files) => Err(FilesError::Failed),
        Err(BuildError::OutOfMemory) => Err(FilesError::OutOfMemory),
    }
}

// What is told of what was found and of the report.
fn of_found(alloc: Global, found: &Automatic) -> Result<CommandResult, OutOfMemory>
    requires { All IsEncodableTask found.now.report.ran.items }
    ensures text { IfOk result (λ told. IsAutoText found.now.listing found.now.report (string_bytes told.text)) }
    ensures status { IfOk result (λ told. told.status ≡ verdict_status found.now.report.verdict) }
    ensures answer { IfOk result (λ told. is_answer told.status ≡ true) }
{
    let mut text = head(alloc, &found.listing)?;
    let lines = printed(alloc, &found.report, false)?;
    text.push_str(lines.as_str())?;
    let status = status_of(&found.report.verdict);
    Ok(CommandResult { text, status })
}

// What stands before the report.
fn head(alloc: Global, listing: &Listing) -> Result<String, OutOfMemory>
    ensures { IfOk result (λ text. string_bytes text ≡ head_line listing.now) }
{
    match listing {
        Listing::Listed(paths) => listed(alloc, paths),
        Listing::Unlisted(reason) => unlisted(alloc, *reason),
    }
}

fn listed(alloc: Global, paths: &Vec<Path>) -> Result<String, OutOfMemory>
    ensures { IfOk result (λ text. string_bytes text ≡ head_line (Listing.Listed paths.now)) }
{
    let count = paths.len();
    let text = format!(in alloc; "listed {count}\n")?;
    Ok(text)
}
