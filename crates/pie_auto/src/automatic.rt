//! A build by the change list that scanning finds.
ghost use Rattle.std.specs.Prelude.{◌≡◌, ◌≤◌, ◌+◌, ◌++◌, length, All, IfOk, IfSome, OnOk};
ghost use Rattle.pie_build.specs.Left.{KeepsRest};
ghost use Rattle.pie_build.specs.inner.Rebuilt.{IsRefusal, Tells};
ghost use Rattle.pie_incremental.specs.inner.Refused.{RefusesRight};
ghost use Rattle.pie_listing.specs.Listings.{IsListing};
ghost use Rattle.pie_value.specs.Canonical.{IsEncodableTask};
ghost use Rattle.pie_value.specs.declared.verdict.Verdict.TheVariants.{Accepted};
ghost use Rattle.pie_auto.specs.Found.{BuildsBy, Follows, HasFound, KeepsOutside};
ghost use Rattle.pie_auto.specs.Kept.{KeepsAllButManifest};
ghost use Rattle.pie_auto.specs.inner.Drafts.{AreSeenIn};
ghost use Rattle.pie_auto.specs.inner.Parts.{IsFollowed, TellsRuns};
ghost use Rattle.pie_listing.specs.inner.Steps.{AreOrdered, HasSeen};

use crate::keep_manifest;
use pie_base::Path;
use pie_files::{Files, FilesError};
use pie_incremental::build;
use pie_listing::{Listing, Scan, list_scanned};
use pie_project::BuildError;
use pie_report::Report;
use pie_scan::Entry;
use pie_topdown_build::build_topdown;
use pie_value::Verdict;
use pie_vm::Runs;
use std::alloc::Global;

/// What scanning found, and what the build came to.
#[derive(Drop)]
pub struct Automatic {
    /// The paths at which the directory differs from that of the manifest, or why there is no list.
    pub listing: Listing,
    pub report: Report,
}

/// Finds what changed by scanning the sources at or below these tops and the files under `out/`, and builds that: by the change list, or
/// without one where the manifest gives none. After an accepted build the manifest of what it left is written. Where that fails, the build is in
/// place, and its report is lost. The tasks that are started are added to the runs, and reported.
/// Rule: docs/BUILDING.md, "Builds that find what changed".
#[tactic(auto, using(crate::proofs::Finding::outside, crate::proofs::Refusing::after, crate::proofs::Refusing::never))]
pub fn auto<F: Files>(
    alloc: Global,
    files: &mut F,
    tops: &[Path],
    runs: &mut Runs,
) -> Result<Automatic, BuildError>
    ensures found { IfSome (F.holds files.old) (λ d. IfOk result (λ found. HasFound tops.now d found.listing found.report (F.holds files.new))) }
    ensures rest { KeepsOutside (F.holds files.old) (F.holds files.new) }
    ensures refused { IsRefusal result → F.holds files.new ≡ F.holds files.old }
    ensures ran { IfOk result (λ found. runs.new ≡ runs.old ++ found.report.ran.items) }
    ensures few { length runs.new ≤ length runs.old + 100000 }
    ensures encodable { IfOk result (λ found. All IsEncodableTask found.report.ran.items) }
    ensures says { IfSome (F.holds files.old) (λ d. RefusesRight d result) }
    ensures told { Tells F.faults files.old files.new result }
{
    match list_scanned(alloc, files, tops) {
        Ok(scan) => with_scan(alloc, files, tops, scan, runs),
        Err(FilesError::Failed) => Err(BuildError::Files),
        Err(FilesError::OutOfMemory) => Err(BuildError::OutOfMemory),
    }
}

// Builds by what was found, and keeps the manifest.
#[tactic(auto, using(crate::proofs::Finding::outside, crate::proofs::Refusing::found, crate::proofs::Refusing::never))]
fn with_scan<F: Files>(
    alloc: Global,
    files: &mut F,
    tops: &[Path],
    scan: Scan,
    runs: &mut Runs,
) -> Result<Automatic, BuildError>
    requires { AreOrdered scan.entries }
    ensures listing { IfOk result (λ found. found.listing ≡ scan.listing) }
    ensures followed { IfSome (F.holds files.old) (λ d. HasSeen d tops.now scan → IfOk result (λ found. IsFollowed tops.now d found.listing found.report (F.holds files.new))) }
    ensures rest { KeepsOutside (F.holds files.old) (F.holds files.new) }
    ensures refused { IsRefusal result → F.holds files.new ≡ F.holds files.old }
    ensures ran { TellsRuns runs.old runs.new result (λ found. found.report) }
    ensures says { IfSome (F.holds files.old) (λ d. RefusesRight d result) }
    ensures told { Tells F.faults files.old files.new result }
{
    match build_by(alloc, files, &scan.listing, runs) {
        Ok(report) => finish(alloc, files, tops, scan, report),
        Err(error) => Err(error),
    }
}

// Builds by what was found.
fn build_by<F: Files>(
    alloc: Global,
    files: &mut F,
    listing: &Listing,
    runs: &mut Runs,
) -> Result<Report, BuildError>
    ensures built { IfSome (F.holds files.old) (λ d. IfOk result (λ r. BuildsBy listing.now d r (F.holds files.new))) }
    ensures rest { KeepsRest (F.holds files.old) (F.holds files.new) }
    ensures refused { IsRefusal result → F.holds files.new ≡ F.holds files.old }
    ensures ran { IfOk result (λ r. runs.new ≡ runs.old ++ r.ran.items) }
    ensures few { length runs.new ≤ length runs.old + 100000 }
    ensures encodable { IfOk result (λ r. All IsEncodableTask r.ran.items) }
    ensures says { IfSome (F.holds files.old) (λ d. RefusesRight d result) }
    ensures told { Tells F.faults files.old files.new result }
{
    match listing {
        Listing::Listed(paths) => build(alloc, files, paths.as_slice(), runs),
        Listing::Unlisted(_) => build_topdown(alloc, files, runs),
    }
}

// Keeps the manifest, if the build was accepted.
fn finish<F: Files>(
    alloc: Global,
    files: &mut F,
    tops: &[Path],
    scan: Scan,
    report: Report,
) -> Result<Automatic, BuildError>
    requires { AreOrdered scan.entries }
    ensures listing { IfOk result (λ found. found.listing ≡ scan.listing) }
    ensures report { IfOk result (λ found. found.report ≡ report) }
    ensures follows { AreSeenIn (F.holds files.old) tops.now scan.entries → OnOk result (Follows report.verdict tops.now (F.holds files.old) (F.holds files.new)) }
    ensures rest { KeepsAllButManifest (F.holds files.old) (F.holds files.new) }
    ensures accepted { IsRefusal result → ⊥ }
    ensures told { Tells F.faults files.old files.new result }
{
    let Scan { listing, entries } = scan;
    match keep(alloc, files, tops, entries, &report.verdict) {
        Ok(()) => Ok(Automatic { listing, report }),
        Err(error) => Err(error),
    }
}

#[tactic(auto, using(crate::proofs::Keeping::all_but))]
fn keep<F: Files>(
    alloc: Global,
    files: &mut F,
    tops: &[Path],
    seen: Option<Vec<Entry>>,
    verdict: &Verdict,
) -> Result<(), BuildError>
    requires { AreOrdered seen }
    ensures follows { AreSeenIn (F.holds files.old) tops.now seen → OnOk result (Follows verdict.now tops.now (F.holds files.old) (F.holds files.new)) }
    ensures rest { KeepsAllButManifest (F.holds files.old) (F.holds files.new) }
    ensures accepted { IsRefusal result → ⊥ }
    ensures told { Tells F.faults files.old files.new result }
{
    match verdict {
        Verdict::Accepted => keep_accepted(alloc, files, tops, seen),
        Verdict::Refused(_) => Ok(()),
    }
}

fn keep_accepted<F: Files>(
    alloc: Global,
    files: &mut F,
    tops: &[Path],
    seen: Option<Vec<Entry>>,
) -> Result<(), BuildError>
    requires { AreOrdered seen }
    ensures follows { AreSeenIn (F.holds files.old) tops.now seen → OnOk result (Follows Accepted tops.now (F.holds files.old) (F.holds files.new)) }
    ensures rest { KeepsAllButManifest (F.holds files.old) (F.holds files.new) }
    ensures accepted { IsRefusal result → ⊥ }
    ensures told { Tells F.faults files.old files.new result }
{
    match keep_manifest(alloc, files, tops, seen) {
        Ok(_) => Ok(()),
        Err(FilesError::Failed) => Err(BuildError::Files),
        Err(FilesError::OutOfMemory) => Err(BuildError::OutOfMemory),
    }
}
