//! A build with the record cache.
ghost use Rattle.std.specs.Prelude.{◌≡◌, ◌++◌, ◌∷◌, [], None, map, All, IfOk, IfSome, OnOk};
ghost use Rattle.pie_build.specs.Crashes.{StaysAtRest};
ghost use Rattle.pie_build.specs.inner.Rebuilt.{IsRefusal, Tells};
ghost use Rattle.pie_cache.specs.inner.Changes.{LeavesAlike};
ghost use Rattle.pie_cache.specs.inner.Contents.{IsNews};
ghost use Rattle.pie_cache.specs.inner.Places.{cache_path as specs_cache_path, gate};
ghost use Rattle.pie_cache.specs.inner.Stored.{offers_in};
ghost use Rattle.pie_cache.specs.inner.Texts.{IsKept};
ghost use Rattle.pie_commit.specs.Outcomes.{LeavesFromRest};
ghost use Rattle.pie_files.specs.Directory.{file_at};
ghost use Rattle.pie_files.specs.Streams.{Counted};
ghost use Rattle.pie_project.specs.Refusals.{IsVerdict};
ghost use Rattle.pie_store.specs.inner.Offers.{offered as offer_of};
ghost use Rattle.pie_cached.specs.Cached.{KeepsAllButCache};
ghost use Rattle.pie_cached.specs.Crashes.{MarkedCached, StopsCached};
ghost use Rattle.pie_cached.specs.Kept.{KeepsCached};
ghost use Rattle.pie_cached.specs.Ran.{CachesRun};
ghost use Rattle.pie_cached.specs.inner.News.{kept_of, placed, KeepsTold, LeavesCache, LeavesNews};
ghost use Rattle.pie_topdown_build.specs.inner.News.{as_told};
ghost use Rattle.pie_cached.specs.inner.Clean.{CachesCleanBy, OpenedClean};
ghost use Rattle.pie_cached.specs.inner.Crashes.{MarkedOpened, StopsKeeping, StopsOpened};
ghost use Rattle.pie_cached.specs.inner.Said.{Endures, EnduresKeeping, RefusesAlike, TellsTasks};
ghost use Rattle.pie_topdown_build.specs.inner.Offered.{IsNew};
ghost use Rattle.pie_topdown_build.specs.inner.Ran.{OffersRun};

use pie_base::{OutOfMemory, Path};
use pie_cache::{Cache, cache_path};
use pie_files::{Files, FilesError};
use pie_project::BuildError;
use pie_report::Report;
use pie_store::Offer;
use pie_topdown_build::{NewOffer, Offered, build_offered};
use pie_value::{Task, Verdict};
use pie_vm::Runs;
use std::alloc::Global;

/// Builds the project of a directory as `build_topdown` does, with the records of earlier builds that the cache has for its tasks; after an accepted
/// build the cache keeps what the tasks gave that ran. Answers the report, and the live tasks whose records came from the cache. Where keeping fails, the
/// build is in place, and its report is lost. The tasks that are started are added to the runs, and reported.
/// Rule: docs/BUILDING.md, "The record cache".
pub fn build_cached<F: Files>(
    alloc: Global,
    files: &mut F,
    runs: &mut Runs,
) -> Result<(Report, Vec<Task>), BuildError>
    ensures stays { Endures F.holds F.moment F.left_since F.images StopsCached MarkedCached (IsVerdict result) files.old files.new }
    ensures refuses { RefusesAlike (F.holds files.old) (F.holds files.new) result }
    ensures cache { IfSome (F.holds files.old) (λ d. IfOk result (λ r. LeavesCache d r.0 (F.holds files.new))) }
    ensures others { IfOk result (λ r. KeepsCached r.0.verdict r.0.ran.items (F.holds files.old) (F.holds files.new)) }
    ensures clean { IfSome (F.holds files.old) (λ d. IfOk result (λ r. CachesCleanBy d r.0 (F.holds files.new))) }
    ensures runs { IfSome (F.holds files.old) (λ d. IfOk result (λ r. CachesRun d r.0 r.1.items)) }
    ensures ran { TellsTasks runs.old runs.new result }
    ensures told { Tells F.faults files.old files.new result }
{
    match Cache::open(alloc, files) {
        Ok(cache) => with_cache(alloc, files, cache, runs),
        Err(FilesError::Failed) => Err(BuildError::Files),
        Err(FilesError::OutOfMemory) => Err(BuildError::OutOfMemory),
    }
}

// Builds with a cache that was opened, and keeps what is new.
fn with_cache<F: Files>(
    alloc: Global,
    files: &mut F,
    cache: Cache,
    runs: &mut Runs,
) -> Result<(Report, Vec<Task>), BuildError>
    ensures stays { Endures F.holds F.moment F.left_since F.images StopsOpened MarkedOpened (IsVerdict result) files.old files.new }
    ensures refuses { RefusesAlike (F.holds files.old) (F.holds files.new) result }
    ensures cache { IfSome (F.holds files.old) (λ d. file_at d gate ≡ None → IfOk result (λ r. LeavesNews d (file_at d) r.0 (F.holds files.new))) }
    ensures clean { IfSome (F.holds files.old) (λ d. IfOk result (λ r. OpenedClean d r.0 (F.holds files.new))) }
    ensures runs { IfSome (F.holds files.old) (λ d. IfOk result (λ r. OffersRun offers_in d r.0 r.1.items)) }
    ensures ran { TellsTasks runs.old runs.new result }
    ensures told { Tells F.faults files.old files.new result }
{
    let mut cache = cache;
    match build_offered(alloc, files, &mut cache, runs) {
        Ok(offered) => finish(alloc, files, cache, offered),
        Err(error) => Err(error),
    }
}

// Keeps what is new, if the build was accepted.
#[tactic(auto, using(crate::proofs::Others::others))]
fn finish<F: Files>(
    alloc: Global,
    files: &mut F,
    cache: Cache,
    offered: Offered,
) -> Result<(Report, Vec<Task>), BuildError>
    requires { All IsNew offered.new.items }
    ensures report { IfOk result (λ r. r.0 ≡ offered.report.value) }
    ensures reused { IfOk result (λ r. r.1 ≡ offered.reused) }
    ensures rest { KeepsAllButCache (F.holds files.old) (F.holds files.new) }
    ensures cache { OnOk result (KeepsTold (kept_of offered.report.value.verdict (map as_told offered.new.items)) (F.holds files.old) (F.holds files.new)) }
    ensures stays { EnduresKeeping F.holds F.moment F.left_since F.images (kept_of offered.report.value.verdict (map as_told offered.new.items)) (IsVerdict result) files.old files.new }
    ensures accepted { IsRefusal result → ⊥ }
    ensures told { Tells F.faults files.old files.new result }
{
    let Offered {
        report,
        reused,
        new,
    } = offered;
    match keep_if_accepted(alloc, files, cache, &report.verdict, new) {
        Ok(()) => Ok((Box::into_inner(report), reused)),
        Err(FilesError::Failed) => Err(BuildError::Files),
        Err(FilesError::OutOfMemory) => Err(BuildError::OutOfMemory),
    }
}

#[tactic(auto, using(crate::proofs::Others::others))]
fn keep_if_accepted<F: Files>(
    alloc: Global,
    files: &mut F,
    cache: Cache,
    verdict: &Verdict,
    new: Vec<NewOffer>,
) -> Result<(), FilesError>
    requires { All IsNew new.items }
    ensures rest { KeepsAllButCache (F.holds files.old) (F.holds files.new) }
    ensures cache { OnOk result (KeepsTold (kept_of verdict.now (map as_told new.items)) (F.holds files.old) (F.holds files.new)) }
    ensures whole { LeavesFromRest F.holds F.moment F.left_since F.images (StopsKeeping (kept_of verdict.now (map as_told new.items))) files.old files.new }
    ensures alike { LeavesAlike F.holds F.moment F.left_since F.images files.old files.new }
    ensures durable { OnOk result (StaysAtRest F.holds F.images files.old files.new) }
    ensures counted { Counted F.faults FilesError.Failed files.old files.new result }
{
    match verdict {
        Verdict::Accepted => keep(alloc, files, cache, new),
        Verdict::Refused(_) => Ok(()),
    }
}

#[tactic(auto, using(crate::proofs::Others::others))]
fn keep<F: Files>(
    alloc: Global,
    files: &mut F,
    cache: Cache,
    new: Vec<NewOffer>,
) -> Result<(), FilesError>
    requires { All IsNew new.items }
    ensures rest { KeepsAllButCache (F.holds files.old) (F.holds files.new) }
    ensures cache { OnOk result (KeepsTold (map as_told new.items) (F.holds files.old) (F.holds files.new)) }
    ensures whole { LeavesFromRest F.holds F.moment F.left_since F.images (StopsKeeping (map as_told new.items)) files.old files.new }
    ensures alike { LeavesAlike F.holds F.moment F.left_since F.images files.old files.new }
    ensures durable { OnOk result (StaysAtRest F.holds F.images files.old files.new) }
    ensures counted { Counted F.faults FilesError.Failed files.old files.new result }
{
    let mut cache = cache;
    let fresh = with_paths(alloc, new)?;
    cache.keep(alloc, files, fresh)
}

// What is to be kept, with the paths of its files.
fn with_paths(alloc: Global, new: Vec<NewOffer>) -> Result<Vec<(Path, Offer)>, OutOfMemory>
    requires { All IsNew new.items }
    ensures news { IfOk result (λ fresh. All IsNews fresh.items) }
    ensures placed { IfOk result (λ fresh. fresh.items ≡ map placed new.items) }
{
    let mut fresh = Vec::new(alloc);
    for NewOffer { digest, offer } in new {
        push_new(alloc, &mut fresh, &digest, offer)?;
    }
    Ok(fresh)
}

fn push_new(
    alloc: Global,
    fresh: &mut Vec<(Path, Offer)>,
    digest: &[u8; 32],
    offer: Offer,
) -> Result<(), OutOfMemory>
    requires new { IsKept (offer_of offer) }
    requires fresh { All IsNews fresh.old.items }
    ensures news { OnOk result (All IsNews fresh.new.items) }
    ensures placed { OnOk result (fresh.new.items ≡ fresh.old.items ++ (specs_cache_path offer.row.task digest.now, offer) ∷ []) }
{
    let path = cache_path(alloc, &offer.row.task, digest)?;
    fresh.push((path, offer))?;
    Ok(())
}
