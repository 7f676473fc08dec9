//! An accepted build put into place.
ghost use Rattle.std.specs.Prelude.{◌≡◌, true, false, codes, is_some, IfSome, IfOk, OnOk, OnErr};
ghost use Rattle.std.specs.List.{list_all};
ghost use Rattle.pie_base.specs.Path.{is_out};
ghost use Rattle.pie_files.specs.Directory.{file_at, files_under};
ghost use Rattle.pie_files.specs.Images.{Only};
ghost use Rattle.pie_files.specs.Streams.{Counted};
ghost use Rattle.pie_reach.specs.Plan.{IsPlan};
ghost use Rattle.pie_files.specs.Reading.{LeavesAsBefore};
ghost use Rattle.pie_named.specs.Asking.{MakesOnly};
ghost use Rattle.pie_commit.specs.Outcomes.{KeepsOthers, IsOfThree, LeavesFromRest, LeavesMarked};
ghost use Rattle.pie_commit.specs.inner.Plans.{is_sound, is_empty};
ghost use Rattle.pie_fresh.specs.inner.Builds.{InPathOrder};
ghost use Rattle.pie_build.specs.Crashes.{StaysAtRest, Withstands};
ghost use Rattle.pie_build.specs.Left.{KeepsRest, Puts};
ghost use Rattle.pie_build.specs.inner.Asked.{IsChangeOf, MakesOwn};
ghost use Rattle.pie_build.specs.inner.Reported.{IsReportOf, PutsMade};
ghost use Rattle.pie_build.specs.inner.Plans.{IsCommitted, IsPlanOf, gone_if};

use crate::outcome::accepted;
use crate::paths::{copies, paths_of, under_out};
use pie_base::{OutOfMemory, Path};
use pie_commit::{Pending, Plan, commit};
use pie_files::{Files, FilesError};
use pie_reach::plan_removals;
use pie_report::Report;
use pie_value::{Task, Value};
use std::alloc::Global;

/// What an accepted build has made.
#[derive(Drop)]
pub(crate) struct Made {
    /// How many tasks are live.
    pub(crate) live: usize,
    /// The files under `out/`.
    pub(crate) contents: Vec<(Path, Vec<u8>)>,
    /// The output of each root.
    pub(crate) outputs: Vec<(Task, Value)>,
    /// The text of the store.
    pub(crate) store: Vec<u8>,
}

/// Writes the files and the store that were made, and removes every other file under `out/` and the pending names.
#[tactic(auto, using(crate::proofs::Crashing::withstands_still, crate::proofs::Crashing::withstands_none, pie_files::proofs::Reading::reads))]
pub(crate) fn put_into_place<F: Files>(
    alloc: Global,
    files: &mut F,
    made: Made,
    ran: Vec<Task>,
) -> Result<Report, FilesError>
    requires { InPathOrder made.contents.items }
    ensures left { IfSome (F.holds files.old) (λ d. IfOk result (λ r. Puts made.contents.items made.store.items d r (F.holds files.new))) }
    ensures report { IfOk result (IsReportOf made ran) }
    ensures rest { KeepsRest (F.holds files.old) (F.holds files.new) }
    ensures crash { Withstands F.holds F.moment F.left_since F.images (PutsMade made ran) files.old files.new }
    ensures durable { OnOk result (StaysAtRest F.holds F.images files.old files.new) }
    ensures counted { Counted F.faults FilesError.Failed files.old files.new result }
    ensures asks { MakesOwn (F.asked files.old) (F.asked files.new) }
{
    let Made {
        live,
        contents,
        outputs,
        store,
    } = made;
    let wrote = paths_of(alloc, contents.as_slice())?;
    let removed = removals(alloc, files, wrote.as_slice())?;
    let pending = end_of_pending(alloc, files)?;
    let plan = plan_of(alloc, removed.as_slice(), contents, pending, store)?;
    let report = accepted(live, ran, wrote, removed, outputs)?;
    commit_then(files, &plan, report)
}

// Commits a plan, and then hands the report on.
fn commit_then<F: Files>(files: &mut F, plan: &Plan, report: Report) -> Result<Report, FilesError>
    requires { is_sound plan.now ≡ true }
    ensures report { IfOk result (λ r. r ≡ report) }
    ensures done { is_empty plan.now ≡ false → OnOk result (IsCommitted F.holds F.images plan.now files.old files.new) }
    ensures outside { KeepsOthers plan.now (F.holds files.old) (F.holds files.new) }
    ensures crash { LeavesFromRest F.holds F.moment F.left_since F.images (IsOfThree plan.now) files.old files.new }
    ensures failed { OnErr result (IfSome (F.holds files.old) (λ d. Only d (F.images files.old) → LeavesMarked plan.now d (F.images files.new))) }
    ensures counted { Counted F.faults FilesError.Failed files.old files.new result }
    ensures asks { MakesOnly (IsChangeOf plan.now) (F.asked files.old) (F.asked files.new) }
{
    match commit(files, plan) {
        Ok(()) => Ok(report),
        Err(error) => Err(error),
    }
}

// The files under `out/` but for these.
#[tactic(auto, using(pie_files::proofs::Reading::reads, crate::proofs::Asking::own_calls))]
fn removals<F: Files>(alloc: Global, files: &mut F, kept: &[Path]) -> Result<Vec<Path>, FilesError>
    ensures plan { IfSome (F.holds files.old) (λ d. IfOk result (λ found. IsPlan (files_under d (codes "out")) kept.now found.items)) }
    ensures out { IfOk result (λ found. list_all is_out found.items ≡ true) }
    ensures same { F.holds files.new ≡ F.holds files.old }
    ensures crash { LeavesAsBefore F.holds F.moment F.left_since F.images files.old files.new }
    ensures counted { Counted F.faults FilesError.Failed files.old files.new result }
    ensures asks { MakesOwn (F.asked files.old) (F.asked files.new) }
{
    let out = Path::known(alloc, "out")?;
    let found = files.all_under(&out)?;
    let there = under_out(alloc, found.as_slice())?;
    let removed = plan_removals(alloc, there.as_slice(), kept)?;
    Ok(removed)
}

// What becomes of the pending names: they go, where there are any.
#[tactic(auto, using(pie_files::proofs::Reading::reads, crate::proofs::Asking::own_calls))]
fn end_of_pending<F: Files>(alloc: Global, files: &mut F) -> Result<Pending, FilesError>
    ensures gone { IfSome (F.holds files.old) (λ d. IfOk result (λ p. p ≡ gone_if (is_some (file_at d (codes ".pie/pending"))))) }
    ensures same { F.holds files.new ≡ F.holds files.old }
    ensures crash { LeavesAsBefore F.holds F.moment F.left_since F.images files.old files.new }
    ensures counted { Counted F.faults FilesError.Failed files.old files.new result }
    ensures asks { MakesOwn (F.asked files.old) (F.asked files.new) }
{
    let names = Path::known(alloc, ".pie/pending")?;
    if files.exists(&names)? {
        return Ok(Pending::Drop);
    }
    Ok(Pending::Keep)
}

// The plan of these removals and writes, with this end of the pending names and this text of a store.
fn plan_of(
    alloc: Global,
    removed: &[Path],
    contents: Vec<(Path, Vec<u8>)>,
    pending: Pending,
    store: Vec<u8>,
) -> Result<Plan, OutOfMemory>
    requires removed { list_all is_out removed.now ≡ true }
    requires contents { InPathOrder contents.items }
    ensures plan { IfOk result (λ p. IsPlanOf removed.now contents.items pending store p) }
    ensures sound { IfOk result (λ p. is_sound p ≡ true) }
{
    let removals = copies(alloc, removed)?;
    let plan = Plan::new(alloc, removals, contents, pending, Some(store))?;
    Ok(plan)
}
