//! An accepted build put into place.
ghost use Rattle.std.specs.Prelude.{◌≡◌, [], true, false, None, is_some, IfNone, IfOk, IfSome, OnOk, IsOk};
ghost use Rattle.pie_build.specs.Left.{KeepsRest};
ghost use Rattle.pie_build.specs.Stored.{MayStand};
ghost use Rattle.pie_commit.specs.Outcomes.{HasBrought, IsDone};
ghost use Rattle.pie_commit.specs.inner.Plans.{is_empty, is_sound, wanted_by};
ghost use Rattle.pie_files.specs.Reading.{ReadsOnly};
ghost use Rattle.pie_files.specs.Streams.{Counted};
ghost use Rattle.pie_incremental.specs.Own.{IsClosed};
ghost use Rattle.pie_incremental.specs.inner.Cleaned.{HasParts, IsPlanFor, TellsPlan};
ghost use Rattle.pie_incremental.specs.inner.Joined.{ChangesOut, IsDrafted};
ghost use Rattle.pie_incremental.specs.inner.Plans.{HasChanged};
ghost use Rattle.pie_results.specs.inner.Files.{InPathOrder};
ghost use Rattle.pie_store.specs.Frame.{IsSealed};
ghost use Rattle.pie_store.specs.Texts.{IsStoreText};
ghost use Rattle.pie_value.specs.declared.verdict.Verdict.TheVariants as verdicts;
ghost use Rattle.pie_topdown_build.specs.inner.Bases.{IsSealedIf};
ghost use Rattle.pie_topdown_build.specs.inner.Cleaned.{HoldsBy, IsOwnOf, LeavesWhere, PutsAnew, PutsWhere};
ghost use Rattle.pie_topdown_build.specs.inner.Crashes.{Endures, EndsPut, EndsWhere};
ghost use Rattle.pie_topdown_build.specs.inner.Said.{CanPut, Stays, Stores, TellsVerdict};
ghost use Rattle.pie_topdown_build.specs.inner.Stored.{IsBegunFrom, IsStoreOrNone};

use crate::held::{held_beside, held_under_out, is_pending};
use pie_base::{OutOfMemory, Path, Text};
use pie_build::{accepted, copies, copies_of_tasks, paths_of};
use pie_commit::{Plan, commit};
use pie_diff::Held;
use pie_files::{Files, FilesError};
use pie_incremental::{OwnFiles, changes_plan};
use pie_project::Project;
use pie_record::TaskRecord;
use pie_report::Report;
use pie_store::{Funcs, Rows, StoreImage, encode_store_after};
use pie_value::{Task, Tasks, Value};
use std::alloc::Global;

/// What an accepted build has made.
#[derive(Drop)]
pub(crate) struct Made {
    /// The records of the live tasks in store order.
    pub(crate) rows: Vec<TaskRecord>,
    /// The files of those that ran or were reused.
    pub(crate) contents: Vec<(Path, Vec<u8>)>,
    /// The output of each root.
    pub(crate) outputs: Vec<(Task, Value)>,
}

/// Writes and removes what isn't as it was made, and reports it. Where there was no store to build from, it writes all. The plan and the report are made
/// before the first write.
pub(crate) fn accept<F: Files>(
    alloc: Global,
    files: &mut F,
    project: &Project,
    store: Option<Vec<u8>>,
    made: Made,
    ran: Vec<Task>,
) -> Result<Box<Report>, FilesError>
    requires made { CanPut project.now made }
    requires sealed { IsSealedIf store }
    ensures stays { Stays F.holds F.moment F.left_since F.images (EndsWhere store project.now.digests.items project.now.roots.items made.rows.items made.contents.items) (IsOk result) files.old files.new }
    ensures left { IfSome (F.holds files.old) (λ d. IfOk result (λ r. LeavesWhere store project.now.digests.items project.now.roots.items made.rows.items made.contents.items made.outputs.items d r.value (F.holds files.new))) }
    ensures stores { Stores verdicts.Accepted (IsBegunFrom store) project.now.digests.items made.rows.items (F.holds files.old) (F.holds files.new) result }
    ensures report { TellsVerdict verdicts.Accepted ran result }
    ensures counted { Counted F.faults FilesError.Failed files.old files.new result }
{
    let held = held_now(alloc, files, &store, made.contents.as_slice())?;
    let own = own_files(alloc, files, store)?;
    put_into_place(alloc, files, project, &own, &held, made, ran)
}

// What stands under `out/`. Where there was no store, what is to be written counts as not there.
#[tactic(auto, using(pie_files::proofs::Reading::reads))]
fn held_now<F: Files>(
    alloc: Global,
    files: &mut F,
    store: &Option<Vec<u8>>,
    contents: &[(Path, Vec<u8>)],
) -> Result<Held, FilesError>
    ensures held { IfSome (F.holds files.old) (λ d. IfOk result (λ held. HoldsBy store.now contents.now held d)) }
    ensures reads { ReadsOnly F.holds F.moment F.left_since F.images F.faults files.old files.new result }
{
    match store {
        Some(_) => held_under_out(alloc, files),
        None => held_beside(alloc, files, contents),
    }
}

// The builder's own files.
#[tactic(auto, using(pie_files::proofs::Reading::reads))]
fn own_files<F: Files>(
    alloc: Global,
    files: &mut F,
    store: Option<Vec<u8>>,
) -> Result<OwnFiles, FilesError>
    ensures own { IfSome (F.holds files.old) (λ d. IfOk result (IsOwnOf store d)) }
    ensures some { IfOk result (λ own. IfSome store (λ text. own.store ≡ text)) }
    ensures none { IfOk result (λ own. IfNone store (own.store.items ≡ [])) }
    ensures reads { ReadsOnly F.holds F.moment F.left_since F.images F.faults files.old files.new result }
{
    let pending = is_pending(alloc, files)?;
    Ok(own_with(alloc, store, pending))
}

// The same, where it is known whether names are pending. Their bytes aren't asked for.
fn own_with(alloc: Global, store: Option<Vec<u8>>, pending: bool) -> OwnFiles
    ensures store { IfSome store (λ text. result.store ≡ text) }
    ensures none { IfNone store (result.store.items ≡ []) }
    ensures pending { is_some result.pending ≡ pending }
{
    let store = match store {
        Some(text) => text,
        None => Vec::new(alloc),
    };
    let pending = if pending { Some(Vec::new(alloc)) } else { None };
    OwnFiles { store, pending }
}

// The same with what is held.
fn put_into_place<F: Files>(
    alloc: Global,
    files: &mut F,
    project: &Project,
    own: &OwnFiles,
    held: &Held,
    made: Made,
    ran: Vec<Task>,
) -> Result<Box<Report>, FilesError>
    requires made { CanPut project.now made }
    requires sealed { IsSealed own.now.store.items }
    ensures stays { Stays F.holds F.moment F.left_since F.images (EndsPut own.now held.now project.now.digests.items project.now.roots.items made.rows.items made.contents.items) (IsOk result) files.old files.new }
    ensures anew { IfSome (F.holds files.old) (λ d. IfOk result (λ r. PutsAnew own.now held.now project.now.digests.items project.now.roots.items made.rows.items made.contents.items made.outputs.items d r.value (F.holds files.new))) }
    ensures left { IfSome (F.holds files.old) (λ d. IfOk result (λ r. PutsWhere own.now held.now project.now.digests.items project.now.roots.items made.rows.items made.contents.items made.outputs.items d r.value (F.holds files.new))) }
    ensures stores { Stores verdicts.Accepted (IsStoreOrNone own.now.store.items) project.now.digests.items made.rows.items (F.holds files.old) (F.holds files.new) result }
    ensures report { TellsVerdict verdicts.Accepted ran result }
    ensures counted { Counted F.faults FilesError.Failed files.old files.new result }
{
    let Made {
        rows,
        contents,
        outputs,
    } = made;
    let live = rows.len();
    let image = image_of(alloc, project, rows)?;
    let plan = plan_of(alloc, own, held, &image, contents)?;
    let report = report_of(alloc, &plan, live, ran, outputs)?;
    commit_then(files, &plan, report)
}

// Commits a plan, and then hands the report on.
#[tactic(auto, using(pie_incremental::proofs::Joining::out_keeps))]
fn commit_then<F: Files>(
    files: &mut F,
    plan: &Plan,
    report: Box<Report>,
) -> Result<Box<Report>, FilesError>
    requires sound { is_sound plan.now ≡ true }
    requires changes { ChangesOut plan.now }
    ensures rest { KeepsRest (F.holds files.old) (F.holds files.new) }
    ensures done { IfSome (F.holds files.old) (λ d. IsClosed d → OnOk result (HasChanged plan.now d (F.holds files.new))) }
    ensures brought { is_empty plan.now ≡ false → OnOk result (HasBrought (wanted_by plan.now) (F.holds files.old) (F.holds files.new)) }
    ensures crash { Endures F.holds F.moment F.left_since F.images (IsDone plan.now) (IsOk result) files.old files.new }
    ensures report { IfOk result (λ r. r ≡ report) }
    ensures counted { Counted F.faults FilesError.Failed files.old files.new result }
{
    match commit(files, plan) {
        Ok(()) => Ok(report),
        Err(error) => Err(error),
    }
}

// What the store is to say.
#[tactic(auto, using(pie_incremental::proofs::Storing::drafts))]
fn image_of(
    alloc: Global,
    project: &Project,
    rows: Vec<TaskRecord>,
) -> Result<Box<StoreImage>, OutOfMemory>
    requires { MayStand project.now.digests.items project.now.roots.items rows.items }
    ensures drafted { IfOk result (λ image. IsDrafted image.value) }
    ensures parts { IfOk result (λ image. HasParts project.now.digests.items project.now.roots.items rows.items image.value) }
{
    let funcs = copies_of_funcs(alloc, project.digests.as_slice())?;
    let roots = copies_of_tasks(alloc, project.roots.as_slice())?;
    let image = StoreImage {
        version: 2,
        pipeline: None,
        funcs: Funcs::new(funcs),
        roots: Tasks::new(roots),
        rows: Rows::new(rows),
    };
    let image = Box::new(alloc, image)?;
    Ok(image)
}

// Functions with their digests, in a list of their own.
fn copies_of_funcs(
    alloc: Global,
    digests: &[(Text, [u8; 32])],
) -> Result<Vec<(Text, [u8; 32])>, OutOfMemory>
    ensures { IfOk result (λ copied. copied.items ≡ digests.now) }
{
    let mut copied = Vec::new(alloc);
    for (name, digest) in digests {
        copied.push((name.copy()?, *digest))?;
    }
    Ok(copied)
}

// The plan of an accepted build.
fn plan_of(
    alloc: Global,
    own: &OwnFiles,
    held: &Held,
    image: &StoreImage,
    contents: Vec<(Path, Vec<u8>)>,
) -> Result<Box<Plan>, OutOfMemory>
    requires image { IsDrafted image.now }
    requires contents { InPathOrder contents.items }
    requires sealed { IsSealed own.now.store.items }
    ensures sound { IfOk result (λ p. is_sound p.value ≡ true) }
    ensures changes { IfOk result (λ p. ChangesOut p.value) }
    ensures plan { IfOk result (λ p. IsPlanFor own.now held.now image.now contents.items p.value) }
{
    let text = text_of(alloc, image, own.store.as_slice())?;
    let plan = changes_plan(alloc, own, held, image.rows.as_slice(), contents, text)?;
    let plan = Box::new(alloc, plan)?;
    Ok(plan)
}

// The text of the store, after this one. Where the number of roots has more than 32 bits, it is out of memory.
#[tactic(auto, using(pie_incremental::proofs::Storing::drafted_storable))]
fn text_of(alloc: Global, image: &StoreImage, before: &[u8]) -> Result<Vec<u8>, OutOfMemory>
    requires image { IsDrafted image.now }
    requires before { IsSealed before.now }
    ensures { IfOk result (λ text. IsStoreText image.now text.items) }
{
    let roots = image.roots.as_slice();
    if roots.len() > u32::MAX as usize {
        return Err(OutOfMemory);
    }
    encode_store_after(alloc, image, before)
}

// What is reported of an accepted build.
fn report_of(
    alloc: Global,
    plan: &Plan,
    live: usize,
    ran: Vec<Task>,
    outputs: Vec<(Task, Value)>,
) -> Result<Box<Report>, OutOfMemory>
    ensures verdict { IfOk result (λ r. r.value.verdict ≡ verdicts.Accepted) }
    ensures fresh { IfOk result (λ r. r.value.fresh ≡ None) }
    ensures ran { IfOk result (λ r. r.value.ran ≡ ran) }
    ensures tells { IfOk result (λ r. TellsPlan plan.now live outputs.items r.value) }
{
    let wrote = paths_of(alloc, plan.writes.as_slice())?;
    let removed = copies(alloc, plan.removals.as_slice())?;
    let report = accepted(live, ran, wrote, removed, outputs)?;
    let report = Box::new(alloc, report)?;
    Ok(report)
}
