//! An accepted build by what changed, put into place.
ghost use Rattle.std.specs.Prelude.{◌≡◌, true, None, IfSome, IfOk, IsOk, OnOk};
ghost use Rattle.pie_commit.specs.Outcomes.{LeavesMarked};
ghost use Rattle.pie_commit.specs.inner.Plans.{is_sound};
ghost use Rattle.pie_build.specs.Stored.{MayStand};
ghost use Rattle.pie_results.specs.inner.Files.{InPathOrder};
ghost use Rattle.pie_store.specs.Frame.{IsSealed};
ghost use Rattle.pie_store.specs.Texts.{IsStoreText};
ghost use Rattle.pie_value.specs.declared.verdict.Verdict.TheVariants as verdicts;
ghost use Rattle.pie_incremental.specs.Crashes.{MarkedBy};
ghost use Rattle.pie_incremental.specs.Own.{IsClosed};
ghost use Rattle.pie_incremental.specs.inner.Joined.{ChangesOut, Clears, IsDrafted, Treats};
ghost use Rattle.pie_incremental.specs.inner.Cleaned.{HasParts, IsPlanFor, LeavesWhere, MayLeave, TellsPlan};
ghost use Rattle.pie_incremental.specs.inner.Marked.{EndsAccepted};
ghost use Rattle.pie_incremental.specs.inner.Parts.{ChangesOnly, Endures, TellsVerdict};
ghost use Rattle.pie_incremental.specs.inner.Plans.{HasChanged, MayPlace, Places};

use crate::ending::Ending;
use crate::{changes_plan, commit_plan, digests};
use pie_base::{OutOfMemory, Path};
use pie_build::{accepted, copies, copies_of_tasks, paths_of};
use pie_commit::Plan;
use pie_files::{Files, FilesError};
use pie_project::Project;
use pie_record::TaskRecord;
use pie_report::Report;
use pie_store::{Funcs, Rows, StoreImage, encode_store_after};
use pie_value::{Task, Tasks, Value};
use std::alloc::Global;

/// What an accepted build has made.
#[derive(Drop)]
pub(crate) struct Made {
    /// The records of the live tasks in store order.
    pub(crate) rows: Vec<TaskRecord>,
    /// The files of those that ran.
    pub(crate) contents: Vec<(Path, Vec<u8>)>,
    /// The output of each root.
    pub(crate) outputs: Vec<(Task, Value)>,
}

/// Writes and removes what changed, and reports it. The plan and the report are made before the first write.
pub(crate) fn accept<F: Files>(
    alloc: Global,
    files: &mut F,
    project: &Project,
    ending: &Ending,
    made: Made,
    ran: Vec<Task>,
) -> Result<Box<Report>, FilesError>
    requires rows { MayStand project.now.digests.items project.now.roots.items made.rows.items }
    requires contents { InPathOrder made.contents.items }
    requires sealed { IsSealed ending.now.own.store.items }
    ensures files { Endures F.holds F.moment F.left_since F.images (MayLeave ending.now.own ending.now.held project.now.digests.items project.now.roots.items made.rows.items made.contents.items) (MarkedBy (EndsAccepted ending.now.own ending.now.held project.now.digests.items project.now.roots.items made.rows.items made.contents.items)) (IsOk result) files.old files.new }
    ensures left { IfSome (F.holds files.old) (λ d. IfOk result (λ r. LeavesWhere ending.now.own ending.now.held project.now.digests.items project.now.roots.items made.rows.items made.contents.items made.outputs.items d r.value (F.holds files.new))) }
    ensures report { TellsVerdict verdicts.Accepted ran result }
    ensures names { IfOk result (λ r. Treats ending.now.own ending.now.names.items r.value.verdict (F.holds files.old) (F.holds files.new)) }
    ensures calls { ChangesOnly F.asked F.faults files.old files.new result }
{
    let Made {
        rows,
        contents,
        outputs,
    } = made;
    let live = rows.len();
    let image = image_of(alloc, project, rows)?;
    let plan = plan_of(alloc, ending, &image, contents)?;
    let report = report_of(alloc, &plan, live, ran, outputs)?;
    commit_then(files, &plan, report)
}

// Commits a plan, and then hands the report on.
fn commit_then<F: Files>(
    files: &mut F,
    plan: &Plan,
    report: Box<Report>,
) -> Result<Box<Report>, FilesError>
    requires sound { is_sound plan.now ≡ true }
    requires changes { ChangesOut plan.now }
    ensures files { Endures F.holds F.moment F.left_since F.images (MayPlace plan.now) (LeavesMarked plan.now) (IsOk result) files.old files.new }
    ensures done { IfSome (F.holds files.old) (λ d. IsClosed d → OnOk result (HasChanged plan.now d (F.holds files.new))) }
    ensures places { IfSome (F.holds files.old) (λ d. OnOk result (Places plan.now d (F.holds files.new))) }
    ensures report { IfOk result (λ r. r ≡ report) }
    ensures calls { ChangesOnly F.asked F.faults files.old files.new result }
{
    match commit_plan(files, plan) {
        Ok(()) => Ok(report),
        Err(error) => Err(error),
    }
}

// What the store is to say.
fn image_of(
    alloc: Global,
    project: &Project,
    rows: Vec<TaskRecord>,
) -> Result<Box<StoreImage>, OutOfMemory>
    requires { MayStand project.now.digests.items project.now.roots.items rows.items }
    ensures drafted { IfOk result (λ image. IsDrafted image.value) }
    ensures parts { IfOk result (λ image. HasParts project.now.digests.items project.now.roots.items rows.items image.value) }
{
    let funcs = digests::copies(alloc, project.digests.as_slice())?;
    let roots = copies_of_tasks(alloc, project.roots.as_slice())?;
    let image = StoreImage {
        version: 2,
        pipeline: None,
        funcs: Funcs::new(funcs),
        roots: Tasks::new(roots),
        rows: Rows::new(rows),
    };
    let image = Box::new(alloc, image)?;
    Ok(image)
}

// The plan of an accepted build.
fn plan_of(
    alloc: Global,
    ending: &Ending,
    image: &StoreImage,
    contents: Vec<(Path, Vec<u8>)>,
) -> Result<Box<Plan>, OutOfMemory>
    requires image { IsDrafted image.now }
    requires contents { InPathOrder contents.items }
    requires sealed { IsSealed ending.now.own.store.items }
    ensures sound { IfOk result (λ p. is_sound p.value ≡ true) }
    ensures changes { IfOk result (λ p. ChangesOut p.value) }
    ensures clears { IfOk result (λ p. Clears ending.now.own p.value) }
    ensures plan { IfOk result (λ p. IsPlanFor ending.now.own ending.now.held image.now contents.items p.value) }
{
    let text = text_of(alloc, image, ending.own.store.as_slice())?;
    let plan = changes_plan(
        alloc,
        &ending.own,
        &ending.held,
        image.rows.as_slice(),
        contents,
        text,
    )?;
    let plan = Box::new(alloc, plan)?;
    Ok(plan)
}

// The text of the store, after this one. Where the number of roots has more than 32 bits, it is out of memory.
fn text_of(alloc: Global, image: &StoreImage, before: &[u8]) -> Result<Vec<u8>, OutOfMemory>
    requires image { IsDrafted image.now }
    requires before { IsSealed before.now }
    ensures { IfOk result (λ text. IsStoreText image.now text.items) }
{
    let roots = image.roots.as_slice();
    if roots.len() > u32::MAX as usize {
        return Err(OutOfMemory);
    }
    encode_store_after(alloc, image, before)
}

// What is reported of an accepted build.
fn report_of(
    alloc: Global,
    plan: &Plan,
    live: usize,
    ran: Vec<Task>,
    outputs: Vec<(Task, Value)>,
) -> Result<Box<Report>, OutOfMemory>
    ensures verdict { IfOk result (λ r. r.value.verdict ≡ verdicts.Accepted) }
    ensures fresh { IfOk result (λ r. r.value.fresh ≡ None) }
    ensures ran { IfOk result (λ r. r.value.ran ≡ ran) }
    ensures tells { IfOk result (λ r. TellsPlan plan.now live outputs.items r.value) }
{
    let wrote = paths_of(alloc, plan.writes.as_slice())?;
    let removed = copies(alloc, plan.removals.as_slice())?;
    let report = accepted(live, ran, wrote, removed, outputs)?;
    let report = Box::new(alloc, report)?;
    Ok(report)
}
