//! The end of a build: what it made is put into place and reported.
ghost use Rattle.std.specs.Prelude.{◌≡◌, ◌≤◌, true, false, length, drop, All, None, IfOk, IfSome, IsOk, IsTrue};
ghost use Rattle.pie_files.specs.Streams.{Counted};
ghost use Rattle.pie_incremental.specs.inner.Joined.{IsMade};
ghost use Rattle.pie_value.specs.Canonical.{IsEncodableTask};
ghost use Rattle.pie_value.specs.Limits.{is_small_task};
ghost use Rattle.pie_value.specs.declared.verdict.Verdict.TheVariants as verdicts;
ghost use Rattle.pie_topdown_build.specs.inner.Bases.{IsSealedIf, Quiet};
ghost use Rattle.pie_topdown_build.specs.inner.Cleaned.{LeavesBy};
ghost use Rattle.pie_topdown_build.specs.inner.Crashes.{EndsBy};
ghost use Rattle.pie_topdown_build.specs.inner.Said.{Stays, Stores, TellsVerdict};
ghost use Rattle.pie_topdown_build.specs.inner.Stored.{IsBegunFrom};

use crate::accepting::{Made, accept};
use pie_base::OutOfMemory;
use pie_build::{copies_of_tasks, refused};
use pie_checks::Built;
use pie_files::{Files, FilesError};
use pie_project::Project;
use pie_report::Report;
use pie_value::{Refusal, Task, Verdict};
use pie_vm::Runs;
use std::alloc::Global;

/// Puts an accepted build into place, and reports it.
#[tactic(auto, using(pie_build::proofs::OwnPaths::same_keeps, crate::proofs::Saying::stays_none, crate::proofs::Saying::stores_refused, crate::proofs::Saying::stores_fault))]
pub(crate) fn finish<F: Files>(
    alloc: Global,
    files: &mut F,
    project: &Project,
    store: Option<Vec<u8>>,
    built: Box<Built>,
    ran: Vec<Task>,
) -> Result<Box<Report>, FilesError>
    requires made { IsMade project.now.digests.items project.now.roots.items built.value }
    requires sealed { IsSealedIf store }
    ensures stays { Stays F.holds F.moment F.left_since F.images (EndsBy built.value.verdict store project.now.digests.items project.now.roots.items built.value) (IsOk result) files.old files.new }
    ensures quiet { IfOk result (λ r. Quiet r.value.verdict (F.holds files.old) (F.holds files.new)) }
    ensures left { IfSome (F.holds files.old) (λ d. IfOk result (λ r. LeavesBy built.value.verdict store project.now.digests.items project.now.roots.items built.value d r.value (F.holds files.new))) }
    ensures stores { Stores built.value.verdict (IsBegunFrom store) project.now.digests.items built.value.rows.items (F.holds files.old) (F.holds files.new) result }
    ensures report { TellsVerdict built.value.verdict ran result }
    ensures counted { Counted F.faults FilesError.Failed files.old files.new result }
{
    let Built {
        verdict,
        rows,
        files: contents,
        outputs,
    } = Box::into_inner(built);
    match verdict {
        Verdict::Accepted => accept(
            alloc,
            files,
            project,
            store,
            Made {
                rows,
                contents,
                outputs,
            },
            ran,
        ),
        Verdict::Refused(refusal) => Ok(refused_report(alloc, refusal, ran)?),
    }
}

fn refused_report(
    alloc: Global,
    refusal: Refusal,
    ran: Vec<Task>,
) -> Result<Box<Report>, OutOfMemory>
    ensures verdict { IfOk result (λ r. r.value.verdict ≡ verdicts.Refused refusal) }
    ensures fresh { IfOk result (λ r. r.value.fresh ≡ None) }
    ensures ran { IfOk result (λ r. r.value.ran ≡ ran) }
{
    let report = Box::new(alloc, refused(alloc, refusal, ran))?;
    Ok(report)
}

/// The tasks that were started after so many others.
pub(crate) fn since(alloc: Global, runs: &Runs, before: usize) -> Result<Vec<Task>, OutOfMemory>
    requires { before ≤ length runs.now }
    ensures { IfOk result (λ ran. ran.items ≡ drop before runs.now) }
{
    let ran = copies_of_tasks(alloc, &runs.tasks()[before..])?;
    Ok(ran)
}

/// Whether each root is within the limits of values.
#[tactic(auto, using(pie_incremental::proofs::Joining::none_small, pie_incremental::proofs::Joining::small_more, pie_incremental::proofs::Joining::all_small, pie_incremental::proofs::Joining::one_large))]
pub(crate) fn are_small(roots: &[Task]) -> bool
    ensures encodable { IsTrue result → All IsEncodableTask roots.now }
    ensures large { result ≡ false → ¬ (All (λ t. is_small_task t ≡ true) roots.now) }
{
    for root in roots {
        if !root.is_small() {
            return false;
        }
    }
    true
}
