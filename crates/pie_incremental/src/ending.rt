//! How a build by what changed ends.
ghost use Rattle.std.specs.Prelude.{◌≡◌, None, IfSome, IfOk, IsOk, OnOk};
ghost use Rattle.std.specs.Option.{option_copied};
ghost use Rattle.pie_files.specs.Streams.{Counted};
ghost use Rattle.pie_build.specs.Crashes.{StaysAtRest};
ghost use Rattle.pie_build.specs.Left.{KeepsRest};
ghost use Rattle.pie_commit.specs.Outcomes.{LeavesFromRest};
ghost use Rattle.pie_store.specs.Frame.{IsSealed};
ghost use Rattle.pie_value.specs.declared.verdict.Verdict.TheVariants as verdicts;
ghost use Rattle.pie_named.specs.Asking.{MakesOnly};
ghost use Rattle.pie_incremental.specs.inner.Asked.{IsChange};
ghost use Rattle.pie_incremental.specs.Crashes.{EndsMarked, MarkedBy};
ghost use Rattle.pie_incremental.specs.Kept.{IsOfNames, KeepsNames};
ghost use Rattle.pie_incremental.specs.inner.Changes.{bytes_of};
ghost use Rattle.pie_incremental.specs.inner.Cleaned.{LeavesBy, MayLeaveBy};
ghost use Rattle.pie_incremental.specs.inner.Joined.{HasOwn, IsMade, Treats};
ghost use Rattle.pie_incremental.specs.inner.Marked.{EndsBy, EndsNames};
ghost use Rattle.pie_incremental.specs.inner.Parts.{ChangesOnly, Endures, TellsVerdict};

use crate::accepting::{Made, accept};
use crate::{OwnFiles, keep_names};
use pie_base::{OutOfMemory, Path};
use pie_build::refused;
use pie_checks::Built;
use pie_diff::Held;
use pie_files::{Files, FilesError};
use pie_project::Project;
use pie_report::Report;
use pie_value::{Refusal, Task, Verdict};
use std::alloc::Global;

/// What the end of a build by what changed needs.
#[derive(Drop)]
pub(crate) struct Ending {
    pub(crate) own: OwnFiles,
    pub(crate) held: Held,
    /// The names of the list and the pending ones.
    pub(crate) names: Vec<Path>,
}

impl Ending {
    /// The bytes of the pending names, if they were there.
    pub(crate) fn pending(&self) -> Option<&[u8]>
        ensures { option_copied result ≡ bytes_of self.now.own.pending }
    {
        match &self.own.pending {
            Some(bytes) => Some(bytes.as_slice()),
            None => None,
        }
    }

    /// Keeps the names of a refused build for the next one.
    #[tactic(auto, using(crate::proofs::Joining::names_keep))]
    pub(crate) fn keep<F: Files>(&self, alloc: Global, files: &mut F) -> Result<(), FilesError>
        ensures rest { KeepsRest (F.holds files.old) (F.holds files.new) }
        ensures names { IfSome (F.holds files.old) (λ d. HasOwn d self.now.own → OnOk result (KeepsNames self.now.names.items d (F.holds files.new))) }
        ensures crash { LeavesFromRest F.holds F.moment F.left_since F.images (IsOfNames self.now.names.items (bytes_of self.now.own.pending)) files.old files.new }
        ensures asks { MakesOnly IsChange (F.asked files.old) (F.asked files.new) }
        ensures marked { EndsMarked F.holds F.images (EndsNames self.now.names.items (bytes_of self.now.own.pending)) files.old files.new }
        ensures durable { OnOk result (StaysAtRest F.holds F.images files.old files.new) }
        ensures counted { Counted F.faults FilesError.Failed files.old files.new result }
    {
        keep_names(alloc, files, self.names.as_slice(), self.pending())
    }
}

/// Puts into place what was made, and reports it, with the tasks that ran.
pub(crate) fn finish<F: Files>(
    alloc: Global,
    files: &mut F,
    project: &Project,
    ending: &Ending,
    built: Box<Built>,
    ran: Vec<Task>,
) -> Result<Box<Report>, FilesError>
    requires made { IsMade project.now.digests.items project.now.roots.items built.value }
    requires sealed { IsSealed ending.now.own.store.items }
    ensures files { Endures F.holds F.moment F.left_since F.images (MayLeaveBy built.value.verdict ending.now.own ending.now.held project.now.digests.items project.now.roots.items built.value ending.now.names.items) (MarkedBy (EndsBy built.value.verdict ending.now.own ending.now.held project.now.digests.items project.now.roots.items built.value ending.now.names.items)) (IsOk result) files.old files.new }
    ensures left { IfSome (F.holds files.old) (λ d. IfOk result (λ r. LeavesBy built.value.verdict ending.now.own ending.now.held project.now.digests.items project.now.roots.items built.value d r.value (F.holds files.new))) }
    ensures report { TellsVerdict built.value.verdict ran result }
    ensures names { IfOk result (λ r. Treats ending.now.own ending.now.names.items r.value.verdict (F.holds files.old) (F.holds files.new)) }
    ensures calls { ChangesOnly F.asked F.faults files.old files.new result }
{
    let Built {
        verdict,
        rows,
        files: contents,
        outputs,
    } = Box::into_inner(built);
    match verdict {
        Verdict::Accepted => accept(
            alloc,
            files,
            project,
            ending,
            Made {
                rows,
                contents,
                outputs,
            },
            ran,
        ),
        Verdict::Refused(refusal) => refuse(alloc, files, ending, refusal, ran),
    }
}

// Reports a refused build, which keeps the names for the next one. The report is made before the first write.
fn refuse<F: Files>(
    alloc: Global,
    files: &mut F,
    ending: &Ending,
    refusal: Refusal,
    ran: Vec<Task>,
) -> Result<Box<Report>, FilesError>
    ensures files { Endures F.holds F.moment F.left_since F.images (IsOfNames ending.now.names.items (bytes_of ending.now.own.pending)) (MarkedBy (EndsNames ending.now.names.items (bytes_of ending.now.own.pending))) (IsOk result) files.old files.new }
    ensures report { TellsVerdict (verdicts.Refused refusal) ran result }
    ensures names { IfOk result (λ r. Treats ending.now.own ending.now.names.items r.value.verdict (F.holds files.old) (F.holds files.new)) }
    ensures calls { ChangesOnly F.asked F.faults files.old files.new result }
{
    let report = report_of(alloc, refusal, ran)?;
    match ending.keep(alloc, files) {
        Ok(()) => Ok(report),
        Err(error) => Err(error),
    }
}

fn report_of(alloc: Global, refusal: Refusal, ran: Vec<Task>) -> Result<Box<Report>, OutOfMemory>
    ensures verdict { IfOk result (λ r. r.value.verdict ≡ verdicts.Refused refusal) }
    ensures fresh { IfOk result (λ r. r.value.fresh ≡ None) }
    ensures ran { IfOk result (λ r. r.value.ran ≡ ran) }
{
    let report = Box::new(alloc, refused(alloc, refusal, ran))?;
    Ok(report)
}
