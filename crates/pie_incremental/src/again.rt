//! A build that starts afresh after tasks ran.
ghost use Rattle.std.specs.Prelude.{◌≡◌, ◌≤◌, drop, length, All, IfOk, IfSome, OnOk};
ghost use Rattle.pie_build.specs.Crashes.{StaysAtRest};
ghost use Rattle.pie_build.specs.Left.{KeepsRest};
ghost use Rattle.pie_commit.specs.Outcomes.{LeavesFromRest};
ghost use Rattle.pie_incremental.specs.Crashes.{EndsMarked, MarkedBy};
ghost use Rattle.pie_incremental.specs.Kept.{IsOfNames};
ghost use Rattle.pie_incremental.specs.inner.Changes.{bytes_of};
ghost use Rattle.pie_incremental.specs.inner.Crashed.{MayRestart};
ghost use Rattle.pie_value.specs.declared.verdict.Verdict.TheVariants as verdicts;
ghost use Rattle.pie_build.specs.inner.Rebuilt.{IsRefusal, Tells};
ghost use Rattle.pie_value.specs.Canonical.{IsEncodableTask};
ghost use Rattle.pie_incremental.specs.inner.Joined.{KeepsAfter, Treats};
ghost use Rattle.pie_incremental.specs.inner.Marked.{EndsNames, EndsRestart};
ghost use Rattle.pie_incremental.specs.inner.Parts.{Endures, RefusesUnchanged, Retells, TellsAgain};
ghost use Rattle.pie_incremental.specs.inner.Updated.{IsAfreshAfter};
ghost use Rattle.pie_project.specs.Refusals.{IsVerdict};

use crate::cause::put_cause;
use crate::ending::Ending;
use crate::run::{Stop, since};
use pie_base::OutOfMemory;
use pie_build::rebuild;
use pie_files::{Files, FilesError};
use pie_project::BuildError;
use pie_report::Report;
use pie_value::Verdict;
use pie_vm::Runs;
use std::alloc::Global;

/// Builds afresh, for the cause of this stop. All tasks that were started after so many others are reported.
#[tactic(auto, using(crate::proofs::Refusing::never))]
pub(crate) fn again<F: Files>(
    alloc: Global,
    files: &mut F,
    stop: Box<Stop>,
    before: usize,
    runs: &mut Runs,
) -> Result<Report, BuildError>
    requires before { before ≤ length runs.old }
    requires encodable { All IsEncodableTask (drop before runs.old) }
    ensures files { Endures F.holds F.moment F.left_since F.images (MayRestart stop.value.ending.value.own stop.value.ending.value.names.items) (MarkedBy (EndsRestart stop.value.ending.value.own stop.value.ending.value.names.items)) (IsVerdict result) files.old files.new }
    ensures refuses { RefusesUnchanged (F.holds files.old) (F.holds files.new) result }
    ensures names { IfOk result (λ r. Treats stop.value.ending.value.own stop.value.ending.value.names.items r.verdict (F.holds files.old) (F.holds files.new)) }
    ensures afresh { IfSome (F.holds files.old) (λ d. IfOk result (λ r. IsAfreshAfter d r (F.holds files.new) (drop before runs.old))) }
    ensures runs { TellsAgain stop.value.cause before runs.old runs.new result }
    ensures told { Tells F.faults files.old files.new result }
{
    match rebuild(alloc, files, runs) {
        Ok(report) => retell(alloc, files, stop, report, before, runs),
        Err(error) => Err(error),
    }
}

// The report of all tasks that were started, with the cause. A refused build keeps the names.
fn retell<F: Files>(
    alloc: Global,
    files: &mut F,
    stop: Box<Stop>,
    mut report: Report,
    before: usize,
    runs: &Runs,
) -> Result<Report, BuildError>
    requires before { before ≤ length runs.now }
    ensures files { Endures F.holds F.moment F.left_since F.images (IsOfNames stop.value.ending.value.names.items (bytes_of stop.value.ending.value.own.pending)) (MarkedBy (EndsNames stop.value.ending.value.names.items (bytes_of stop.value.ending.value.own.pending))) (IsVerdict result) files.old files.new }
    ensures never { ¬ (IsRefusal result) }
    ensures names { IfOk result (λ r. KeepsAfter report.verdict stop.value.ending.value.own stop.value.ending.value.names.items (F.holds files.old) (F.holds files.new)) }
    ensures quiet { report.verdict ≡ verdicts.Accepted → files.new ≡ files.old }
    ensures verdict { IfOk result (λ r. r.verdict ≡ report.verdict) }
    ensures retold { Retells stop.value.cause (drop before runs.now) report result (λ r. r) }
    ensures told { Tells F.faults files.old files.new result }
{
    match complete(alloc, files, stop, &mut report, before, runs) {
        Ok(()) => Ok(report),
        Err(error) => Err(error),
    }
}

// The report gets all tasks that were started, and the cause. A refused build keeps the names.
fn complete<F: Files>(
    alloc: Global,
    files: &mut F,
    stop: Box<Stop>,
    report: &mut Report,
    before: usize,
    runs: &Runs,
) -> Result<(), BuildError>
    requires before { before ≤ length runs.now }
    ensures files { Endures F.holds F.moment F.left_since F.images (IsOfNames stop.value.ending.value.names.items (bytes_of stop.value.ending.value.own.pending)) (MarkedBy (EndsNames stop.value.ending.value.names.items (bytes_of stop.value.ending.value.own.pending))) (IsVerdict result) files.old files.new }
    ensures never { ¬ (IsRefusal result) }
    ensures names { OnOk result (KeepsAfter report.old.verdict stop.value.ending.value.own stop.value.ending.value.names.items (F.holds files.old) (F.holds files.new)) }
    ensures quiet { report.old.verdict ≡ verdicts.Accepted → files.new ≡ files.old }
    ensures verdict { report.new.verdict ≡ report.old.verdict }
    ensures retold { Retells stop.value.cause (drop before runs.now) report.old result (λ done. report.new) }
    ensures told { Tells F.faults files.old files.new result }
{
    match put_ran(alloc, report, before, runs) {
        Ok(()) => {
            let Stop { cause, ending } = Box::into_inner(stop);
            put_cause(report, cause);
            keep(alloc, files, &ending, &report.verdict)
        }
        Err(OutOfMemory) => Err(BuildError::OutOfMemory),
    }
}

// The report tells the tasks that were started after so many others.
fn put_ran(
    alloc: Global,
    report: &mut Report,
    before: usize,
    runs: &Runs,
) -> Result<(), OutOfMemory>
    requires { before ≤ length runs.now }
    ensures verdict { report.new.verdict ≡ report.old.verdict }
    ensures same { report.new ≡ record report.old { ran = report.new.ran } }
    ensures ran { OnOk result (report.new.ran.items ≡ drop before runs.now) }
{
    let ran = since(alloc, runs, before)?;
    report.ran = ran;
    Ok(())
}

// A refused build keeps the names for the next one.
#[tactic(auto, using(pie_build::proofs::OwnPaths::same_keeps, crate::proofs::Crashing::names_still, crate::proofs::Marking::marked_none, pie_build::proofs::Crashing::rests_none))]
fn keep<F: Files>(
    alloc: Global,
    files: &mut F,
    ending: &Ending,
    verdict: &Verdict,
) -> Result<(), BuildError>
    ensures rest { KeepsRest (F.holds files.old) (F.holds files.new) }
    ensures never { ¬ (IsRefusal result) }
    ensures names { OnOk result (KeepsAfter verdict.now ending.now.own ending.now.names.items (F.holds files.old) (F.holds files.new)) }
    ensures quiet { verdict.now ≡ verdicts.Accepted → files.new ≡ files.old }
    ensures crash { LeavesFromRest F.holds F.moment F.left_since F.images (IsOfNames ending.now.names.items (bytes_of ending.now.own.pending)) files.old files.new }
    ensures marked { EndsMarked F.holds F.images (EndsNames ending.now.names.items (bytes_of ending.now.own.pending)) files.old files.new }
    ensures durable { IsVerdict result → StaysAtRest F.holds F.images files.old files.new }
    ensures told { Tells F.faults files.old files.new result }
{
    match verdict {
        Verdict::Accepted => Ok(()),
        Verdict::Refused(_) => match ending.keep(alloc, files) {
            Ok(()) => Ok(()),
            Err(FilesError::Failed) => Err(BuildError::Files),
            Err(FilesError::OutOfMemory) => Err(BuildError::OutOfMemory),
        },
    }
}
