//! The one call: from the roots to what a build makes of them.
ghost use Rattle.std.specs.Prelude.{◌≡◌, List, [], None, IfOk};
ghost use Rattle.pie_files.specs.Reading.{ReadsOnly};
ghost use Rattle.pie_value.specs.declared.task.Task.{Task};
ghost use Rattle.pie_value.specs.declared.verdict.Verdict.TheVariants.{Refused};
ghost use Rattle.pie_fresh.specs.inner.Ledgers.{AreOpen, EntersAndStarts, IsLedger};
ghost use Rattle.pie_fresh.specs.inner.Frames.{AreEntered, IsIdle};
ghost use Rattle.pie_fresh.specs.inner.Builds.{Gains, IsEmptyWhereRefused, IsKept, IsStoredOf, StoredWhere};
ghost use Rattle.pie_fresh.specs.Cleans.{CleansAs, EvaluatesAs};
ghost use Rattle.pie_fresh.specs.inner.Collected.{CleansDone, PassesChecks};
ghost use Rattle.pie_fresh.specs.inner.Asked.{AsksAs, EvaluatesAsking};

use crate::builder::Builder;
use crate::ledger::Ledger;
use pie_base::OutOfMemory;
use pie_checks::{Built, final_checks};
use pie_code::Checked;
use pie_files::{Files, FilesError};
use pie_types::Typed;
use pie_value::{Refusal, Task, Verdict};
use pie_vm::Runs;
use std::alloc::Global;

/// Evaluates the roots in order up to the first that fails, each entered task once, and tests what they wrote.
/// It changes no file. `Failed` comes only where the count of faults rose.
/// Rule: docs/BUILDING.md, "A clean build".
#[tactic(auto, using(crate::proofs::Growing::gains, pie_files::proofs::Reading::reads))]
pub fn fresh<'a, F: Files>(
    alloc: Global,
    typed: &'a Typed,
    code: &'a [Checked],
    roots: &[Task],
    files: &mut F,
    runs: &mut Runs,
) -> Result<Built, FilesError>
    ensures refused_empty { IfOk result IsEmptyWhereRefused }
    ensures kept { IfOk result IsKept }
    ensures stored { IfOk result (λ b. StoredWhere b.verdict typed.now roots.now b) }
    ensures runs { Gains 50000 runs.old runs.new }
    ensures reads { ReadsOnly F.holds F.moment F.left_since F.images F.faults files.old files.new result }
    ensures clean { IfOk result (CleansAs (F.holds files.old) typed.now code.now roots.now runs.old runs.new) }
    ensures asks { AsksAs (F.holds files.old) typed.now code.now roots.now runs.old runs.new (F.asked files.old) (F.asked files.new) }
{
    let mut builder = Builder::new(alloc, typed, code);
    let refusal = evaluate_all(&mut builder, roots, files, runs)?;
    let _names = builder.ledger.names.as_slice();
    match refusal {
        Some(refusal) => Ok(refused(alloc, refusal)),
        None => Ok(checked(alloc, &mut builder.ledger, roots)?),
    }
}

// Evaluates roots up to the first that fails; why it does.
#[tactic(auto, using(crate::proofs::Walks::evaluates_all, pie_files::proofs::Reading::reads))]
fn evaluate_all<'a, F: Files>(
    builder: &mut Builder<'a>,
    roots: &[Task],
    files: &mut F,
    runs: &mut Runs,
) -> Result<Option<Refusal>, FilesError>
    requires { IsIdle builder.old }
    ensures idle { IfOk result (λ why. why ≡ None → IsIdle builder.new) }
    ensures entered { IfOk result (λ why. why ≡ None → AreEntered builder.new.ledger.names roots.now) }
    ensures typed { builder.new.typed ≡ builder.old.typed }
    ensures started { EntersAndStarts builder.old.ledger.names builder.new.ledger.names runs.old runs.new result }
    ensures reads { ReadsOnly F.holds F.moment F.left_since F.images F.faults files.old files.new result }
    ensures means { IfOk result (λ why. EvaluatesAs (F.holds files.old) builder.old builder.new roots.now why) }
    ensures asks { EvaluatesAsking (F.holds files.old) builder.old roots.now runs.old runs.new (F.asked files.old) (F.asked files.new) }
{
    for root in roots {
        match builder.evaluate(root, files, runs)? {
            Some(refusal) => return Ok(Some(refusal)),
            None => {}
        }
    }
    Ok(None)
}

// What a build makes where all roots are done.
fn checked(alloc: Global, ledger: &mut Ledger, roots: &[Task]) -> Result<Built, OutOfMemory>
    requires ledger { IsLedger ledger.old }
    requires finished { AreOpen ledger.old [] }
    requires entered { AreEntered ledger.old.names roots.now }
    ensures refused_empty { IfOk result IsEmptyWhereRefused }
    ensures kept { IfOk result IsKept }
    ensures stored { IfOk result (IsStoredOf ledger.old.names roots.now) }
    ensures clean { IfOk result (CleansDone roots.now ledger.old) }
{
    let live = ledger.all_numbers()?;
    match final_checks(alloc, &ledger.names, &ledger.records, live.as_slice())? {
        Some(refusal) => Ok(refused(alloc, refusal)),
        None => accepted(ledger, roots),
    }
}

// The files and the outputs come first: then the records are moved out of the ledger.
fn accepted(ledger: &mut Ledger, roots: &[Task]) -> Result<Built, OutOfMemory>
    requires ledger { IsLedger ledger.old }
    requires finished { AreOpen ledger.old [] }
    requires entered { AreEntered ledger.old.names roots.now }
    ensures refused_empty { IfOk result IsEmptyWhereRefused }
    ensures kept { IfOk result IsKept }
    ensures stored { IfOk result (IsStoredOf ledger.old.names roots.now) }
    ensures clean { IfOk result (λ b. PassesChecks ledger.old → CleansDone roots.now ledger.old b) }
{
    let files = ledger.files()?;
    let outputs = ledger.outputs_of(roots)?;
    let rows = ledger.ordered()?;
    Ok(Built {
        verdict: Verdict::Accepted,
        rows,
        files,
        outputs,
    })
}

// A refused build makes nothing.
#[tactic(auto, using(crate::proofs::BuiltLemmas::empty_kept))]
fn refused(alloc: Global, refusal: Refusal) -> Built
    ensures verdict { result.verdict ≡ Refused refusal }
    ensures refused_empty { IsEmptyWhereRefused result }
    ensures kept { IsKept result }
    ensures stored { (tasks : List Task) (roots : List Task) → IsStoredOf tasks roots result }
{
    Built {
        verdict: Verdict::Refused(refusal),
        rows: Vec::new(alloc),
        files: Vec::new(alloc),
        outputs: Vec::new(alloc),
    }
}
