//! The one call: from the roots and the records of the build before to what a build makes.
ghost use Rattle.std.specs.Prelude.{◌≡◌, ◌≤◌, All, IfOk, OnOk};
ghost use Rattle.pie_checks.specs.declared.built.Built.{Built};
ghost use Rattle.pie_files.specs.Reading.{ReadsOnly};
ghost use Rattle.pie_graph.specs.Numbers.{numbers};
ghost use Rattle.pie_record.specs.Canonical.{IsStorable};
ghost use Rattle.pie_results.specs.inner.Made.{IsEmptyWhereRefused, IsKept};
ghost use Rattle.pie_store.specs.Canonical.{AreInOrder};
ghost use Rattle.pie_tables.specs.Tabled.{IsTables};
ghost use Rattle.pie_value.specs.Canonical.{IsEncodableTask};
ghost use Rattle.pie_value.specs.declared.verdict.Verdict.TheVariants.{Refused};
ghost use Rattle.pie_topdown_result_laws.specs.Builds.{MakesClean};
ghost use Rattle.pie_topdown.specs.inner.Ended.{IsMadeFor, StoredIf};
ghost use Rattle.pie_topdown.specs.inner.Filed.{MakesFiles, MakesFilesOf};
ghost use Rattle.pie_topdown.specs.inner.Frames.{IsSite};
ghost use Rattle.pie_topdown.specs.inner.Ran.{AddsNamed, AddsOne, RunsForReasons};
ghost use Rattle.pie_topdown.specs.inner.Rooted.{AreOldTables, IsPlanOf, IsProgram, IsUnbegun, MakesSettled};
ghost use Rattle.pie_topdown.specs.inner.Roots.{AreSettled, Started, StartsAndReuses};
ghost use Rattle.pie_topdown.specs.inner.Settled.{CanSettleFrom};
ghost use Rattle.pie_topdown.specs.inner.Turns.{room, StartsOne};
ghost use Rattle.pie_topdown.specs.inner.Unoffered.{OffersNothing};

use crate::builder::Builder;
use crate::ledger::Ledger;
use crate::plan::Plan;
use pie_base::{MAX_TASKS, OutOfMemory, Text};
use pie_checks::Built;
use pie_code::Checked;
use pie_files::{Files, FilesError};
use pie_graph::TaskNo;
use pie_named::Named;
use pie_old::{Loaded, Old, digests_of, load, same_code};
use pie_record::{Records, TaskNames};
use pie_results::results;
use pie_store::{Funcs, Offers, Rows, StoreImage};
use pie_tables::Tables;
use pie_types::Typed;
use pie_value::{Refusal, Task, Verdict};
use pie_view::Stage;
use pie_vm::Runs;
use std::alloc::Global;

/// Settles the roots in order up to the first that fails, from the records of an earlier build. A record is kept where its function has one of these
/// digests and what it wrote and observed is there as it was recorded; else the first of its offers that stands is kept, and the task is added to the
/// reused ones; else its task runs. It changes no file. `Failed` comes only where the count of faults rose. The tasks that are started are added to
/// the runs. The files are those of the live tasks that ran or were reused. What is made is what a clean build makes, where the records are those of an
/// earlier build's store, and honest ones are offered; and in an accepted build exactly those run or are reused, each once, that have a reason to run.
/// Rule: docs/BUILDING.md, "A build without a list".
#[tactic(auto, using(pie_files::proofs::Reading::reads))]
pub fn topdown<F: Files, O: Offers>(
    alloc: Global,
    typed: &Typed,
    code: &[Checked],
    digests: &[(Text, [u8; 32])],
    image: StoreImage,
    roots: &[Task],
    offers: &mut O,
    files: &mut F,
    runs: &mut Runs,
    reused: &mut Vec<Task>,
) -> Result<Built, FilesError>
    requires { CanSettleFrom image.rows roots.now }
    ensures made { IfOk result (IsMadeFor typed.now roots.now) }
    ensures tasks { StartsAndReuses runs.old runs.new reused.old.items reused.new.items }
    ensures reads { ReadsOnly F.holds F.moment F.left_since F.images F.faults files.old files.new result }
    ensures clean { IsProgram typed.now code.now image.rows
        → IfOk result (MakesClean (F.holds files.old) typed.now image.funcs digests.now image.rows (O.told offers.old) roots.now) }
    ensures none { OffersNothing (F.holds files.old) (O.told offers.old) → OnOk result (reused.new.items ≡ reused.old.items) }
    ensures ran { IsProgram typed.now code.now image.rows
        → IfOk result (λ b. RunsForReasons (F.holds files.old) typed.now image.funcs digests.now image.rows (O.told offers.old) roots.now runs.old runs.new
        reused.old.items reused.new.items b.verdict) }
    ensures files { IsProgram typed.now code.now image.rows
        → IfOk result (λ b. MakesFilesOf (F.holds files.old) typed.now image.funcs digests.now image.rows (O.told offers.old) roots.now runs.old runs.new
        reused.old.items reused.new.items b) }
{
    let mut builder = begun(alloc, typed, code, digests, image)?;
    let why = builder.settle_all(roots, offers, files, runs)?;
    builder.tell_reused(reused)?;
    match why {
        Some(refusal) => Ok(refused(alloc, refusal)),
        None => {
            let built = builder.built(roots)?;
            Ok(built)
        }
    }
}

// A build of this pipeline in which nothing was entered.
fn begun<'a>(
    alloc: Global,
    typed: &'a Typed,
    code: &'a [Checked],
    digests: &[(Text, [u8; 32])],
    image: StoreImage,
) -> Result<Box<Builder<'a>>, OutOfMemory>
    requires storable { All IsStorable image.rows }
    requires order { AreInOrder image.rows }
    ensures site { IfOk result (λ b. IsSite b.value) }
    ensures room { IfOk result (λ b. room b.value ≤ MAX_TASKS) }
    ensures typed { IfOk result (λ b. b.value.plan.typed.now ≡ typed.now) }
    ensures plan { IfOk result (λ b. IsPlanOf typed.now code.now image.funcs digests.now image.rows b.value.plan) }
    ensures unbegun { IfOk result (λ b. IsUnbegun b.value) }
{
    let StoreImage { funcs, rows, .. } = image;
    let plan = plan_of(alloc, typed, code, digests, funcs, rows)?;
    let ledger = Ledger::new(alloc)?;
    let builder = Builder {
        alloc,
        plan,
        ledger,
        stage: Stage::new(alloc),
        named: Named::new(alloc),
        stack: Vec::new(alloc),
        failure: None,
        reused: Vec::new(alloc),
    };
    let builder = Box::new(alloc, builder)?;
    Ok(builder)
}

// What a build is of.
fn plan_of<'a>(
    alloc: Global,
    typed: &'a Typed,
    code: &'a [Checked],
    digests: &[(Text, [u8; 32])],
    funcs: Funcs,
    rows: Rows,
) -> Result<Plan<'a>, OutOfMemory>
    requires storable { All IsStorable rows }
    requires order { AreInOrder rows }
    ensures earlier { IfOk result (λ p. IsTables p.earlier) }
    ensures typed { IfOk result (λ p. p.typed.now ≡ typed.now) }
    ensures plan { IfOk result (IsPlanOf typed.now code.now funcs digests.now rows) }
{
    let earlier = earlier_of(alloc, rows)?;
    let same = same_code(alloc, earlier.names.as_slice(), funcs.as_slice(), digests)?;
    let digests = digests_of(alloc, digests)?;
    Ok(Plan {
        typed,
        code,
        digests,
        earlier,
        same,
    })
}

// The tasks of the build before with their records. Where there are more than a build may have, as no build leaves them, they count as none.
fn earlier_of(alloc: Global, rows: Rows) -> Result<Tables, OutOfMemory>
    requires storable { All IsStorable rows }
    requires order { AreInOrder rows }
    ensures tables { IfOk result IsTables }
    ensures old { IfOk result (AreOldTables rows) }
{
    match load(alloc, rows)? {
        Loaded::Whole(old) => {
            let Old { tables, .. } = old;
            Ok(tables)
        }
        Loaded::Many(_) => {
            let tables = Tables::new(alloc, TaskNames::new(alloc), Records::new(alloc))?;
            Ok(tables)
        }
    }
}

impl<'a> Builder<'a> {
    // Adds the tasks that were reused to a list.
    fn tell_reused(&self, reused: &mut Vec<Task>) -> Result<(), OutOfMemory>
        ensures started { Started reused.old.items reused.new.items }
        ensures named { OnOk result (AddsNamed self.now (numbers self.now.reused.items) reused.old.items reused.new.items) }
    {
        for no in &self.reused {
            self.tell(*no, reused)?;
        }
        Ok(())
    }

    // Adds an entered task to a list.
    #[tactic(auto, using(crate::proofs::Naming::named_encodable))]
    fn tell(&self, no: TaskNo, tasks: &mut Vec<Task>) -> Result<(), OutOfMemory>
        ensures started { StartsOne tasks.old.items tasks.new.items }
        ensures named { OnOk result (AddsOne self.now no.0 tasks.old.items tasks.new.items) }
    {
        let names = self.ledger.tables.names.as_slice();
        if (no.0 as usize) < names.len() {
            tasks.push(self.ledger.tables.names.task(no).copy()?)?;
        }
        Ok(())
    }

    // What is made where all roots have outputs.
    #[tactic(auto, using(crate::proofs::Making::ledger_acyclic))]
    fn built(&mut self, roots: &[Task]) -> Result<Built, OutOfMemory>
        requires site { IsSite self.old }
        requires roots { All IsEncodableTask roots.now }
        requires settled { AreSettled self.old.ledger roots.now }
        ensures refused_empty { IfOk result IsEmptyWhereRefused }
        ensures kept { IfOk result IsKept }
        ensures stored { IfOk result (λ b. StoredIf b.verdict self.old.plan.typed.now roots.now b) }
        ensures clean { IfOk result (MakesSettled self.old roots.now) }
        ensures files { IfOk result (MakesFiles self.old) }
    {
        let _names = self.ledger.tables.names.as_slice();
        let built = results(
            self.alloc,
            &mut self.ledger.tables,
            &self.ledger.rows,
            &self.stage,
            roots,
        )?;
        Ok(built)
    }
}

// A refused build makes nothing.
fn refused(alloc: Global, refusal: Refusal) -> Built
    ensures verdict { result.verdict ≡ Refused refusal }
    ensures refused_empty { IsEmptyWhereRefused result }
    ensures kept { IsKept result }
{
    Built {
        verdict: Verdict::Refused(refusal),
        rows: Vec::new(alloc),
        files: Vec::new(alloc),
        outputs: Vec::new(alloc),
    }
}
