//! Entered tasks that begin: with the check of an old record, with offers, or with a run.
ghost use Rattle.std.specs.Prelude.{◌≡◌, ◌<◌, ◌+◌, length, Some, None, true, false, slice_get, slice_index_or, IfOk, IfSome, OnOk};
ghost use Rattle.pie_record.specs.Canonical.{IsStorable};
ghost use Rattle.pie_results.specs.inner.Failures.{is_done as specs_is_done};
ghost use Rattle.pie_topdown.specs.declared.hand.Hand.TheVariants as hands;
ghost use Rattle.pie_topdown.specs.inner.Calling.{HasBegun, StartsSo};
ghost use Rattle.pie_topdown.specs.inner.Due.{LacksOwn};
ghost use Rattle.pie_topdown.specs.inner.Effects.{HasStarted};
ghost use Rattle.pie_topdown.specs.inner.Ledgers.{Grows};
ghost use Rattle.pie_topdown.specs.inner.Frames.{AreOffers, IsCheck, IsOwnRecord, MayStart, IsSite};
ghost use Rattle.pie_topdown.specs.inner.Handed.{HasRecord};
ghost use Rattle.pie_topdown.specs.inner.Offering.{BeginsSo, BeginsWith};
ghost use Rattle.pie_topdown.specs.inner.Right.{BeginsCheck};
ghost use Rattle.pie_topdown.specs.inner.Marks.{Marks, RunsOne};
ghost use Rattle.pie_topdown.specs.inner.Steps.{OnlyAsks, SpendsTo, StartsWithin};
ghost use Rattle.pie_topdown.specs.inner.Trying.{TriesFrom, HoldsTried};
ghost use Rattle.pie_topdown.specs.inner.Turns.{Stands, check_mass, rest_mass, below, room, StartsOne};
ghost use Rattle.pie_topdown.specs.inner.Unoffered.{BeginsOwn, HoldsOwn};

use crate::builder::Builder;
use crate::hand::{Check, Hand, Rest, Turn};
use crate::writes::writes_stand;
use pie_base::OutOfMemory;
use pie_code::Checked;
use pie_files::{Files, FilesError};
use pie_graph::TaskNo;
use pie_record::{Outcome, TaskRecord};
use pie_running::RunningTask;
use pie_store::Offers;
use pie_vm::Runs;
use std::alloc::Global;

impl<'a> Builder<'a> {
    /// An entered task begins: with the check of its old record, if it has one whose function stayed the same and whose writes are there, or else with
    /// its offers.
    #[tactic(auto, using(pie_files::proofs::Reading::reads))]
    pub(crate) fn begin<F: Files, O: Offers>(
        &mut self,
        no: TaskNo,
        code: &'a Checked,
        offers: &mut O,
        files: &mut F,
        runs: &mut Runs,
    ) -> Result<Turn<'a>, FilesError>
        requires { Stands self.old (hands.Enters no code) }
        ensures steps { IfOk result (SpendsTo (below self.old + 7000018) (room self.old + 1) self.old runs.old runs.new self.new) }
        ensures starts { StartsWithin (room self.old + 1) runs.old runs.new }
        ensures marks { OnOk result (Marks self.old no.0 self.new runs.old runs.new) }
        ensures asks { OnlyAsks F.holds F.moment F.left_since F.images F.faults O.told files.old files.new offers.old offers.new result }
        ensures own { IfOk result (BeginsOwn (F.holds files.old) (O.told offers.old) self.old self.new) }
        ensures tried { IfOk result (TriesFrom (F.holds files.old) (O.told offers.old) self.old no.0 self.new runs.old runs.new) }
        ensures right { IfOk result (BeginsSo (F.holds files.old) (O.told offers.old) self.old no.0 code.now self.new) }
    {
        match self.old_record(no)? {
            Some(rec) => self.begin_with(no, code, rec, offers, files, runs),
            None => self.ask(no, code, offers, files, runs),
        }
    }

    // The record that an entered task had, if its function stayed the same.
    #[tactic(auto, using(crate::proofs::Naming::named_encodable))]
    fn old_record(&self, no: TaskNo) -> Result<Option<Box<TaskRecord>>, OutOfMemory>
        requires site { IsSite self.now }
        requires number { no.0 < length self.now.ledger.tables.names }
        ensures storable { IfOk result (λ found. IfSome found (λ rec. IsStorable rec.value × (slice_get self.now.ledger.tables.names no.0 ≡ Some rec.value.task))) }
        ensures own { IfOk result (λ found. IfSome found (λ rec. IsOwnRecord self.now.plan rec.value)) }
        ensures none { IfOk result (LacksOwn self.now no.0) }
    {
        let _names = self.ledger.tables.names.as_slice();
        let _earlier = self.plan.earlier.names.as_slice();
        let task = self.ledger.tables.names.task(no);
        let Some(old) = self.plan.earlier.names.number(task)? else {
            return Ok(None);
        };
        if !flag_of(self.plan.same.as_slice(), old) {
            return Ok(None);
        }
        match self.plan.earlier.records.get(old) {
            Some(rec) => {
                let found = copy_done(self.alloc, rec)?;
                Ok(found)
            }
            None => Ok(None),
        }
    }

    // The same with an old record.
    #[tactic(auto, using(pie_files::proofs::Reading::reads, crate::proofs::Twice::reads_then))]
    fn begin_with<F: Files, O: Offers>(
        &mut self,
        no: TaskNo,
        code: &'a Checked,
        rec: Box<TaskRecord>,
        offers: &mut O,
        files: &mut F,
        runs: &mut Runs,
    ) -> Result<Turn<'a>, FilesError>
        requires { HasRecord self.old no.0 code.now.params rec.value }
        ensures steps { IfOk result (SpendsTo (below self.old + 7000018) (room self.old + 1) self.old runs.old runs.new self.new) }
        ensures starts { StartsWithin (room self.old + 1) runs.old runs.new }
        ensures marks { OnOk result (Marks self.old no.0 self.new runs.old runs.new) }
        ensures asks { OnlyAsks F.holds F.moment F.left_since F.images F.faults O.told files.old files.new offers.old offers.new result }
        ensures own { IfOk result (BeginsOwn (F.holds files.old) (O.told offers.old) self.old self.new) }
        ensures tried { IfOk result (TriesFrom (F.holds files.old) (O.told offers.old) self.old no.0 self.new runs.old runs.new) }
        ensures right { IfOk result (BeginsWith (F.holds files.old) (O.told offers.old) self.old no.0 code.now rec.value self.new) }
    {
        if !writes_stand(&mut self.named, rec.writes.as_slice(), files)? {
            return self.ask(no, code, offers, files, runs);
        }
        let check = self.check_of(no, code, rec, None, Rest::Unasked)?;
        Ok(Turn::Goes(Hand::Checks(check)))
    }

    /// The check of a record from its first observation on. An offered one has its contents.
    pub(crate) fn check_of(
        &self,
        no: TaskNo,
        code: &'a Checked,
        rec: Box<TaskRecord>,
        contents: Option<Vec<Vec<u8>>>,
        rest: Rest,
    ) -> Result<Box<Check<'a>>, OutOfMemory>
        requires starts { MayStart self.now.ledger no.0 code.now.params }
        requires storable { IsStorable rec.value }
        requires named { slice_get self.now.ledger.tables.names no.0 ≡ Some rec.value.task }
        requires rest { AreOffers rest }
        ensures check { IfOk result (λ c. IsCheck self.now.ledger c.value) }
        ensures mass { IfOk result (λ c. check_mass c.value ≡ 3000005 + rest_mass rest) }
        ensures parts { IfOk result (λ c. (c.value.contents ≡ contents) × (c.value.rest ≡ rest) × (c.value.rec ≡ rec.value)) }
        ensures right { IfOk result (λ c. BeginsCheck self.now no.0 code.now rec.value contents rest c.value) }
    {
        let check = Check {
            no,
            code,
            rec: Box::into_inner(rec),
            contents,
            rest,
            at: 0,
            required: Vec::new(self.alloc),
        };
        let check = Box::new(self.alloc, check)?;
        Ok(check)
    }

    /// An entered task starts to run.
    #[tactic(auto, using(crate::proofs::Naming::named_encodable))]
    pub(crate) fn start(
        &mut self,
        no: TaskNo,
        code: &'a Checked,
        runs: &mut Runs,
    ) -> Result<Turn<'a>, OutOfMemory>
        requires { Stands self.old (hands.Enters no code) }
        ensures steps { IfOk result (SpendsTo (below self.old + 2000004) (room self.old + 1) self.old runs.old runs.new self.new) }
        ensures starts { StartsWithin (room self.old + 1) runs.old runs.new }
        ensures marks { OnOk result (RunsOne self.old no.0 self.new runs.old runs.new) }
        ensures own { IfOk result (HoldsOwn self.old self.new) }
        ensures tried { IfOk result (HoldsTried self.old self.new) }
        ensures right { IfOk result (StartsSo self.old no.0 code.now self.new) }
    {
        let task = self.begin_run(no, code, runs)?;
        Ok(Turn::Goes(Hand::Runs(task)))
    }

    /// The machine of an entered task starts, and the task is marked.
    #[tactic(auto, using(crate::proofs::Naming::named_encodable))]
    pub(crate) fn begin_run(
        &mut self,
        no: TaskNo,
        code: &'a Checked,
        runs: &mut Runs,
    ) -> Result<RunningTask<'a>, OutOfMemory>
        requires site { IsSite self.old }
        requires starts { MayStart self.old.ledger no.0 code.now.params }
        ensures rest { self.new ≡ record self.old { ledger = self.new.ledger } }
        ensures site { OnOk result (IsSite self.new) }
        ensures grows { OnOk result (Grows self.old.ledger self.new.ledger) }
        ensures ledger { OnOk result (HasStarted self.old.ledger no.0 self.new.ledger) }
        ensures starts { StartsOne runs.old runs.new }
        ensures begun { IfOk result (HasBegun self.old no.0 code.now runs.old runs.new) }
    {
        let _names = self.ledger.tables.names.as_slice();
        let task = RunningTask::start(
            self.alloc,
            code,
            self.ledger.tables.names.task(no),
            no,
            runs,
        )?;
        self.ledger.runs(no);
        Ok(task)
    }
}

// A record, if its task gave an output.
fn copy_done(alloc: Global, rec: &TaskRecord) -> Result<Option<Box<TaskRecord>>, OutOfMemory>
    ensures copy { IfOk result (λ found. IfSome found (λ r. (r.value ≡ rec.now) × (specs_is_done rec.now.outcome ≡ true))) }
    ensures none { IfOk result (λ found. found ≡ None → specs_is_done rec.now.outcome ≡ false) }
{
    if !is_done(&rec.outcome) {
        return Ok(None);
    }
    let copy = Box::new(alloc, rec.copy(alloc)?)?;
    Ok(Some(copy))
}

/// Whether a task gave an output.
pub(crate) fn is_done(outcome: &Outcome) -> bool
    ensures { result ≡ specs_is_done outcome.now }
{
    match outcome {
        Outcome::Done(_) => true,
        Outcome::Failed(_) | Outcome::Cycled(_) => false,
    }
}

// The flag of a task, false past the last.
fn flag_of(flags: &[bool], no: TaskNo) -> bool
    ensures { result ≡ slice_index_or flags.now no.0 false }
{
    match flags.get(no.0 as usize) {
        Some(flag) => *flag,
        None => false,
    }
}
