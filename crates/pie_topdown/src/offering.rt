//! Records that are offered for a task whose own record doesn't stand.
ghost use Rattle.std.specs.Prelude.{◌≡◌, ◌<◌, ◌≤◌, ◌+◌, ◌*◌, [], length, Some, true, slice_get, All, IfOk, IfSome, OnOk};
ghost use Rattle.pie_files.specs.Reading.{ReadsOnly};
ghost use Rattle.pie_record.specs.Canonical.{IsStorable};
ghost use Rattle.pie_store.specs.inner.Offers.{IsOffer};
ghost use Rattle.pie_topdown.specs.declared.hand.Hand.TheVariants as hands;
ghost use Rattle.pie_topdown.specs.inner.Handed.{HasRecord, IsReplaceable};
ghost use Rattle.pie_topdown.specs.inner.Offering.{OffersOrRuns, DiffersSo, FitsSo, HaveHashes, OffersSo, Takes, TellsOnce, TriesSo, ChecksOffer};
ghost use Rattle.pie_topdown.specs.inner.Marks.{Marks};
ghost use Rattle.pie_topdown.specs.inner.Steps.{OnlyAsks, SpendsTo, StartsWithin};
ghost use Rattle.pie_topdown.specs.inner.Trying.{AsksFor, ChecksTried, DiffersTried, TriesFrom, TriesOffers};
ghost use Rattle.pie_topdown.specs.inner.Turns.{Stands, TurnsTo, check_mass, below, Nearer, room, Fits};
ghost use Rattle.pie_topdown.specs.inner.Unoffered.{BeginsOwn, ChecksOwn, HoldsOwn, OffersNothing};

use crate::begin::is_done;
use crate::builder::Builder;
use crate::hand::{Check, Hand, Rest, Turn};
use pie_base::{OutOfMemory, Path};
use pie_code::Checked;
use pie_files::{Files, FilesError};
use pie_graph::TaskNo;
use pie_stamp::hash_of;
use pie_store::{Offer, Offers};
use pie_vm::Runs;
use std::alloc::Global;
use std::collections::BTreeSet;

/// The most offers of a task that are tried: as many as a file of the cache holds.
const MAX_OFFERS: usize = 4;

impl<'a> Builder<'a> {
    /// A record differs from what is there now: the next offer of its task is checked, or the task runs.
    #[tactic(auto, using(pie_files::proofs::Reading::reads))]
    pub(crate) fn differs<F: Files, O: Offers>(
        &mut self,
        check: Box<Check<'a>>,
        offers: &mut O,
        files: &mut F,
        runs: &mut Runs,
    ) -> Result<Turn<'a>, FilesError>
        requires { IsReplaceable self.old check.value }
        ensures steps { IfOk result (SpendsTo (below self.old + check_mass check.entry.value) (room self.old + 1) self.old runs.old runs.new self.new) }
        ensures starts { StartsWithin (room self.old + 1) runs.old runs.new }
        ensures marks { OnOk result (Marks self.old check.entry.value.no.0 self.new runs.old runs.new) }
        ensures asks { OnlyAsks F.holds F.moment F.left_since F.images F.faults O.told files.old files.new offers.old offers.new result }
        ensures own { IfOk result (ChecksOwn (F.holds files.old) (O.told offers.old) self.old check.entry.value self.new) }
        ensures tried { IfOk result (DiffersTried (F.holds files.old) (O.told offers.old) self.old check.entry.value self.new runs.old runs.new) }
        ensures right { IfOk result (DiffersSo (F.holds files.old) (O.told offers.old) self.old check.entry.value self.new) }
    {
        let Check { no, code, rest, .. } = Box::into_inner(check);
        match rest {
            Rest::Unasked => self.ask(no, code, offers, files, runs),
            Rest::Asked(rest) => Ok(self.try_next(no, code, rest, runs)?),
        }
    }

    /// The own record of an entered task doesn't stand: its offers are asked for, and the first of them is checked, or the task runs.
    #[tactic(auto, using(pie_files::proofs::Reading::reads))]
    pub(crate) fn ask<F: Files, O: Offers>(
        &mut self,
        no: TaskNo,
        code: &'a Checked,
        offers: &mut O,
        files: &mut F,
        runs: &mut Runs,
    ) -> Result<Turn<'a>, FilesError>
        requires { Stands self.old (hands.Enters no code) }
        ensures steps { IfOk result (SpendsTo (below self.old + 6000016) (room self.old + 1) self.old runs.old runs.new self.new) }
        ensures starts { StartsWithin (room self.old + 1) runs.old runs.new }
        ensures marks { OnOk result (Marks self.old no.0 self.new runs.old runs.new) }
        ensures asks { OnlyAsks F.holds F.moment F.left_since F.images F.faults O.told files.old files.new offers.old offers.new result }
        ensures own { IfOk result (BeginsOwn (F.holds files.old) (O.told offers.old) self.old self.new) }
        ensures tried { IfOk result (TriesFrom (F.holds files.old) (O.told offers.old) self.old no.0 self.new runs.old runs.new) }
        ensures right { IfOk result (OffersOrRuns (F.holds files.old) (O.told offers.old) self.old no.0 code.now self.new) }
    {
        let rest = self.offered(no, offers, files)?;
        Ok(self.try_next(no, code, rest, runs)?)
    }

    // The offers for an entered task that are tried.
    #[tactic(auto, using(pie_files::proofs::Reading::reads, crate::proofs::Naming::named_encodable))]
    fn offered<F: Files, O: Offers>(
        &self,
        no: TaskNo,
        offers: &mut O,
        files: &mut F,
    ) -> Result<Vec<Offer>, FilesError>
        requires { no.0 < length self.now.ledger.tables.names }
        ensures offers { IfOk result (λ found. All IsOffer found.items) }
        ensures few { IfOk result (λ found. length found.items ≤ 4) }
        ensures reads { ReadsOnly F.holds F.moment F.left_since F.images F.faults files.old files.new result }
        ensures told { O.told offers.new ≡ O.told offers.old }
        ensures none { OffersNothing (F.holds files.old) (O.told offers.old) → IfOk result (λ found. found.items ≡ []) }
        ensures right { IfOk result (λ found. OffersSo (F.holds files.old) (O.told offers.old) self.now no.0 found.items) }
        ensures asks { IfOk result (λ found. AsksFor (F.holds files.old) (O.told offers.old) self.now no.0 found.items) }
    {
        let _names = self.ledger.tables.names.as_slice();
        let task = self.ledger.tables.names.task(no);
        let Some(digest) = self.plan.digests.get(task.func.as_str()) else {
            return Ok(Vec::new(self.alloc));
        };
        let mut found = offers.offers(self.alloc, files, task, digest)?;
        found.truncate(MAX_OFFERS);
        Ok(found)
    }

    // The next of these offers that fits is checked; where none does, the task starts to run.
    fn try_next(
        &mut self,
        no: TaskNo,
        code: &'a Checked,
        rest: Vec<Offer>,
        runs: &mut Runs,
    ) -> Result<Turn<'a>, OutOfMemory>
        requires stands { Stands self.old (hands.Enters no code) }
        requires offers { All IsOffer rest.items }
        ensures steps { IfOk result (SpendsTo (below self.old + (length rest.items * 1000003 + 2000004)) (room self.old + 1) self.old runs.old runs.new self.new) }
        ensures starts { StartsWithin (room self.old + 1) runs.old runs.new }
        ensures marks { OnOk result (Marks self.old no.0 self.new runs.old runs.new) }
        ensures own { rest.items ≡ [] → IfOk result (HoldsOwn self.old self.new) }
        ensures tried { IfOk result (TriesOffers self.old no.0 rest.items self.new runs.old runs.new) }
        ensures right { IfOk result (TriesSo self.old no.0 code.now rest.items self.new) }
    {
        let mut rest = rest;
        match self.next_fitting(no, &mut rest)? {
            Some(offer) => self.check_offer(no, code, offer, rest),
            None => self.start(no, code, runs),
        }
    }

    // The next of these offers that fits an entered task. It and those before it are taken out.
    fn next_fitting(
        &self,
        no: TaskNo,
        rest: &mut Vec<Offer>,
    ) -> Result<Option<Box<Offer>>, OutOfMemory>
        requires offers { All IsOffer rest.old.items }
        ensures offers { All IsOffer rest.new.items }
        ensures fewer { IfOk result (λ found. IfSome found (λ _. length rest.new.items < length rest.old.items)) }
        ensures storable { IfOk result (λ found. IfSome found (λ o. IsStorable o.value.row)) }
        ensures named { IfOk result (λ found. IfSome found (λ o. slice_get self.now.ledger.tables.names no.0 ≡ Some o.value.row.task)) }
        ensures takes { IfOk result (Takes self.now no.0 rest.old.items rest.new.items) }
    {
        'offers: loop {
            if rest.is_empty() {
                return Ok(None);
            }
            let offer = Box::new(self.alloc, rest.remove(0))?;
            if self.fits(no, &offer)? {
                return Ok(Some(offer));
            }
        }
    }

    // Whether an offer may be of an entered task: it is a record of it with an output, writes no path twice, and has the contents of its writes.
    fn fits(&self, no: TaskNo, offer: &Offer) -> Result<bool, OutOfMemory>
        requires { IsOffer offer.now }
        ensures { IfOk result (FitsSo self.now no.0 offer.now) }
    {
        let writes = offer.row.writes.as_slice();
        if !is_done(&offer.row.outcome) || !are_contents(writes, offer.contents.as_slice()) {
            return Ok(false);
        }
        if !are_distinct(self.alloc, writes)? {
            return Ok(false);
        }
        match self.ledger.tables.names.number(&offer.row.task)? {
            Some(found) => Ok(found.0 == no.0),
            None => Ok(false),
        }
    }

    // The check of an offer, before these others.
    fn check_offer(
        &self,
        no: TaskNo,
        code: &'a Checked,
        offer: Box<Offer>,
        rest: Vec<Offer>,
    ) -> Result<Turn<'a>, OutOfMemory>
        requires offer { HasRecord self.now no.0 code.now.params offer.value.row }
        requires rest { All IsOffer rest.items }
        ensures turns { IfOk result (TurnsTo self.now) }
        ensures nearer { IfOk result (Nearer (below self.now + (length rest.items * 1000003 + 3000006)) self.now) }
        ensures fits { IfOk result (Fits (room self.now + 1) self.now) }
        ensures right { IfOk result (ChecksOffer self.now no.0 code.now offer.value rest.items self.now) }
        ensures tried { IfOk result (ChecksTried self.now no.0 offer.value rest.items) }
    {
        let Offer { row, contents } = Box::into_inner(offer);
        let rec = Box::new(self.alloc, row)?;
        let check = self.check_of(no, code, rec, Some(contents), Rest::Asked(rest))?;
        Ok(Turn::Goes(Hand::Checks(check)))
    }
}

// Whether these are the contents of the writes, one for each.
fn are_contents(writes: &[(Path, [u8; 32])], contents: &[Vec<u8>]) -> bool
    ensures { HaveHashes contents.now writes.now → result ≡ true }
{
    if writes.len() != contents.len() {
        return false;
    }
    for (i, (_, hash)) in writes.iter().enumerate() {
        if hash_of(contents[i].as_slice()) != *hash {
            return false;
        }
    }
    true
}

// Whether no path stands twice.
fn are_distinct(alloc: Global, writes: &[(Path, [u8; 32])]) -> Result<bool, OutOfMemory>
    ensures { IfOk result (TellsOnce writes.now) }
{
    let mut seen = BTreeSet::new(alloc);
    for (path, _) in writes {
        if !seen.insert(path.copy()?)? {
            return Ok(false);
        }
    }
    Ok(true)
}
