//! Records that are held against what is there now, one observation after another.
ghost use Rattle.std.specs.Prelude.{◌≡◌, ◌+◌, length, IfOk, OnOk};
ghost use Rattle.pie_files.specs.Reading.{ReadsOnly};
ghost use Rattle.pie_graph.specs.Numbers.{numbers, AllBelow};
ghost use Rattle.pie_record.specs.Canonical.{IsStorableDep};
ghost use Rattle.pie_compare.specs.inner.Standing.{DepStands, Tells};
ghost use Rattle.pie_topdown.specs.declared.entering.Entry.TheVariants.{May};
ghost use Rattle.pie_topdown.specs.declared.hand.Hand.TheVariants as hands;
ghost use Rattle.pie_topdown.specs.inner.Calling.{ChecksSo};
ghost use Rattle.pie_topdown.specs.inner.Entries.{MayEnter};
ghost use Rattle.pie_topdown.specs.inner.Frames.{IsCheck, IsSite};
ghost use Rattle.pie_topdown.specs.inner.Handed.{HasFound, HasNext, IsAtNew};
ghost use Rattle.pie_topdown.specs.inner.Offering.{ComparesSo, GoesOnSo, RequiresSo};
ghost use Rattle.pie_topdown.specs.inner.Places.{beside, AsksSource, Finds, IsPassed, IsPlace, IsUnentered};
ghost use Rattle.pie_topdown.specs.inner.Right.{PassesRight};
ghost use Rattle.pie_topdown.specs.inner.Marks.{StaysMarked, Marks};
ghost use Rattle.pie_topdown.specs.inner.Steps.{OnlyAsks, SpendsTo, StartsWithin, StepsTo};
ghost use Rattle.pie_topdown.specs.inner.Trying.{ComparesTried, GoesOnTried, RequiresTried, WaitsTried};
ghost use Rattle.pie_topdown.specs.inner.Turns.{Stands, TurnsTo, check_mass, below, Nearer, room, Fits};
ghost use Rattle.pie_topdown.specs.inner.Unoffered.{ChecksOwn, HoldsOwn, IsOwnCheck, IsOwnTurn};

use crate::builder::Builder;
use crate::entering::Entry;
use crate::hand::{Check, Frame, Hand, Turn};
use pie_base::{MAX_TICKS, OutOfMemory, Path};
use pie_code::Checked;
use pie_compare::Present;
use pie_files::{Files, FilesError};
use pie_graph::TaskNo;
use pie_record::{Dep, DepOn};
use pie_store::Offers;
use pie_value::Task;
use pie_vm::Runs;

/// What is found at the next observation of a record.
#[derive(Drop)]
pub(crate) enum Place {
    /// There is none: the record stands.
    Over,
    /// It would have the stamp that was recorded. The task that it is of, if it is of one, comes to the required ones.
    Stands,
    Differs,
    /// It is of this task, which wasn't entered yet.
    Needs(Task),
}

impl<'a> Builder<'a> {
    /// Compares the next observation of a record. A record with more observations than a task can make doesn't stand.
    #[tactic(auto, using(crate::proofs::Twice::reads_then))]
    pub(crate) fn check<F: Files, O: Offers>(
        &mut self,
        check: Box<Check<'a>>,
        offers: &mut O,
        files: &mut F,
        runs: &mut Runs,
    ) -> Result<Turn<'a>, FilesError>
        requires { Stands self.old (hands.Checks check) }
        ensures steps { IfOk result (SpendsTo (below self.old + check_mass check.entry.value) (room self.old + 1) self.old runs.old runs.new self.new) }
        ensures starts { StartsWithin (room self.old + 1) runs.old runs.new }
        ensures marks { OnOk result (Marks self.old check.entry.value.no.0 self.new runs.old runs.new) }
        ensures asks { OnlyAsks F.holds F.moment F.left_since F.images F.faults O.told files.old files.new offers.old offers.new result }
        ensures own { IfOk result (ChecksOwn (F.holds files.old) (O.told offers.old) self.old check.entry.value self.new) }
        ensures tried { IfOk result (ComparesTried (F.holds files.old) (O.told offers.old) self.old check.entry.value self.new runs.old runs.new) }
        ensures right { IfOk result (ComparesSo (F.holds files.old) (O.told offers.old) self.old check.entry.value self.new) }
    {
        let mut check = check;
        let place = self.look(&mut check, files)?;
        self.go_on(check, place, offers, files, runs)
    }

    // Goes on by what was found at the next observation.
    #[tactic(auto, using(pie_files::proofs::Reading::reads))]
    fn go_on<F: Files, O: Offers>(
        &mut self,
        check: Box<Check<'a>>,
        place: Place,
        offers: &mut O,
        files: &mut F,
        runs: &mut Runs,
    ) -> Result<Turn<'a>, FilesError>
        requires { HasFound self.old check.value place }
        ensures steps { IfOk result (SpendsTo (below self.old + check_mass check.entry.value) (room self.old + 1) self.old runs.old runs.new self.new) }
        ensures starts { StartsWithin (room self.old + 1) runs.old runs.new }
        ensures marks { OnOk result (Marks self.old check.entry.value.no.0 self.new runs.old runs.new) }
        ensures asks { OnlyAsks F.holds F.moment F.left_since F.images F.faults O.told files.old files.new offers.old offers.new result }
        ensures own { IfOk result (ChecksOwn (F.holds files.old) (O.told offers.old) self.old check.entry.value self.new) }
        ensures tried { IfOk result (GoesOnTried (F.holds files.old) (O.told offers.old) self.old check.entry.value place self.new runs.old runs.new) }
        ensures right { IfOk result (GoesOnSo (F.holds files.old) (O.told offers.old) self.old check.entry.value place self.new) }
    {
        match place {
            Place::Over => Ok(self.keep(check)?),
            Place::Stands => Ok(self.pass(check)),
            Place::Differs => self.differs(check, offers, files, runs),
            Place::Needs(task) => self.descend(check, task, offers, files, runs),
        }
    }

    // The record stands in one place more.
    fn pass(&self, check: Box<Check<'a>>) -> Turn<'a>
        requires site { IsSite self.now }
        requires place { IsPassed self.now.ledger check.value }
        ensures turns { TurnsTo self.now result }
        ensures nearer { Nearer (below self.now + check_mass check.entry.value) self.now result }
        ensures fits { Fits (room self.now + 1) self.now result }
        ensures own { IsOwnCheck check.entry.value → IsOwnTurn result }
        ensures tried { WaitsTried self.now check.entry.value self.now result }
        ensures right { PassesRight self.now check.entry.value result }
    {
        let mut check = check;
        check.at += 1;
        Turn::Goes(Hand::Checks(check))
    }

    // The next observation is of a task that wasn't entered: that is settled first.
    #[tactic(auto, using(pie_files::proofs::Reading::reads))]
    fn descend<F: Files, O: Offers>(
        &mut self,
        check: Box<Check<'a>>,
        task: Task,
        offers: &mut O,
        files: &mut F,
        runs: &mut Runs,
    ) -> Result<Turn<'a>, FilesError>
        requires { IsAtNew self.old check.value task }
        ensures steps { IfOk result (SpendsTo (below self.old + check_mass check.entry.value) (room self.old + 1) self.old runs.old runs.new self.new) }
        ensures starts { StartsWithin (room self.old + 1) runs.old runs.new }
        ensures marks { OnOk result (Marks self.old check.entry.value.no.0 self.new runs.old runs.new) }
        ensures asks { OnlyAsks F.holds F.moment F.left_since F.images F.faults O.told files.old files.new offers.old offers.new result }
        ensures own { IfOk result (ChecksOwn (F.holds files.old) (O.told offers.old) self.old check.entry.value self.new) }
        ensures tried { IfOk result (RequiresTried (F.holds files.old) (O.told offers.old) self.old check.entry.value task self.new runs.old runs.new) }
        ensures right { IfOk result (RequiresSo (F.holds files.old) (O.told offers.old) self.old check.entry.value task self.new) }
    {
        match self.entry(&task) {
            Entry::May(code) => Ok(self.push_check(check, task, code)?),
            Entry::Unknown => self.differs(check, offers, files, runs),
            Entry::Full => Ok(Turn::Many),
        }
    }

    // A task is entered, and a check waits for it.
    fn push_check(
        &mut self,
        check: Box<Check<'a>>,
        task: Task,
        code: &'a Checked,
    ) -> Result<Turn<'a>, OutOfMemory>
        requires finds { IsAtNew self.old check.value task }
        requires may { MayEnter self.old task (May code) }
        ensures steps { IfOk result (StepsTo (below self.old + check_mass check.entry.value) (room self.old + 1) self.old self.new) }
        ensures marks { OnOk result (StaysMarked self.old self.new) }
        ensures own { IsOwnCheck check.entry.value → IfOk result (HoldsOwn self.old self.new) }
        ensures tried { IfOk result (WaitsTried self.old check.entry.value self.new) }
        ensures right { IfOk result (ChecksSo self.old check.entry.value task self.new) }
    {
        let no = self.enter(task, code)?;
        self.stack.push(Frame::Checks(check))?;
        Ok(Turn::Goes(Hand::Enters(no, code)))
    }

    // What is found at the next observation of a record.
    #[tactic(auto, using(pie_files::proofs::Reading::reads))]
    fn look<F: Files>(&mut self, check: &mut Check<'a>, files: &mut F) -> Result<Place, FilesError>
        requires site { IsSite self.old }
        requires check { IsCheck self.old.ledger check.old }
        ensures same { self.new ≡ record self.old { named = self.new.named } }
        ensures check { check.new ≡ record check.old { required = check.new.required } }
        ensures place { IfOk result (IsPlace self.old.ledger check.new) }
        ensures finds { IfOk result (Finds (F.holds files.old) self.old self.new check.old check.new) }
        ensures reads { ReadsOnly F.holds F.moment F.left_since F.images F.faults files.old files.new result }
    {
        if check.at >= check.rec.deps.as_slice().len() {
            return Ok(Place::Over);
        }
        if check.at > MAX_TICKS as usize {
            return Ok(Place::Differs);
        }
        self.look_there(check, files)
    }

    // The same where there is one.
    #[tactic(auto, using(pie_files::proofs::Reading::reads))]
    fn look_there<F: Files>(
        &mut self,
        check: &mut Check<'a>,
        files: &mut F,
    ) -> Result<Place, FilesError>
        requires site { IsSite self.old }
        requires check { IsCheck self.old.ledger check.old }
        requires next { HasNext check.old }
        ensures same { self.new ≡ record self.old { named = self.new.named } }
        ensures check { check.new ≡ record check.old { required = check.new.required } }
        ensures place { IfOk result (IsPlace self.old.ledger check.new) }
        ensures finds { IfOk result (Finds (F.holds files.old) self.old self.new check.old check.new) }
        ensures reads { ReadsOnly F.holds F.moment F.left_since F.images F.faults files.old files.new result }
    {
        let dep = &check.rec.deps.as_slice()[check.at];
        if let Some(task) = self.unentered(dep)? {
            return Ok(Place::Needs(task));
        }
        if self.source_differs(dep, files)? {
            return Ok(Place::Differs);
        }
        let own = check.rec.writes.as_slice();
        if self.stands(check.no, own, &mut check.required, dep)? {
            return Ok(Place::Stands);
        }
        Ok(Place::Differs)
    }

    // The task that an observation is of, if it wasn't entered.
    fn unentered(&self, dep: &Dep) -> Result<Option<Task>, OutOfMemory>
        requires site { IsSite self.now }
        requires dep { IsStorableDep dep.now }
        ensures { IfOk result (IsUnentered self.now.ledger dep.now.what) }
    {
        let DepOn::Called(task) = &dep.what else {
            return Ok(None);
        };
        match self.ledger.tables.names.number(task)? {
            Some(_) => Ok(None),
            None => Ok(Some(task.copy()?)),
        }
    }

    // Whether an observation of a source would have another stamp now. The files are asked, unless they were before.
    #[tactic(auto, using(pie_files::proofs::Reading::reads))]
    fn source_differs<F: Files>(&mut self, dep: &Dep, files: &mut F) -> Result<bool, FilesError>
        ensures same { self.new ≡ record self.old { named = self.new.named } }
        ensures asks { IfOk result (AsksSource (F.holds files.old) self.old.named self.new.named dep.now) }
        ensures reads { ReadsOnly F.holds F.moment F.left_since F.images F.faults files.old files.new result }
    {
        match &dep.what {
            DepOn::File(path) => {
                if !path.is_source() {
                    return Ok(false);
                }
                self.named.differs(dep.kind, path, &dep.stamp, files)
            }
            DepOn::Called(_) => Ok(false),
        }
    }

    // Whether an observation of a task with these writes stands beside the records, the rows and what is known.
    fn stands(
        &self,
        no: TaskNo,
        own: &[(Path, [u8; 32])],
        required: &mut Vec<TaskNo>,
        dep: &Dep,
    ) -> Result<bool, OutOfMemory>
        requires site { IsSite self.now }
        requires required { AllBelow (length self.now.ledger.rows) (numbers required.old.items) }
        requires dep { IsStorableDep dep.now }
        ensures { IfOk result (λ stands. Tells (DepStands (beside self.now own.now) (numbers required.old.items) dep.now) stands (numbers required.new.items)) }
    {
        let present = Present {
            alloc: self.alloc,
            tables: &self.ledger.tables,
            rows: &self.ledger.rows,
            named: &self.named,
            no,
            own,
        };
        present.dep_stands(required, dep)
    }
}
