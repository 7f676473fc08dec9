//! Records that stand: their tasks end with them.
ghost use Rattle.std.specs.Prelude.{◌≡◌, ◌≤◌, ◌+◌, [], ◌∷◌, ◌++◌, length, map, IfOk, OnOk};
ghost use Rattle.pie_graph.specs.Numbers.{numbers};
ghost use Rattle.pie_topdown.specs.declared.hand.Hand.TheVariants as hands;
ghost use Rattle.pie_topdown.specs.inner.Frames.{IsSite};
ghost use Rattle.pie_topdown.specs.inner.Handed.{MayEndWith};
ghost use Rattle.pie_topdown.specs.inner.Offering.{EndsReused, StagesAll};
ghost use Rattle.pie_topdown.specs.inner.Right.{KeepsRight, EndsKept};
ghost use Rattle.pie_topdown.specs.inner.Marks.{StaysMarked, ReusesOne, KeepsMarks};
ghost use Rattle.pie_topdown.specs.inner.Trying.{HoldsTried, KeepsTried};
ghost use Rattle.pie_topdown.specs.inner.Steps.{StepsTo};
ghost use Rattle.pie_topdown.specs.inner.Turns.{Stands, below, room};
ghost use Rattle.pie_topdown.specs.inner.Unoffered.{HoldsOwn, IsOwnCheck};

use crate::builder::Builder;
use crate::hand::{Check, Hand, Turn};
use pie_base::{OutOfMemory, Path};
use pie_graph::TaskNo;
use pie_record::TaskRecord;
use pie_view::Stage;

impl<'a> Builder<'a> {
    /// The record of a check stands: the task ends with it.
    pub(crate) fn keep(&mut self, check: Box<Check<'a>>) -> Result<Turn<'a>, OutOfMemory>
        requires stands { Stands self.old (hands.Checks check) }
        requires over { length check.value.rec.deps ≤ check.value.at }
        ensures steps { IfOk result (StepsTo (below self.old + 1) (room self.old) self.old self.new) }
        ensures marks { OnOk result (KeepsMarks self.old check.entry.value.no.0 self.new) }
        ensures own { IsOwnCheck check.entry.value → IfOk result (HoldsOwn self.old self.new) }
        ensures tried { IfOk result (KeepsTried self.old check.entry.value self.new) }
        ensures right { IfOk result (KeepsRight self.old check.entry.value self.new) }
    {
        let Check {
            no,
            rec,
            contents,
            required,
            ..
        } = Box::into_inner(check);
        match contents {
            Some(contents) => self.keep_offered(no, rec, required, contents),
            None => self.keep_own(no, rec, required),
        }
    }

    // The same of the task's own record.
    fn keep_own(
        &mut self,
        no: TaskNo,
        rec: TaskRecord,
        required: Vec<TaskNo>,
    ) -> Result<Turn<'a>, OutOfMemory>
        requires site { IsSite self.old }
        requires may { MayEndWith self.old.ledger no.0 rec (numbers required.items) }
        ensures steps { IfOk result (StepsTo (below self.old + 1) (room self.old) self.old self.new) }
        ensures marks { OnOk result (StaysMarked self.old self.new) }
        ensures own { IfOk result (HoldsOwn self.old self.new) }
        ensures tried { IfOk result (HoldsTried self.old self.new) }
        ensures ended { IfOk result (EndsKept self.old no.0 rec (numbers required.items) self.new) }
    {
        self.ledger.end(no, rec, required)?;
        Ok(Turn::Goes(Hand::Ended))
    }

    // The same of an offered record with these contents. As those of a task that ran, they are to be put into place.
    fn keep_offered(
        &mut self,
        no: TaskNo,
        rec: TaskRecord,
        required: Vec<TaskNo>,
        contents: Vec<Vec<u8>>,
    ) -> Result<Turn<'a>, OutOfMemory>
        requires site { IsSite self.old }
        requires may { MayEndWith self.old.ledger no.0 rec (numbers required.items) }
        ensures steps { IfOk result (StepsTo (below self.old + 1) (room self.old) self.old self.new) }
        ensures marks { OnOk result (ReusesOne self.old no.0 self.new) }
        ensures tried { IfOk result (HoldsTried self.old self.new) }
        ensures ended { IfOk result (EndsReused self.old no.0 rec (numbers required.items) (map (λ v. v.items) contents.items) self.new) }
    {
        self.reuse(no, rec.writes.as_slice(), contents)?;
        self.ledger.end(no, rec, required)?;
        self.ledger.runs(no);
        Ok(Turn::Goes(Hand::Ended))
    }

    // The contents of these writes are staged, and their task counts as reused.
    fn reuse(
        &mut self,
        no: TaskNo,
        writes: &[(Path, [u8; 32])],
        contents: Vec<Vec<u8>>,
    ) -> Result<(), OutOfMemory>
        ensures same { self.new ≡ record self.old { stage = self.new.stage; reused = self.new.reused } }
        ensures staged { OnOk result (StagesAll self.old.stage self.new.stage no.0 writes.now (map (λ v. v.items) contents.items)) }
        ensures one { OnOk result (numbers self.new.reused.items ≡ numbers self.old.reused.items ++ no.0 ∷ []) }
    {
        stage_all(&mut self.stage, no, writes, contents)?;
        self.reused.push(no)?;
        Ok(())
    }
}

// Stages the contents of writes, one for each.
fn stage_all(
    stage: &mut Stage,
    no: TaskNo,
    writes: &[(Path, [u8; 32])],
    contents: Vec<Vec<u8>>,
) -> Result<(), OutOfMemory>
    ensures { OnOk result (StagesAll stage.old stage.new no.0 writes.now (map (λ v. v.items) contents.items)) }
{
    let mut contents = contents;
    'contents: loop {
        let Some(content) = contents.pop() else {
            return Ok(());
        };
        if let Some((path, _)) = writes.get(contents.len()) {
            stage.put(no, path.copy()?, content)?;
        }
    }
}
