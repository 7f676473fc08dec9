//! The roots, one after another.
ghost use Rattle.std.specs.Prelude.{◌≡◌, ◌<◌, ◌≤◌, ◌-◌, true, [], length, IsSome, nat_le, IfOk, OnOk};
ghost use Rattle.pie_walk.specs.Standing.{Stands};
ghost use Rattle.pie_record.specs.inner.Records.{record_of};
ghost use Rattle.pie_store.specs.declared.cause.Cause.TheVariants.{UnionMany};
ghost use Rattle.pie_results.specs.inner.Failures.{refusal_by, refusal_in};
ghost use Rattle.pie_bottomup.specs.inner.Added.{HasAdded, IsNumbered, StandsOn, StaysAt};
ghost use Rattle.pie_bottomup.specs.inner.Going.{MeetsWhole, RootsWhole};
ghost use Rattle.pie_bottomup.specs.inner.States.{IsFree, IsNewTask, IsNextRoot, IsNextToBegin, IsSite, GoesTo, Keeps, Nearer, RootFailed, rest};

use crate::state::{Core, Turn};
use pie_base::{MAX_TASKS, OutOfMemory};
use pie_graph::TaskNo;
use pie_record::Outcome;
use pie_store::Cause;
use pie_value::Task;

impl<'a> Core<'a> {
    /// Begins the next root, unless there is none or the one before it failed.
    pub(crate) fn next_root(&mut self) -> Result<Turn, OutOfMemory>
        requires free { IsFree self.old }
        requires idle { self.old.frames.walk.stack ≡ [] }
        ensures turns { IfOk result (GoesTo self.new) }
        ensures nearer { IfOk result (Nearer (rest self.old) self.new) }
        ensures kept { OnOk result (Keeps self.old self.new) }
        ensures whole { IfOk result (RootsWhole self.old self.new) }
    {
        if self.at >= self.plan.roots.len() || self.has_failed()? {
            return Ok(Turn::Settled);
        }
        let root = self.plan.roots[self.at].copy()?;
        match self.tables.names.number(&root)? {
            Some(no) => self.begin(no),
            None => self.begin_new(root),
        }
    }

    // Begins the next root, which has this number.
    fn begin(&mut self, no: TaskNo) -> Result<Turn, OutOfMemory>
        requires free { IsFree self.old }
        requires idle { self.old.frames.walk.stack ≡ [] }
        requires at { self.old.at < length self.old.plan.roots.items }
        requires root { IsNextRoot self.old no.0 }
        ensures turns { IfOk result (GoesTo self.new) }
        ensures nearer { IfOk result (Nearer (rest self.old) self.new) }
        ensures kept { OnOk result (Keeps self.old self.new) }
        ensures whole { IfOk result (MeetsWhole self.old no.0 self.new) }
    {
        self.frames.begin(no)?;
        self.at += 1;
        Ok(Turn::Went)
    }

    // Whether the root before the next one has failed.
    fn has_failed(&self) -> Result<bool, OutOfMemory>
        requires site { IsSite self.now }
        requires at { self.now.at ≤ length self.now.plan.roots.items }
        ensures { IfOk result (λ failed. failed ≡ true → RootFailed self.now) }
    {
        if self.at == 0 {
            return Ok(false);
        }
        let Some(no) = self.tables.names.number(&self.plan.roots[self.at - 1])? else {
            return Ok(false);
        };
        Ok(self.fails(no))
    }

    // Whether a task has failed.
    fn fails(&self, no: TaskNo) -> bool
        ensures { result ≡ true → IsSome (refusal_by (record_of self.now.tables.records no.0)) }
    {
        match self.tables.records.get(no) {
            Some(rec) => is_failure(&rec.outcome),
            None => false,
        }
    }

    // Begins a root without a record.
    fn begin_new(&mut self, root: Task) -> Result<Turn, OutOfMemory>
        requires free { IsFree self.old }
        requires idle { self.old.frames.walk.stack ≡ [] }
        requires absent { IsNewTask self.old.tables.names root }
        requires next { IsNextToBegin self.old root }
        ensures turns { IfOk result (GoesTo self.new) }
        ensures nearer { IfOk result (Nearer (rest self.old) self.new) }
        ensures kept { OnOk result (Keeps self.old self.new) }
        ensures whole { IfOk result (RootsWhole self.old self.new) }
    {
        if self.is_full() {
            return Ok(Turn::StartAfresh(self.too_many(root)));
        }
        let no = self.add(root)?;
        self.begin(no)
    }

    /// Whether no task may get a number any more.
    pub(crate) fn is_full(&self) -> bool
        ensures full { result ≡ nat_le MAX_TASKS (length self.now.frames.walk.rows) }
        ensures most { length self.now.frames.walk.rows ≤ MAX_TASKS }
    {
        self.frames.walk().count() >= MAX_TASKS
    }

    /// The cause where this task would be one too many.
    pub(crate) fn too_many(&self, task: Task) -> Cause
        ensures { result ≡ UnionMany self.now.earlier (length self.now.frames.walk.rows - self.now.earlier) task }
    {
        let new = self.frames.walk().count().saturating_sub(self.earlier);
        Cause::UnionMany(self.earlier, new, task)
    }

    /// The number of a task that has none.
    pub(crate) fn add(&mut self, task: Task) -> Result<TaskNo, OutOfMemory>
        requires site { IsSite self.old }
        requires stands { Stands self.old.frames.walk }
        requires few { length self.old.frames.walk.rows < MAX_TASKS }
        requires absent { IsNewTask self.old.tables.names task }
        ensures stands { OnOk result (StandsOn self.old self.new) }
        ensures number { IfOk result (IsNumbered self.old task self.new) }
        ensures added { OnOk result (HasAdded self.old task self.new) }
        ensures same { StaysAt self.old self.new }
    {
        let no = self.frames.add()?;
        let _same = self.tables.add(task)?;
        let _names = self.tables.names.as_slice();
        Ok(no)
    }
}

// Whether a task that ended so has failed.
fn is_failure(outcome: &Outcome) -> bool
    ensures { result ≡ true → IsSome (refusal_in outcome.now) }
{
    match outcome {
        Outcome::Done(_) => false,
        Outcome::Failed(_) | Outcome::Cycled(_) => true,
    }
}
