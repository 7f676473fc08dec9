//! The records of a store that were read so far, with their heights.
ghost use Rattle.std.specs.Prelude.{◌≡◌, ◌≤◌, ◌<◌, ◌^◌, ◌∷◌, [], ◌++◌, ◌+◌, length, map, max, None, Some, IfSome};
ghost use Rattle.std.specs.Prelude.{All, Contains, IfOk, OnOk, slice_get, slice_index_or};
ghost use Rattle.std.specs.Option.{option_map};
ghost use Rattle.pie_value.specs.Canonical.{IsEncodableTask, IsCanonicalTask};
ghost use Rattle.pie_store.specs.Ranks.{rank_in, above_one, above as specs_above, comes_last, is_before as specs_is_before, height_after, IsStored, IsStoredOn};
ghost use Rattle.pie_store.specs.Canonical.{required_on, needs as specs_needs};
ghost use Rattle.pie_store.specs.inner.Reading.{rows_of};
ghost use Rattle.pie_store.specs.inner.Ties.{named_by, tasks_among, needs_in, Gains};
ghost use Rattle.pie_store.specs.inner.Known.{known_in};
ghost use Rattle.pie_record.specs.declared.dep.Dep.{Dep};
ghost use Rattle.pie_record.specs.inner.Names.{Numbers};

use crate::known::Known;
use crate::lookups::{Lookup, height_at};
use crate::sharing::{share_name, share_stamp, share_task};
use crate::{Rows, Ties};
use pie_base::{OutOfMemory, Text};
use pie_graph::TaskNo;
use pie_record::{Dep, DepOn, Deps, TaskNames, TaskRecord};
use pie_value::Task;
use std::alloc::Global;
use std::cmp::Ordering;
use std::marker::Model;
use std::mem;

// Records with their heights, and the numbers of the tasks that each requires. Contracts see the list of the pairs of record and height.
#[derive(Drop)]
pub(crate) struct RankedRows {
    pub(crate) names: TaskNames,
    pub(crate) heights: Vec<u64>,
    needs: Vec<Vec<TaskNo>>,
    pub(crate) rows: Vec<TaskRecord>,
}

impl Model for RankedRows {
    ghost use Rattle.std.specs.Prelude.{List, ℕ};
    ghost use Rattle.std.specs.List.{zip};
    ghost use Rattle.pie_record.specs.declared.task_record.TaskRecord.{TaskRecord};
    ghost use Rattle.pie_store.specs.inner.RankCodes.{coded_ranked};
    ghost use Rattle.pie_store.specs.inner.Ties.{AreTied};

    ghost Value = { List (TaskRecord × ℕ) };

    ghost coded = { coded_ranked };

    ghost view = { λ r. zip r.rows.items r.heights.items };

    ghost invariant = { λ r. AreTied r.names r.heights.items r.needs.items r.rows.items };
}

impl RankedRows {
    pub(crate) fn new(alloc: Global) -> RankedRows
        ensures { result ≡ [] }
    {
        RankedRows {
            names: TaskNames::new(alloc),
            heights: Vec::new(alloc),
            needs: Vec::new(alloc),
            rows: Vec::new(alloc),
        }
    }

    // A height that is at least so much, and above what was observed, if that is a task, whose number is put behind others.
    // The observation shares the contents of that task's record.
    fn above_one(
        &self,
        lookup: &mut Lookup,
        dep: &mut Dep,
        height: u64,
        needs: &mut Vec<TaskNo>,
    ) -> Result<Option<u64>, OutOfMemory>
        requires stored { IsStoredOn dep.old.what }
        requires low { height ≤ length self.now }
        ensures height { IfOk result (λ h. h ≡ above_one self.now dep.old.what height) }
        ensures low { IfOk result (λ h. IfSome h (λ n. n ≤ length self.now)) }
        ensures needs { IfOk result (λ h. IfSome h (λ n. Gains (tasks_among self.now) needs.old.items needs.new.items (required_on dep.old.what))) }
        ensures same { IfOk result (λ h. IfSome h (λ n. dep.new ≡ dep.old)) }
    {
        match &mut dep.what {
            DepOn::File(_) => Ok(Some(height)),
            DepOn::Called(task) => match self.place(lookup, task)? {
                Some((no, below)) => {
                    let known = self.record(no);
                    share_task(known, task)?;
                    share_stamp(known, &mut dep.stamp)?;
                    needs.push(no)?;
                    Ok(Some(taller(height, below)))
                }
                None => Ok(None),
            },
        }
    }

    // The height above all that was observed. The numbers of the tasks among it are put behind others.
    fn above(
        &self,
        lookup: &mut Lookup,
        deps: &mut Vec<Dep>,
        needs: &mut Vec<TaskNo>,
    ) -> Result<Option<u64>, OutOfMemory>
        requires { All (λ (d : Dep). IsStoredOn d.what) deps.old.items }
        ensures height { IfOk result (λ h. h ≡ specs_above self.now deps.old.items 0) }
        ensures low { IfOk result (λ h. IfSome h (λ n. n ≤ length self.now)) }
        ensures needs { IfOk result (λ h. IfSome h (λ n. Gains (tasks_among self.now) needs.old.items needs.new.items (needs_in deps.old.items))) }
        ensures same { IfOk result (λ h. IfSome h (λ n. deps.new.items ≡ deps.old.items)) }
    {
        let mut height = 0;
        for i in 0..deps.len() {
            match self.above_one(lookup, &mut deps[i], height, needs)? {
                Some(taller) => height = taller,
                None => return Ok(None),
            }
        }
        Ok(Some(height))
    }

    // The same of the observations of a record.
    fn above_all(
        &self,
        alloc: Global,
        lookup: &mut Lookup,
        deps: &mut Deps,
        needs: &mut Vec<TaskNo>,
    ) -> Result<Option<u64>, OutOfMemory>
        requires { All (λ (d : Dep). IsStoredOn d.what) deps.old }
        ensures height { IfOk result (λ h. h ≡ specs_above self.now deps.old 0) }
        ensures low { IfOk result (λ h. IfSome h (λ n. n ≤ length self.now)) }
        ensures needs { IfOk result (λ h. IfSome h (λ n. Gains (tasks_among self.now) needs.old.items needs.new.items (needs_in deps.old))) }
        ensures same { IfOk result (λ h. IfSome h (λ n. deps.new ≡ deps.old)) }
    {
        let none = Deps::new(Vec::new(alloc));
        let mut taken = mem::replace(deps, none).into_vec();
        let height = self.above(lookup, &mut taken, needs)?;
        *deps = Deps::new(taken);
        Ok(height)
    }

    // Whether a task of this height comes after all of these.
    fn comes_last(&self, task: &Task, height: u64) -> bool
        requires { IsEncodableTask task.now }
        ensures { result ≡ comes_last self.now task.now height }
    {
        match self.rows.last() {
            Some(last) => {
                let below = height_at(self.heights.as_slice(), self.rows.len() - 1);
                is_before(&last.task, below, task, height)
            }
            None => true,
        }
    }

    // A function's name shares the contents of the last record's, where they are equal.
    fn share_func(&self, name: &mut Text) -> Result<(), OutOfMemory>
        ensures { OnOk result (name.new ≡ name.old) }
    {
        match self.rows.last() {
            Some(last) => share_name(&last.task.func, name),
            None => Ok(()),
        }
    }

    // The height of a record that may stand after these. The numbers of the tasks that it requires are put behind others.
    // Its observations and its function's name share the contents of these records. Its task's canonical bytes are left in the look-up's.
    pub(crate) fn height_after(
        &self,
        alloc: Global,
        known: &Known,
        lookup: &mut Lookup,
        rec: &mut TaskRecord,
        needs: &mut Vec<TaskNo>,
    ) -> Result<Option<u64>, OutOfMemory>
        requires task { IsStored rec.old.task }
        requires deps { All (λ (d : Dep). IsStoredOn d.what) rec.old.deps }
        ensures height { IfOk result (λ h. h ≡ height_after (known_in known.now) self.now rec.old) }
        ensures absent { IfOk result (λ h. IfSome h (λ n. rank_in self.now rec.old.task ≡ None)) }
        ensures low { IfOk result (λ h. IfSome h (λ n. n ≤ length self.now)) }
        ensures needs { IfOk result (λ h. IfSome h (λ n. Gains (tasks_among self.now) needs.old.items needs.new.items (specs_needs rec.old))) }
        ensures bytes { IfOk result (λ h. IfSome h (λ n. IsCanonicalTask rec.old.task lookup.new.bytes.items)) }
        ensures same { IfOk result (λ h. IfSome h (λ n. rec.new ≡ rec.old)) }
    {
        match self.above_all(alloc, lookup, &mut rec.deps, needs)? {
            Some(height) if self.comes_last(&rec.task, height) && known.has(&rec.task.func) => {
                self.share_func(&mut rec.task.func)?;
                match self.rank(&mut lookup.bytes, &rec.task)? {
                    Some(_) => Ok(None),
                    None => Ok(Some(height)),
                }
            }
            _ => Ok(None),
        }
    }

    // One record more.
    pub(crate) fn push(self, next: NextRow) -> Result<RankedRows, OutOfMemory>
        requires stored { IsStored next.rec.value.task }
        requires bytes { IsCanonicalTask next.rec.value.task next.bytes.items }
        requires absent { rank_in self next.rec.value.task ≡ None }
        requires low { next.height ≤ length self }
        requires needs { named_by (tasks_among self) next.needs.items ≡ map Some (specs_needs next.rec.value) }
        requires few { length self < 2 ^ 32 }
        ensures { IfOk result (λ r. r ≡ self ++ (next.rec.value, next.height) ∷ []) }
    {
        let RankedRows {
            mut names,
            mut heights,
            mut needs,
            mut rows,
        } = self;
        push_all(&mut names, &mut heights, &mut needs, &mut rows, next)?;
        Ok(RankedRows {
            names,
            heights,
            needs,
            rows,
        })
    }

    // The records with their ties.
    pub(crate) fn into_rows(self) -> Rows
        ensures { result ≡ rows_of self }
    {
        let RankedRows {
            names,
            heights: _,
            needs,
            rows,
        } = self;
        Rows::tied(rows, Ties { names, needs })
    }
}

// A record that may stand after others, the canonical bytes of its task, its height, and the numbers of the tasks that it requires.
#[derive(Drop)]
pub(crate) struct NextRow {
    pub(crate) rec: Box<TaskRecord>,
    pub(crate) bytes: Vec<u8>,
    pub(crate) height: u64,
    pub(crate) needs: Vec<TaskNo>,
}

// A task, its height, what it requires and its record, each behind those before it.
fn push_all(
    names: &mut TaskNames,
    heights: &mut Vec<u64>,
    needs: &mut Vec<Vec<TaskNo>>,
    rows: &mut Vec<TaskRecord>,
    next: NextRow,
) -> Result<(), OutOfMemory>
    requires canonical { IsCanonicalTask next.rec.value.task next.bytes.items }
    requires absent { ¬ (Contains names.old next.rec.value.task) }
    requires few { length names.old < 2 ^ 32 }
    ensures names { OnOk result (names.new ≡ names.old ++ next.rec.value.task ∷ []) }
    ensures heights { OnOk result (heights.new.items ≡ heights.old.items ++ next.height ∷ []) }
    ensures needs { OnOk result (needs.new.items ≡ needs.old.items ++ next.needs ∷ []) }
    ensures rows { OnOk result (rows.new.items ≡ rows.old.items ++ next.rec.value ∷ []) }
{
    let NextRow {
        rec,
        bytes,
        height,
        needs: required,
    } = next;
    heights.push(height)?;
    needs.push(required)?;
    names.add_written(rec.task.copy()?, bytes)?;
    rows.push(Box::into_inner(rec))?;
    Ok(())
}

// Whether one task and height comes before another.
fn is_before(task: &Task, height: u64, other: &Task, other_height: u64) -> bool
    requires task { IsEncodableTask task.now }
    requires other { IsEncodableTask other.now }
    ensures { result ≡ specs_is_before task.now height other.now other_height }
{
    match height.cmp(&other_height) {
        Ordering::Less => true,
        Ordering::Equal => task.cmp(other) == Ordering::Less,
        Ordering::Greater => false,
    }
}

fn taller(height: u64, below: u64) -> u64
    requires { below < 2 ^ 32 }
    ensures { result ≡ max height (below + 1) }
{
    height.max(below + 1)
}
