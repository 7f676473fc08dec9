//! The heights of the tasks that have a record so far.
ghost use Rattle.std.specs.Prelude.{◌≡◌, ◌+◌, ℕ, [], true, false, max, None, All, IfOk, IfSome, OnOk};
ghost use Rattle.pie_value.specs.Canonical.{enc_task, IsEncodableTask};
ghost use Rattle.pie_record.specs.declared.dep.Dep.{Dep};
ghost use Rattle.pie_record.specs.Canonical.{IsStorable, IsStorableDep, IsStorableOn};
ghost use Rattle.pie_store.specs.Ranks.{Ranked, rank_in, above_one, above as specs_above, height_after as specs_height_after};
ghost use Rattle.pie_store.specs.Ranks.{IsStored, IsStoredOn};
ghost use Rattle.pie_store.specs.inner.Known.{set_has};
ghost use Rattle.pie_storable.specs.inner.Heights.{AreHeights, Adds, Bars, heights_in, height_of, is_last, is_below};

use indexmap::{IndexMap, IndexSet};
use pie_base::OutOfMemory;
use pie_record::{Dep, DepOn, TaskRecord};
use pie_value::{Task, encode_task};
use std::alloc::Global;
use std::cmp::Ordering;

// The height of each task by its canonical bytes, in the order of the records.
#[derive(Drop)]
pub(crate) struct Heights {
    alloc: Global,
    by_bytes: IndexMap<Vec<u8>, u64>,
}

impl Heights {
    pub(crate) fn new(alloc: Global) -> Heights
        ensures { AreHeights [] result }
    {
        Heights {
            alloc,
            by_bytes: IndexMap::new(alloc),
        }
    }

    // The height of a task, if it has a record.
    pub(crate) fn rank(&self, task: &Task) -> Result<Option<u64>, OutOfMemory>
        requires { IsEncodableTask task.now }
        ensures rank { IfOk result (λ h. (rows : Ranked) → AreHeights rows self.now → h ≡ rank_in rows task.now) }
        ensures stored { OnOk result (IsStored task.now) }
    {
        let bytes = encode_task(self.alloc, task)?;
        Ok(self.at(bytes.as_slice()))
    }

    // The height of the task with these canonical bytes, if it has a record.
    fn at(&self, bytes: &[u8]) -> Option<u64>
        ensures { result ≡ height_of (heights_in self.now) bytes.now }
    {
        self.by_bytes.get(bytes).copied()
    }

    // A height that is at least so much, and above what was observed, if that is a task.
    fn above_one(&self, what: &DepOn, height: u64) -> Result<Option<u64>, OutOfMemory>
        requires { IsStorableOn what.now }
        ensures height { IfOk result (λ h. (rows : Ranked) → AreHeights rows self.now → h ≡ above_one rows what.now height) }
        ensures stored { OnOk result (IsStoredOn what.now) }
    {
        match what {
            DepOn::File(_) => Ok(Some(height)),
            DepOn::Called(task) => match self.rank(task)? {
                Some(below) => Ok(Some(taller(height, below)?)),
                None => Ok(None),
            },
        }
    }

    // The height above all that was observed.
    fn above(&self, deps: &[Dep]) -> Result<Option<u64>, OutOfMemory>
        requires { All IsStorableDep deps.now }
        ensures height { IfOk result (λ h. (rows : Ranked) → AreHeights rows self.now → h ≡ specs_above rows deps.now 0) }
        ensures stored { IfOk result (λ h. IfSome h (λ n. All (λ (d : Dep). IsStoredOn d.what) deps.now)) }
    {
        let mut height = 0;
        for dep in deps {
            match self.above_one(&dep.what, height)? {
                Some(taller) => height = taller,
                None => return Ok(None),
            }
        }
        Ok(Some(height))
    }

    // Whether these canonical bytes, at this height, come after those of all tasks.
    fn comes_last(&self, bytes: &[u8], height: u64) -> bool
        ensures { result ≡ is_last (heights_in self.now) bytes.now height }
    {
        match self.by_bytes.last() {
            Some((last, below)) => is_before(last.as_slice(), *below, bytes, height),
            None => true,
        }
    }

    // The height of a record that may stand after these, with the canonical bytes of its task.
    fn height_after(
        &self,
        known: &IndexSet<Vec<u8>>,
        bytes: &[u8],
        row: &TaskRecord,
    ) -> Result<Option<u64>, OutOfMemory>
        requires bytes { bytes.now ≡ enc_task row.now.task }
        requires deps { All IsStorableDep row.now.deps }
        ensures height { IfOk result (λ h. (rows : Ranked) → AreHeights rows self.now → h ≡ specs_height_after (set_has known.now) rows row.now) }
        ensures stored { IfOk result (λ h. IfSome h (λ n. All (λ (d : Dep). IsStoredOn d.what) row.now.deps)) }
        ensures absent { IfOk result (λ h. IfSome h (λ n. height_of (heights_in self.now) bytes.now ≡ None)) }
    {
        if self.at(bytes).is_some() {
            return Ok(None);
        }
        match self.above(row.deps.as_slice())? {
            Some(height)
                if self.comes_last(bytes, height)
                    && known.contains(row.task.func.as_str().as_bytes()) => { Ok(Some(height)) }
            _ => Ok(None),
        }
    }

    // Adds a record, if it may stand after these.
    pub(crate) fn admit(
        &mut self,
        known: &IndexSet<Vec<u8>>,
        row: &TaskRecord,
    ) -> Result<bool, OutOfMemory>
        requires { IsStorable row.now }
        ensures admitted { IfOk result (λ may. may ≡ true → Adds (set_has known.now) self.old row.now self.new) }
        ensures refused { IfOk result (λ may. may ≡ false → Bars (set_has known.now) self.old row.now) }
        ensures task { OnOk result (IsStored row.now.task) }
        ensures deps { IfOk result (λ may. may ≡ true → All (λ (d : Dep). IsStoredOn d.what) row.now.deps) }
    {
        let bytes = encode_task(self.alloc, &row.task)?;
        match self.height_after(known, bytes.as_slice(), row)? {
            Some(height) => {
                self.by_bytes.insert(bytes, height)?;
                Ok(true)
            }
            None => Ok(false),
        }
    }
}

// Whether these bytes at one height come before others at another.
fn is_before(bytes: &[u8], height: u64, other: &[u8], other_height: u64) -> bool
    ensures { result ≡ is_below (bytes.now, height) other.now other_height }
{
    match height.cmp(&other_height) {
        Ordering::Less => true,
        Ordering::Equal => bytes.cmp(other) == Ordering::Less,
        Ordering::Greater => false,
    }
}

// At least so much, and more than a height; one of more than 64 bits is out of memory.
fn taller(height: u64, below: u64) -> Result<u64, OutOfMemory>
    ensures { IfOk result (λ n. n ≡ max height (below + 1)) }
{
    match below.checked_add(1) {
        Some(above) => Ok(height.max(above)),
        None => Err(OutOfMemory),
    }
}
