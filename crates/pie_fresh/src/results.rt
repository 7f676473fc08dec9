//! What a build leaves where all its roots are done.
ghost use Rattle.std.specs.Prelude.{◌≡◌, ◌+◌, ◌<◌, [], All, Contains, IsTrue, length, IfOk, OnOk};
ghost use Rattle.std.specs.BTreeMap.{IsOrdered};
ghost use Rattle.std.specs.Cmp.Lexicographic.{slice_cmp};
ghost use Rattle.std.specs.Ordering.{nat_cmp};
ghost use Rattle.pie_base.specs.Path.{is_out};
ghost use Rattle.pie_builder_laws.specs.Builds.{AreLive, AreOutputs, AreRows, WroteAt};
ghost use Rattle.pie_graph.specs.Numbers.{AllBelow, numbers};
ghost use Rattle.pie_record.specs.Canonical.{IsStorable, IsStorableWrite};
ghost use Rattle.pie_value.specs.Canonical.{IsEncodableTask};
ghost use Rattle.pie_fresh.specs.inner.Builds.{InPathOrder, OnlyOut};
ghost use Rattle.pie_fresh.specs.inner.Collected.{AreFilesOf, AreOfTasks, Gives, GainsOutput, HasStaged, HasWritten, KeepsPaths, WritesAreStaged, output_at};
ghost use Rattle.pie_fresh.specs.inner.Frames.{AreEntered};
ghost use Rattle.pie_fresh.specs.inner.Ledgers.{AreOpen, IsLedger};
ghost use Rattle.pie_fresh.specs.inner.Ordered.{AreApart, AreGathered, ArePlaces, AreOrdered, recorded};

use crate::ledger::Ledger;
use pie_base::{OutOfMemory, Path};
use pie_graph::TaskNo;
use pie_record::{Records, TaskRecord};
use pie_running::Done;
use pie_value::{Task, Value};
use std::alloc::Global;
use std::collections::BTreeMap;

impl Ledger {
    /// The numbers of all tasks.
    #[tactic(auto, using(crate::proofs::BuiltLemmas::pushed_below))]
    pub(crate) fn all_numbers(&self) -> Result<Vec<TaskNo>, OutOfMemory>
        requires { IsLedger self.now }
        ensures below { IfOk result (λ nos. AllBelow (length self.now.names) (numbers nos.items)) }
        ensures live { IfOk result (λ nos. AreLive self.now.names (numbers nos.items)) }
    {
        let mut nos = Vec::new(self.alloc);
        for n in 0..self.heights.len() as u32 {
            nos.push(TaskNo(n))?;
        }
        Ok(nos)
    }

    /// The records by height and task. They are moved out of the ledger.
    pub(crate) fn ordered(&mut self) -> Result<Vec<TaskRecord>, OutOfMemory>
        requires { IsLedger self.old }
        ensures storable { IfOk result (λ rows. All IsStorable rows.items) }
        ensures ordered { IfOk result (λ rows. AreOrdered self.old rows.items) }
        ensures rows { IfOk result (λ rows. AreRows self.old.names self.old.records rows.items) }
    {
        let _names = self.names.as_slice();
        let places = self.places()?;
        let rows = taken(self.alloc, &mut self.records, places.as_slice())?;
        Ok(rows)
    }

    // The numbers by height and task. At one height most tasks come in the order of their bytes already, so after a sort by heights
    // alone few bytes are compared.
    fn places(&self) -> Result<Vec<((u32, Vec<u8>), u32)>, OutOfMemory>
        requires { IsLedger self.now }
        ensures { IfOk result (λ places. ArePlaces self.now (length self.now.heights.items) places.items) }
    {
        let _names = self.names.as_slice();
        let mut places = self.gathered()?;
        places.sort_by_key(|place| place.0.0)?;
        places.sort()?;
        Ok(places)
    }

    // The numbers in their own order, each with its height and its canonical bytes.
    fn gathered(&self) -> Result<Vec<((u32, Vec<u8>), u32)>, OutOfMemory>
        requires { IsLedger self.now }
        ensures { IfOk result (λ places. AreGathered self.now (length self.now.heights.items) places.items) }
    {
        let mut places = Vec::with_capacity(self.alloc, self.heights.len())?;
        for n in 0..self.heights.len() {
            self.put_place(n, &mut places)?;
        }
        Ok(places)
    }

    // Adds the number of a task with its height and its canonical bytes.
    fn put_place(
        &self,
        n: usize,
        places: &mut Vec<((u32, Vec<u8>), u32)>,
    ) -> Result<(), OutOfMemory>
        requires ledger { IsLedger self.now }
        requires number { n < length self.now.heights.items }
        requires places { AreGathered self.now n places.old.items }
        ensures { OnOk result (AreGathered self.now (n + 1) places.new.items) }
    {
        let no = TaskNo(n as u32);
        match self.records.get(no) {
            Some(_rec) => {
                let bytes = Vec::from_slice(self.alloc, self.names.bytes(no))?;
                places.push(((self.heights[n], bytes), no.0))?;
                Ok(())
            }
            None => Ok(()),
        }
    }

    /// The files that tasks wrote, in path order.
    pub(crate) fn files(&self) -> Result<Vec<(Path, Vec<u8>)>, OutOfMemory>
        requires { IsLedger self.now }
        ensures order { IfOk result (λ files. InPathOrder files.items) }
        ensures files { IfOk result (λ files. WritesAreStaged self.now → AreFilesOf self.now files.items) }
    {
        let mut files = BTreeMap::new(self.alloc);
        for n in 0..self.heights.len() as u32 {
            self.put_files(TaskNo(n), &mut files)?;
        }
        let list = listed(self.alloc, files)?;
        Ok(list)
    }

    // Adds the files that a task wrote.
    fn put_files(&self, no: TaskNo, files: &mut BTreeMap<Path, Vec<u8>>) -> Result<(), OutOfMemory>
        requires ledger { IsLedger self.now }
        requires out { OnlyOut files.old }
        requires of_tasks { AreOfTasks self.now files.old }
        ensures out { OnOk result (OnlyOut files.new) }
        ensures of_tasks { OnOk result (AreOfTasks self.now files.new) }
        ensures keeps { OnOk result (KeepsPaths files.old files.new) }
        ensures written { OnOk result (HasWritten self.now no.0 files.new) }
    {
        match self.records.get(no) {
            Some(rec) => {
                self.put_all(no, rec.writes.as_slice(), files)?;
                Ok(())
            }
            None => Ok(()),
        }
    }

    // Adds the files at paths that a task wrote.
    fn put_all(
        &self,
        no: TaskNo,
        writes: &[(Path, [u8; 32])],
        files: &mut BTreeMap<Path, Vec<u8>>,
    ) -> Result<(), OutOfMemory>
        requires writes { All IsStorableWrite writes.now }
        requires wrote { All (λ w. WroteAt self.now.records no.0 w.0) writes.now }
        requires out { OnlyOut files.old }
        requires of_tasks { AreOfTasks self.now files.old }
        ensures out { OnOk result (OnlyOut files.new) }
        ensures of_tasks { OnOk result (AreOfTasks self.now files.new) }
        ensures keeps { OnOk result (KeepsPaths files.old files.new) }
        ensures each { OnOk result (All (λ w. HasStaged self.now no.0 files.new w.0) writes.now) }
    {
        for (path, _) in writes {
            self.put_file(no, path, files)?;
        }
        Ok(())
    }

    // Adds the file at a path that a task wrote.
    fn put_file(
        &self,
        no: TaskNo,
        path: &Path,
        files: &mut BTreeMap<Path, Vec<u8>>,
    ) -> Result<(), OutOfMemory>
        requires path { IsTrue (is_out path.now) }
        requires wrote { WroteAt self.now.records no.0 path.now }
        requires out { OnlyOut files.old }
        requires of_tasks { AreOfTasks self.now files.old }
        ensures out { OnOk result (OnlyOut files.new) }
        ensures of_tasks { OnOk result (AreOfTasks self.now files.new) }
        ensures keeps { OnOk result (KeepsPaths files.old files.new) }
        ensures staged { OnOk result (HasStaged self.now no.0 files.new path.now) }
    {
        match self.stage.get(no, path) {
            Some(content) => {
                let content = content.to_vec(self.alloc)?;
                files.insert(path.copy()?, content)?;
                Ok(())
            }
            None => Ok(()),
        }
    }

    // The output of a task, where all tasks are done.
    fn output(&self, task: &Task) -> Result<Option<Value>, OutOfMemory>
        requires ledger { IsLedger self.now }
        requires finished { AreOpen self.now [] }
        requires small { IsEncodableTask task.now }
        requires named { Contains self.now.names task.now }
        ensures { IfOk result (λ output. Gives self.now task.now output) }
    {
        match self.names.number(task)? {
            Some(no) => self.output_of(no),
            None => Ok(None),
        }
    }

    // The output of the task with a number, if it is done.
    fn output_of(&self, no: TaskNo) -> Result<Option<Value>, OutOfMemory>
        requires ledger { IsLedger self.now }
        requires number { no.0 < length self.now.names }
        ensures { IfOk result (λ output. output ≡ output_at self.now.records no.0) }
    {
        match self.done(no)? {
            Some(done) => {
                let Done {
                    no: _,
                    height: _,
                    output,
                } = done;
                Ok(Some(output))
            }
            None => Ok(None),
        }
    }

    /// The outputs of entered tasks, in their order, where all tasks are done.
    pub(crate) fn outputs_of(&self, roots: &[Task]) -> Result<Vec<(Task, Value)>, OutOfMemory>
        requires ledger { IsLedger self.now }
        requires finished { AreOpen self.now [] }
        requires entered { AreEntered self.now.names roots.now }
        ensures { IfOk result (λ outputs. AreOutputs self.now.names self.now.records roots.now outputs.items) }
    {
        let mut outputs = Vec::new(self.alloc);
        for root in roots {
            self.put_output(root, &mut outputs)?;
        }
        Ok(outputs)
    }

    // Adds the output of a task.
    fn put_output(&self, root: &Task, outputs: &mut Vec<(Task, Value)>) -> Result<(), OutOfMemory>
        requires ledger { IsLedger self.now }
        requires finished { AreOpen self.now [] }
        requires small { IsEncodableTask root.now }
        requires named { Contains self.now.names root.now }
        ensures { OnOk result (GainsOutput self.now root.now outputs.old.items outputs.new.items) }
    {
        match self.output(root)? {
            Some(output) => {
                let root = root.copy()?;
                outputs.push((root, output))?;
                Ok(())
            }
            None => Ok(()),
        }
    }
}

// The records at places, which have none afterwards.
fn taken(
    alloc: Global,
    records: &mut Records,
    places: &[((u32, Vec<u8>), u32)],
) -> Result<Vec<TaskRecord>, OutOfMemory>
    requires { AreApart places.now }
    ensures { IfOk result (λ rows. rows.items ≡ recorded records.old places.now) }
{
    let mut rows = Vec::with_capacity(alloc, places.len())?;
    for (_, no) in places {
        records.move_to(TaskNo(*no), &mut rows)?;
    }
    Ok(rows)
}

// The files of a map in order.
fn listed(
    alloc: Global,
    files: BTreeMap<Path, Vec<u8>>,
) -> Result<Vec<(Path, Vec<u8>)>, OutOfMemory>
    requires { OnlyOut files }
    ensures order { IfOk result (λ list. InPathOrder list.items) }
    ensures entries { IfOk result (λ list. list.items ≡ files.entries) }
    ensures ordered { IsOrdered (slice_cmp nat_cmp) files }
{
    let _count = files.len();
    let list = emptied(alloc, files)?;
    Ok(list)
}

fn emptied(
    alloc: Global,
    files: BTreeMap<Path, Vec<u8>>,
) -> Result<Vec<(Path, Vec<u8>)>, OutOfMemory>
    ensures { IfOk result (λ list. list.items ≡ files.entries) }
{
    let mut files = files;
    let mut list = Vec::new(alloc);
    'files: loop {
        match files.pop_first() {
            Some(file) => list.push(file)?,
            None => return Ok(list),
        }
    }
}
