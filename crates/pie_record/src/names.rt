//! Numbers for tasks.
ghost use Rattle.std.specs.Prelude.{◌≡◌, ◌+◌, ◌<◌, ◌^◌, length, List, [], ◌∷◌, ◌++◌, All, Contains, Some, slice_get, IfSome, IfOk, IsTrue, OnOk, OnErr};
ghost use Rattle.pie_value.specs.declared.task.Task.{Task};
ghost use Rattle.pie_value.specs.Canonical.{enc_task, IsCanonicalTask, IsEncodableTask};
ghost use Rattle.pie_record.specs.inner.Names.{Numbers, AreDistinct, IsPlace, IsFree, IsKeyAt};

use indexmap::IndexSet;
use pie_base::OutOfMemory;
use pie_graph::TaskNo;
use pie_value::{Task, encode_task, put_task};
use std::alloc::Global;
use std::cmp::Ordering;
use std::marker::Model;

/// Distinct tasks in the order in which they were added, numbered from 0. Contracts see the list of them.
// Looking a task up takes its canonical bytes; the tasks stand beside these in the same order.
#[derive(Drop)]
pub struct TaskNames {
    alloc: Global,
    bytes: IndexSet<Vec<u8>>,
    tasks: Vec<Task>,
}

impl Model for TaskNames {
    ghost use Rattle.std.specs.Prelude.{List};
    ghost use Rattle.pie_value.specs.declared.task.Task.{Task};
    ghost use Rattle.pie_value.specs.inner.TaskCodes.{coded_tasks};
    ghost use Rattle.pie_record.specs.inner.Names.{AreNamed};

    ghost Value = { List Task };

    ghost coded = { coded_tasks };

    ghost view = { λ n. n.tasks.items };

    ghost invariant = { λ n. AreNamed n.bytes.keys n.tasks.items };
}

impl TaskNames {
    /// No tasks.
    pub fn new(alloc: Global) -> TaskNames
        ensures { result ≡ [] }
    {
        TaskNames {
            alloc,
            bytes: IndexSet::new(alloc),
            tasks: Vec::new(alloc),
        }
    }

    /// The number of a task, or `None` where it is absent.
    pub fn number(&self, task: &Task) -> Result<Option<TaskNo>, OutOfMemory>
        requires { IsEncodableTask task.now }
        ensures { IfOk result (λ no. Numbers self.now task.now no) }
    {
        let mut bytes = Vec::with_capacity(self.alloc, task.size() as usize)?;
        self.number_in(&mut bytes, task)
    }

    /// The number of a task, or `None` where it is absent. The task's canonical bytes take the place of what was in `bytes`, so
    /// that many tasks can be looked up in the same memory. After an error it isn't said what is there.
    pub fn number_in(&self, bytes: &mut Vec<u8>, task: &Task) -> Result<Option<TaskNo>, OutOfMemory>
        requires { IsEncodableTask task.now }
        ensures number { IfOk result (λ no. Numbers self.now task.now no) }
        ensures bytes { OnOk result (IsCanonicalTask task.now bytes.new.items) }
    {
        write_task(bytes, task)?;
        Ok(self.number_of(bytes.as_slice()))
    }

    /// The number of the task with these canonical bytes, or `None` where it is absent.
    pub fn number_of(&self, bytes: &[u8]) -> Option<TaskNo>
        ensures { (task : Task) → IsCanonicalTask task bytes.now → Numbers self.now task result }
    {
        match place(&self.bytes, bytes) {
            Some(at) => Some(TaskNo(at as u32)),
            None => None,
        }
    }

    /// The number of a task, or `None` where it is absent. It is looked for behind this number and at it first, since tasks
    /// that are looked up one after another often stand so, and then by its canonical bytes. What is in `bytes` is of no
    /// account: memory for these.
    pub fn number_near(
        &self,
        near: TaskNo,
        bytes: &mut Vec<u8>,
        task: &Task,
    ) -> Result<Option<TaskNo>, OutOfMemory>
        requires { IsCanonicalTask task.now (enc_task task.now) }
        ensures { IfOk result (λ no. Numbers self.now task.now no) }
    {
        if let Some(next) = near.0.checked_add(1) {
            if self.is_at(TaskNo(next), task) {
                return Ok(Some(TaskNo(next)));
            }
        }
        if self.is_at(near, task) {
            return Ok(Some(near));
        }
        self.number_in(bytes, task)
    }

    // Whether the task has this number.
    fn is_at(&self, no: TaskNo, task: &Task) -> bool
        requires { IsCanonicalTask task.now (enc_task task.now) }
        ensures { IsTrue result → slice_get self.now no.0 ≡ Some task.now }
    {
        if no.0 as usize >= self.tasks.len() {
            return false;
        }
        match self.task(no).cmp(task) {
            Ordering::Equal => true,
            _ => false,
        }
    }

    /// Adds a task, with the next number.
    pub fn add(&mut self, task: Task) -> Result<TaskNo, OutOfMemory>
        requires encodable { IsEncodableTask task }
        requires absent { ¬ (Contains self.old task) }
        requires few { length self.old < 2 ^ 32 }
        ensures added { OnOk result (self.new ≡ self.old ++ task ∷ []) }
        ensures number { IfOk result (λ no. no.0 ≡ length self.old) }
        ensures unchanged { OnErr result (self.new ≡ self.old) }
    {
        let bytes = encode_task(self.alloc, &task)?;
        self.add_written(task, bytes)
    }

    /// Adds a task that has these canonical bytes, with the next number.
    pub fn add_written(&mut self, task: Task, bytes: Vec<u8>) -> Result<TaskNo, OutOfMemory>
        requires canonical { IsCanonicalTask task bytes.items }
        requires absent { ¬ (Contains self.old task) }
        requires few { length self.old < 2 ^ 32 }
        ensures added { OnOk result (self.new ≡ self.old ++ task ∷ []) }
        ensures number { IfOk result (λ no. no.0 ≡ length self.old) }
        ensures unchanged { OnErr result (self.new ≡ self.old) }
    {
        let no = TaskNo(self.tasks.len() as u32);
        self.tasks.push(task)?;
        match add_bytes(&mut self.bytes, bytes) {
            Ok(()) => Ok(no),
            Err(fault) => {
                let _task = self.tasks.pop();
                Err(fault)
            }
        }
    }

    /// The canonical bytes of the task with this number.
    pub fn bytes(&self, no: TaskNo) -> &[u8]
        requires { no.0 < length self.now }
        ensures { IfSome (slice_get self.now no.0) (λ task. IsCanonicalTask task result.now) }
    {
        key_at(&self.bytes, no.0 as usize)
    }

    /// The task with this number.
    pub fn task(&self, no: TaskNo) -> &Task
        requires { no.0 < length self.now }
        ensures { slice_get self.now no.0 ≡ Some result.now }
    {
        &self.tasks[no.0 as usize]
    }

    /// The tasks in the order of their numbers.
    pub fn as_slice(&self) -> &[Task]
        ensures tasks { result.now ≡ self.now }
        ensures distinct { AreDistinct self.now }
        ensures canonical { All (λ t. IsCanonicalTask t (enc_task t)) self.now }
    {
        self.tasks.as_slice()
    }
}

// The canonical bytes of a task, in place of what is there.
fn write_task(out: &mut Vec<u8>, task: &Task) -> Result<(), OutOfMemory>
    requires { IsEncodableTask task.now }
    ensures { OnOk result (IsCanonicalTask task.now out.new.items) }
{
    out.clear();
    put_task(out, task)
}

// The key that stands there.
fn key_at(keys: &IndexSet<Vec<u8>>, at: usize) -> &[u8]
    requires { at < length keys.now.keys }
    ensures { IsKeyAt keys.now.keys at result.now }
{
    match keys.get_index(at) {
        Some(key) => key.as_slice(),
        None => unreachable!(),
    }
}

// Where these bytes stand.
fn place(keys: &IndexSet<Vec<u8>>, bytes: &[u8]) -> Option<usize>
    ensures { IsPlace keys.now.keys bytes.now result }
{
    keys.get_index_of(bytes)
}

fn add_bytes(keys: &mut IndexSet<Vec<u8>>, bytes: Vec<u8>) -> Result<(), OutOfMemory>
    requires { IsFree keys.old.keys bytes.items }
    ensures added { OnOk result (keys.new.keys ≡ keys.old.keys ++ bytes ∷ []) }
    ensures unchanged { OnErr result (keys.new.keys ≡ keys.old.keys) }
{
    keys.insert(bytes)?;
    Ok(())
}
