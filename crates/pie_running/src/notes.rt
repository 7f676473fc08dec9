//! What a task has done so far while it runs.
ghost use Rattle.std.specs.Prelude.{◌≡◌, ◌<◌, ◌^◌, ◌-◌, IfOk, OnOk};
ghost use Rattle.pie_graph.specs.Numbers.{numbers};
ghost use Rattle.pie_running.specs.inner.Noted.{begun, file_dep, noted_in, observed, required as specs_required, wrote as specs_wrote};

use crate::page::{NoteParts, Page};
use pie_base::{OutOfMemory, Path};
use pie_graph::TaskNo;
use pie_record::{Dep, DepKind};
use pie_value::{Stamp, Task};
use std::alloc::Global;
use std::marker::Model;

/// What a running task has observed, written and required so far. Contracts see it as plain data.
#[derive(Drop)]
pub struct Notes {
    // Boxed, so that a task that runs or waits is moved as a few words.
    page: Box<Page>,
}

impl Model for Notes {
    ghost use Rattle.pie_running.specs.inner.Noted.{Noted};
    ghost use Rattle.pie_running.specs.inner.NotedCodes.{coded_noted};

    ghost Value = { Noted };

    ghost coded = { coded_noted };

    ghost view = { λ n. n.page.value };
}

impl Notes {
    /// A task that has done nothing yet.
    pub(crate) fn new(alloc: Global, task: Task, no: TaskNo) -> Result<Notes, OutOfMemory>
        ensures { IfOk result (λ n. n ≡ begun task no.0 1000001) }
    {
        let page = Box::new(alloc, Page::new(alloc, task, no))?;
        Ok(Notes { page })
    }

    /// A path was observed.
    pub(crate) fn saw(&mut self, kind: DepKind, path: Path, stamp: Stamp) -> Result<(), OutOfMemory>
        requires { 0 < self.old.left }
        ensures { OnOk result (self.new ≡ observed (file_dep kind path stamp) self.old) }
    {
        self.page.saw(kind, path, stamp)
    }

    /// A task with this number and height was required.
    pub(crate) fn required(&mut self, dep: Dep, no: TaskNo, height: u32) -> Result<(), OutOfMemory>
        requires left { 0 < self.old.left }
        requires height { height < 2 ^ 32 - 1 }
        ensures { OnOk result (self.new ≡ specs_required dep no.0 height self.old) }
    {
        self.page.required(dep, no, height)
    }

    /// A content with this SHA-256 was written.
    pub(crate) fn wrote(&mut self, path: Path, hash: [u8; 32]) -> Result<(), OutOfMemory>
        requires { 0 < self.old.left }
        ensures { OnOk result (self.new ≡ specs_wrote path hash self.old) }
    {
        self.page.wrote(path, hash)
    }

    pub fn task(&self) -> &Task
        ensures { result.now ≡ self.now.task }
    {
        &self.page.task
    }

    pub fn no(&self) -> TaskNo
        ensures { result.0 ≡ self.now.number }
    {
        self.page.no
    }

    /// The numbers of the tasks that it required, in order.
    pub fn needs(&self) -> &[TaskNo]
        ensures { numbers result.now ≡ self.now.needs }
    {
        self.page.needs.as_slice()
    }

    /// How many answers it may still have.
    pub fn left(&self) -> u32
        ensures { result ≡ self.now.left }
    {
        self.page.left
    }

    /// One more than the greatest height of the tasks that it required, or 0.
    pub fn height(&self) -> u32
        ensures { result ≡ self.now.height }
    {
        self.page.height
    }

    /// All but the answers that are left.
    pub fn into_parts(self) -> NoteParts
        ensures { self ≡ noted_in result self.left }
    {
        let Notes { page } = self;
        Box::into_inner(page).into_parts()
    }

    /// The task alone.
    pub fn into_task(self) -> Task
        ensures { result ≡ self.task }
    {
        let NoteParts {
            task,
            no: _,
            deps: _,
            writes: _,
            needs: _,
            height: _,
        } = self.into_parts();
        task
    }
}
