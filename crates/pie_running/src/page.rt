//! What a task has done so far, as it is kept.
ghost use Rattle.std.specs.Prelude.{◌≡◌, ◌<◌, ◌^◌, ◌-◌, ◌++◌, ◌∷◌, [], OnOk};
ghost use Rattle.pie_running.specs.inner.Noted.{begun, file_dep, noted_in, observed, required as specs_required, wrote as specs_wrote};

use pie_base::{MAX_TICKS, OutOfMemory, Path};
use pie_graph::TaskNo;
use pie_record::{Dep, DepKind, DepOn};
use pie_value::{Stamp, Task};
use std::alloc::Global;
use std::marker::Model;

/// What a task did, part by part.
#[derive(Drop)]
pub struct NoteParts {
    pub task: Task,
    pub no: TaskNo,
    /// What it observed and required, in order.
    pub deps: Vec<Dep>,
    /// What it wrote, each with the SHA-256 of the content, in the order of writing.
    pub writes: Vec<(Path, [u8; 32])>,
    /// The numbers of the tasks that it required, in order.
    pub needs: Vec<TaskNo>,
    /// One more than the greatest height of these, or 0.
    pub height: u32,
}

/// What a running task has done so far. Contracts see it as plain data.
#[derive(Drop)]
pub(crate) struct Page {
    pub(crate) task: Task,
    pub(crate) no: TaskNo,
    pub(crate) deps: Vec<Dep>,
    pub(crate) writes: Vec<(Path, [u8; 32])>,
    pub(crate) needs: Vec<TaskNo>,
    pub(crate) height: u32,
    /// How many answers it may still have. An answer costs a tick at least, so a machine ends before these are used up.
    pub(crate) left: u32,
}

impl Model for Page {
    ghost use Rattle.pie_graph.specs.Numbers.{numbers};
    ghost use Rattle.pie_running.specs.inner.Noted.{Noted};
    ghost use Rattle.pie_running.specs.inner.NotedCodes.{coded_noted};

    ghost Value = { Noted };

    ghost coded = { coded_noted };

    ghost view = { λ n. record {
      task = n.task;
      number = n.no.0;
      deps = n.deps.items;
      writes = n.writes.items;
      needs = numbers n.needs.items;
      height = n.height;
      left = n.left;
    } };
}

impl Page {
    /// A task that has done nothing yet.
    pub(crate) fn new(alloc: Global, task: Task, no: TaskNo) -> Page
        ensures { result ≡ begun task no.0 1000001 }
    {
        Page {
            task,
            no,
            deps: Vec::new(alloc),
            writes: Vec::new(alloc),
            needs: Vec::new(alloc),
            height: 0,
            left: MAX_TICKS + 1,
        }
    }

    /// A path was observed.
    pub(crate) fn saw(&mut self, kind: DepKind, path: Path, stamp: Stamp) -> Result<(), OutOfMemory>
        requires { 0 < self.old.left }
        ensures { OnOk result (self.new ≡ observed (file_dep kind path stamp) self.old) }
    {
        self.left -= 1;
        let dep = Dep {
            kind,
            what: DepOn::File(path),
            stamp,
        };
        push_dep(&mut self.deps, dep)
    }

    /// A task with this number and height was required.
    pub(crate) fn required(&mut self, dep: Dep, no: TaskNo, height: u32) -> Result<(), OutOfMemory>
        requires left { 0 < self.old.left }
        requires height { height < 2 ^ 32 - 1 }
        ensures { OnOk result (self.new ≡ specs_required dep no.0 height self.old) }
    {
        self.left -= 1;
        self.needs.push(no)?;
        push_dep(&mut self.deps, dep)?;
        self.height = self.height.max(height + 1);
        Ok(())
    }

    /// A content with this SHA-256 was written.
    pub(crate) fn wrote(&mut self, path: Path, hash: [u8; 32]) -> Result<(), OutOfMemory>
        requires { 0 < self.old.left }
        ensures { OnOk result (self.new ≡ specs_wrote path hash self.old) }
    {
        self.left -= 1;
        self.writes.push((path, hash))?;
        Ok(())
    }

    /// All but the answers that are left, in no more memory than it needs: most of it is kept to the end of a build.
    pub(crate) fn into_parts(self) -> NoteParts
        ensures { self ≡ noted_in result self.left }
    {
        let Page {
            task,
            no,
            mut deps,
            mut writes,
            needs,
            height,
            left: _,
        } = self;
        deps.shrink_to_fit();
        writes.shrink_to_fit();
        NoteParts {
            task,
            no,
            deps,
            writes,
            needs,
            height,
        }
    }
}

// An observation behind others. Many tasks make one alone, so the first one takes room for itself only.
fn push_dep(deps: &mut Vec<Dep>, dep: Dep) -> Result<(), OutOfMemory>
    ensures { OnOk result (deps.new.items ≡ deps.old.items ++ dep ∷ []) }
{
    if deps.is_empty() {
        deps.reserve_exact(1)?;
    }
    deps.push(dep)?;
    Ok(())
}
