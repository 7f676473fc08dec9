//! Builds that are refused at their end, and some that aren't.
ghost use Rattle.std.specs.Prelude.{IfOk, OnOk};
ghost use Rattle.pie_graph.specs.Numbers.{numbers, AllBelow};

use pie_base::{OutOfMemory, Path, Text};
use pie_checks::final_checks;
use pie_graph::TaskNo;
use pie_record::{Dep, DepKind, DepOn, Deps, Outcome, Records, TaskNames, TaskRecord, Writes};
use pie_value::{Items, Refusal, Stamp, Task, Value, show_task};
use std::alloc::Global;
use std::process::Abort;
use std::test::Fail;

// The tasks of a build, and the numbers of those that are live.
#[derive(Drop)]
struct Build {
    names: TaskNames,
    records: Records,
    live: Vec<u32>,
}

impl Build {
    fn new(alloc: Global) -> Build {
        Build {
            names: TaskNames::new(alloc),
            records: Records::new(alloc),
            live: Vec::new(alloc),
        }
    }

    // One task more, which is live: the paths that it wrote, and those that it saw absent.
    fn add(
        &mut self,
        alloc: Global,
        func: &str,
        arg: i64,
        writes: &str,
        missed: &str,
    ) -> Result<(), Fail> {
        let no = self.keep(alloc, func, arg, writes, missed)?;
        self.live.push(no)?;
        Ok(())
    }

    // One task more, which isn't live.
    fn keep(
        &mut self,
        alloc: Global,
        func: &str,
        arg: i64,
        writes: &str,
        missed: &str,
    ) -> Result<u32, Fail> {
        let no = number(&mut self.names, task(alloc, func, arg)?)?;
        let rec = record(alloc, task(alloc, func, arg)?, writes, missed)?;
        self.records.put(no, rec)?;
        Ok(no.0)
    }

    // What the last checks say.
    fn says(&self, rt: &impl Abort, alloc: Global, wanted: &str) -> Result<(), Fail> {
        let text = said(alloc, &self.names, &self.records, &self.live)?;
        assert_eq!(rt; text.as_str(), wanted);
        Ok(())
    }
}

fn said(alloc: Global, names: &TaskNames, records: &Records, live: &[u32]) -> Result<String, Fail> {
    let count = names.as_slice().len();
    let live = below(alloc, live, count)?;
    let found = final_checks(alloc, names, records, &live)?;
    shown(alloc, &found)
}

// Those of the numbers that are below a bound.
fn below(alloc: Global, nos: &[u32], bound: usize) -> Result<Vec<TaskNo>, OutOfMemory>
    ensures { IfOk result (λ found. AllBelow bound (numbers found.items)) }
{
    let mut found = Vec::new(alloc);
    for no in nos {
        push_below(&mut found, *no, bound)?;
    }
    Ok(found)
}

fn push_below(found: &mut Vec<TaskNo>, no: u32, bound: usize) -> Result<(), OutOfMemory>
    requires { AllBelow bound (numbers found.old.items) }
    ensures { OnOk result (AllBelow bound (numbers found.new.items)) }
{
    if (no as usize) < bound {
        found.push(TaskNo(no))?;
    }
    Ok(())
}

fn task(alloc: Global, func: &str, arg: i64) -> Result<Task, OutOfMemory> {
    let func = Text::new(alloc, func)?;
    let mut args = Items::new();
    args.push(alloc, Value::Int(arg))?;
    Ok(Task { func, args })
}

// The number of a task, which gets the next one where it has none; 0 where it is too large.
fn number(names: &mut TaskNames, task: Task) -> Result<TaskNo, OutOfMemory> {
    if !task.is_small() || names.as_slice().len() >= 100_000 {
        return Ok(TaskNo(0));
    }
    match names.number(&task)? {
        Some(no) => Ok(no),
        None => names.add(task),
    }
}

fn record(alloc: Global, task: Task, writes: &str, missed: &str) -> Result<TaskRecord, Fail> {
    let mut written = Vec::new(alloc);
    push_writes(alloc, &mut written, writes)?;
    let mut deps = Vec::new(alloc);
    push_misses(alloc, &mut deps, missed)?;
    Ok(TaskRecord {
        task,
        deps: Deps::new(deps),
        writes: Writes::new(written),
        outcome: Outcome::Done(Value::Unit),
    })
}

fn push_writes(alloc: Global, writes: &mut Vec<(Path, [u8; 32])>, paths: &str) -> Result<(), Fail> {
    for path in paths.split_whitespace() {
        let path = Path::read(alloc, path)?;
        writes.push((path, [0; 32]))?;
    }
    Ok(())
}

fn push_misses(alloc: Global, deps: &mut Vec<Dep>, paths: &str) -> Result<(), Fail> {
    for path in paths.split_whitespace() {
        let path = Path::read(alloc, path)?;
        deps.push(Dep {
            kind: DepKind::Exists,
            what: DepOn::File(path),
            stamp: Stamp::Absent,
        })?;
    }
    Ok(())
}

fn shown(alloc: Global, found: &Option<Refusal>) -> Result<String, Fail> {
    match found {
        Some(Refusal::Overlap(path, a, b)) => place(alloc, "overlap", path, a, b),
        Some(Refusal::Hidden(path, a, b)) => place(alloc, "hidden", path, a, b),
        Some(Refusal::Nested(path, below)) => pair(alloc, path.as_str(), below.as_str()),
        Some(_) => pair(alloc, "another", "refusal"),
        None => pair(alloc, "no", "refusal"),
    }
}

fn pair(alloc: Global, path: &str, below: &str) -> Result<String, Fail> {
    Ok(format!(in alloc; "{path}, {below}")?)
}

fn place(alloc: Global, what: &str, path: &Path, a: &Task, b: &Task) -> Result<String, Fail> {
    let path = path.as_str();
    let a = show_task(alloc, a)?;
    let b = show_task(alloc, b)?;
    Ok(format!(in alloc; "{what} {path}: {a}, {b}")?)
}

#[test]
fn two_writers_of_a_path_overlap(rt: HostRuntime) -> Result<(), Fail> {
    let mut build = Build::new(rt.alloc());
    overlaps(&rt, rt.alloc(), &mut build)
}

fn overlaps(rt: &impl Abort, alloc: Global, build: &mut Build) -> Result<(), Fail> {
    build.add(alloc, "w", 2, "out/a out/b", "")?;
    build.add(alloc, "v", 7, "out/a/b", "")?;
    build.says(rt, alloc, "out/a, out/a/b")?;
    build.add(alloc, "w", 1, "out/c out/a", "")?;
    build.says(rt, alloc, "overlap out/a: w(1), w(2)")?;
    build.add(alloc, "w", -1, "out/a", "")?;
    build.add(alloc, "v", 9, "out/a out/b", "")?;
    build.says(rt, alloc, "overlap out/a: v(9), w(1)")?;
    build.add(alloc, "u", 0, "out/0 out/0", "")?;
    build.add(alloc, "longer", 0, "out/0", "")?;
    build.says(rt, alloc, "overlap out/0: u(0), longer(0)")
}

#[test]
fn a_path_below_another_is_nested(rt: HostRuntime) -> Result<(), Fail> {
    let mut build = Build::new(rt.alloc());
    nests(&rt, rt.alloc(), &mut build)
}

fn nests(rt: &impl Abort, alloc: Global, build: &mut Build) -> Result<(), Fail> {
    build.add(
        alloc,
        "w",
        1,
        "out/a out/ab/c out/a! out/a-b out/a.b out/a0 out/b",
        "",
    )?;
    build.says(rt, alloc, "no, refusal")?;
    build.add(alloc, "w", 2, "out/a-b/z", "")?;
    build.says(rt, alloc, "out/a-b, out/a-b/z")?;
    build.add(alloc, "w", 3, "out/a/z out/a/b/c", "")?;
    build.says(rt, alloc, "out/a, out/a/b/c")?;
    build.add(alloc, "w", 4, "out/a/b", "")?;
    build.says(rt, alloc, "out/a, out/a/b")
}

#[test]
fn a_write_that_another_task_saw_absent_is_hidden(rt: HostRuntime) -> Result<(), Fail> {
    let mut build = Build::new(rt.alloc());
    hides(&rt, rt.alloc(), &mut build)
}

fn hides(rt: &impl Abort, alloc: Global, build: &mut Build) -> Result<(), Fail> {
    build.add(alloc, "r", 2, "out/r", "out/p out/q src/s")?;
    build.add(alloc, "r", 1, "", "out/q out/p")?;
    let _no = build.keep(alloc, "w", 0, "out/p", "")?;
    build.says(rt, alloc, "no, refusal")?;
    build.add(alloc, "w", 3, "out/q", "out/q")?;
    build.says(rt, alloc, "hidden out/q: r(1), w(3)")?;
    build.add(alloc, "w", 0, "out/p", "")?;
    build.says(rt, alloc, "hidden out/p: r(1), w(0)")
}
