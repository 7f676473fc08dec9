//! Builds over the store of an earlier one.
ghost use Rattle.std.specs.Prelude.{◌≡◌, length, IfOk, All};
ghost use Rattle.pie_tables.specs.Tabled.{IsKept, IsTables};
ghost use Rattle.pie_value.specs.Canonical.{IsEncodableTask};

use pie_base::{FaultKind, Path, Text};
use pie_checks::Built;
use pie_graph::TaskNo;
use pie_old::{Loaded, Old, load};
use pie_reach::is_acyclic;
use pie_record::{Deps, Outcome, TaskRecord, Writes};
use pie_results::results;
use pie_store::decode_store;
use pie_value::{Fault, Items, Task, Verdict};
use pie_view::Stage;
use sha2::{Digest, Sha256};
use std::alloc::Global;
use std::test::Fail;

// A store without its digest: `a()` wrote `out/x`, and `b()` ran `a()`.
const STORE: &str =
    "504945530200000002000000016100000000000000000000000000000000000000000000000000000000000000000000\
    000162111111111111111111111111111111111111111111111111111111111111111100000001000000016200000000\
    000000020000000161000000000000000000000001000000056f75742f78000102030405060708090a0b0c0d0e0f1011\
    12131415161718191a1b1c1d1e1f0000000001620000000000000003080000000161000000000501000000056f75742f\
    780108000000016100000000050000000000";

fn bytes(alloc: Global) -> Result<Vec<u8>, Fail> {
    let mut bytes = hex::decode(alloc, STORE)?;
    let mut hasher = Sha256::new();
    hasher.update(bytes.as_slice());
    let digest = hasher.finalize();
    bytes.extend_from_slice(digest.as_slice())?;
    Ok(bytes)
}

fn loaded(alloc: Global) -> Result<Old, Fail>
    ensures tables { IfOk result (λ old. IsTables old.tables) }
    ensures rows { IfOk result (λ old. length old.tables.names ≡ length old.rows) }
{
    let bytes = bytes(alloc)?;
    let image = decode_store(alloc, bytes.as_slice())?;
    match load(alloc, image.rows)? {
        Loaded::Whole(old) => Ok(old),
        Loaded::Many(_) => Err(Fail::new("many")),
    }
}

// A task without arguments, as a list.
fn only(alloc: Global, func: &str) -> Result<Vec<Task>, Fail>
    ensures { IfOk result (λ tasks. All IsEncodableTask tasks.items) }
{
    let func = Text::new(alloc, func)?;
    let task = Task {
        func,
        args: Items::new(),
    };
    if !task.is_small() {
        return Err(Fail::new("long"));
    }
    let mut tasks = Vec::new(alloc);
    tasks.push(task)?;
    Ok(tasks)
}

// What a build with one root makes, as text: its verdict, the tasks of its records, its files, and how many outputs.
fn told(alloc: Global, old: &mut Old, stage: &Stage, root: &str) -> Result<String, Fail>
    requires tables { IsTables old.old.tables }
    requires rows { length old.old.tables.names ≡ length old.old.rows }
{
    let roots = only(alloc, root)?;
    let acyclic = is_acyclic(alloc, &old.rows)?;
    if !acyclic {
        return Err(Fail::new("cycle"));
    }
    let built = results(alloc, &mut old.tables, &old.rows, stage, roots.as_slice())?;
    shown(alloc, &built)
}

fn shown(alloc: Global, built: &Built) -> Result<String, Fail> {
    let mut said = String::new(alloc);
    match built.verdict {
        Verdict::Accepted => said.push_str("accepted")?,
        Verdict::Refused(_) => said.push_str("refused")?,
    }
    for row in &built.rows {
        said.push_str(" ")?;
        said.push_str(row.task.func.as_str())?;
    }
    for (path, _) in &built.files {
        said.push_str(" ")?;
        said.push_str(path.as_str())?;
    }
    for _ in &built.outputs {
        said.push_str(" +")?;
    }
    Ok(said)
}

#[test]
fn kept_tasks_have_records_and_no_files(rt: HostRuntime) -> Result<(), Fail> {
    let alloc = rt.alloc();
    let mut old = loaded(alloc)?;
    let said = told(alloc, &mut old, &Stage::new(alloc), "b")?;
    assert_eq!(rt; said.as_str(), "accepted a b +");
    Ok(())
}

#[test]
fn what_no_root_reaches_is_left_out(rt: HostRuntime) -> Result<(), Fail> {
    let alloc = rt.alloc();
    let mut old = loaded(alloc)?;
    let said = told(alloc, &mut old, &Stage::new(alloc), "a")?;
    assert_eq!(rt; said.as_str(), "accepted a +");
    Ok(())
}

#[test]
fn a_task_that_ran_has_its_files(rt: HostRuntime) -> Result<(), Fail> {
    let alloc = rt.alloc();
    let mut old = loaded(alloc)?;
    if old.tables.names.as_slice().len() == 0 {
        return Err(Fail::new("none"));
    }
    old.tables.runs(TaskNo(0));
    let mut stage = Stage::new(alloc);
    let content = Vec::from_slice(alloc, b"new")?;
    stage.put(TaskNo(0), Path::read(alloc, "out/x")?, content)?;
    let said = told(alloc, &mut old, &stage, "b")?;
    assert_eq!(rt; said.as_str(), "accepted a b out/x +");
    Ok(())
}

// The record of a task that failed.
fn failed(alloc: Global, task: &Task) -> Result<TaskRecord, Fail>
    ensures task { IfOk result (λ rec. rec.task ≡ task.now) }
    ensures kept { IfOk result (λ rec. IsKept rec) }
{
    let fault = Fault {
        task: task.copy()?,
        kind: FaultKind::Budget,
    };
    Ok(TaskRecord {
        task: task.copy()?,
        deps: Deps::new(Vec::new(alloc)),
        writes: Writes::new(Vec::new(alloc)),
        outcome: Outcome::Failed(fault),
    })
}

// What a build with one root makes of a store whose second task failed.
fn told_of_failed(alloc: Global, root: &str) -> Result<String, Fail> {
    let mut old = loaded(alloc)?;
    if old.tables.names.as_slice().len() < 2 {
        return Err(Fail::new("few"));
    }
    let rec = failed(alloc, old.tables.names.task(TaskNo(1)))?;
    old.tables.put(TaskNo(1), rec)?;
    let said = told(alloc, &mut old, &Stage::new(alloc), root)?;
    Ok(said)
}

#[test]
fn a_task_that_failed_refuses_a_build_with_it_as_root(rt: HostRuntime) -> Result<(), Fail> {
    let alloc = rt.alloc();
    let said = told_of_failed(alloc, "b")?;
    assert_eq!(rt; said.as_str(), "refused");
    let said = told_of_failed(alloc, "a")?;
    assert_eq!(rt; said.as_str(), "accepted a +");
    Ok(())
}
