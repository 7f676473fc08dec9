//! What the last build keeps of one task, held against what is there now.
ghost use Rattle.std.specs.Prelude.{◌≡◌};
ghost use Rattle.pie_why.specs.Starts.{HasRecords};

use crate::digests::put_digests;
use crate::functions::Functions;
use crate::kept::put_kept;
use crate::start::Left;
use crate::text::{put, put_task};
use crate::unknown::unknown;
use crate::words::put_function;
use pie_base::{MAX_TASKS, OutOfMemory, Text};
use pie_files::{Files, FilesError};
use pie_graph::TaskNo;
use pie_named::Named;
use pie_old::{Loaded, Old, load};
use pie_store::{Cause, StoreImage};
use pie_value::{Task, show_task};
use std::alloc::Global;

/// What is told of one task.
#[derive(Drop)]
pub enum OfTask {
    /// What the store has of it, as lines.
    Kept(String),
    /// The store has no record of it; why perhaps, as lines.
    Unknown(String),
    /// A build would start afresh, for this cause.
    Afresh(Cause),
}

/// What the store says of the task that is printed so, a line each: its function, what it observed and required in order, and what it wrote, and where that isn't now as it was.
/// All files that it observed and wrote are asked, whatever is named. Rule: docs/INSPECT.md, "What one task rests on".
pub fn of_task<F: Files>(
    alloc: Global,
    files: &mut F,
    left: Box<Left>,
    digests: &[(Text, [u8; 32])],
    name: &str,
) -> Result<OfTask, FilesError>
    requires records { HasRecords left.value.image.rows }
    ensures same { F.holds files.new ≡ F.holds files.old }
{
    let Left { image, names } = Box::into_inner(left);
    drop(names);
    let mut image = Box::new(alloc, image)?;
    put_digests(alloc, files, &mut image, digests)?;
    of_image(alloc, files, image, digests, name)
}

// The same where the store says this.
fn of_image<F: Files>(
    alloc: Global,
    files: &mut F,
    image: Box<StoreImage>,
    digests: &[(Text, [u8; 32])],
    name: &str,
) -> Result<OfTask, FilesError>
    requires records { HasRecords image.value.rows }
    ensures same { F.holds files.new ≡ F.holds files.old }
{
    let StoreImage { funcs, rows, .. } = Box::into_inner(image);
    match load(alloc, rows)? {
        Loaded::Many(task) => Ok(OfTask::Afresh(Cause::UnionMany(MAX_TASKS, 0, task))),
        Loaded::Whole(old) => {
            let old = Box::new(alloc, old)?;
            of_old(alloc, files, &old, funcs.as_slice(), digests, name)
        }
    }
}

// The same where these are the old tasks, and these the functions of the store.
fn of_old<F: Files>(
    alloc: Global,
    files: &mut F,
    old: &Old,
    funcs: &[(Text, [u8; 32])],
    digests: &[(Text, [u8; 32])],
    name: &str,
) -> Result<OfTask, FilesError>
    ensures same { F.holds files.new ≡ F.holds files.old }
{
    match find(alloc, old.tables.names.as_slice(), name)? {
        Some(no) => {
            let mut out = head(alloc, old, no, funcs, digests)?;
            let mut named = Named::new(alloc);
            put_kept(alloc, &mut out, files, &mut named, &old.tables, no)?;
            Ok(OfTask::Kept(out))
        }
        None => {
            let told = unknown(alloc, funcs, old.tables.names.as_slice(), name)?;
            Ok(OfTask::Unknown(told))
        }
    }
}

// The number of the task that is printed so.
fn find(alloc: Global, tasks: &[Task], name: &str) -> Result<Option<TaskNo>, OutOfMemory> {
    let mut no: u32 = 0;
    for task in tasks {
        if is_printed(alloc, task, name)? {
            return Ok(Some(TaskNo(no)));
        }
        no = no.saturating_add(1);
    }
    Ok(None)
}

// Whether a task is printed so. Its function is looked at first.
fn is_printed(alloc: Global, task: &Task, name: &str) -> Result<bool, OutOfMemory> {
    if !name.as_bytes().starts_with(task.func.as_str().as_bytes()) {
        return Ok(false);
    }
    let shown = show_task(alloc, task)?;
    Ok(shown.as_bytes() == name.as_bytes())
}

// The task, and its function.
fn head(
    alloc: Global,
    old: &Old,
    no: TaskNo,
    funcs: &[(Text, [u8; 32])],
    digests: &[(Text, [u8; 32])],
) -> Result<String, OutOfMemory> {
    let mut out = String::new(alloc);
    if let Some(task) = old.tables.names.as_slice().get(no.0 as usize) {
        put_task(alloc, &mut out, task)?;
        put(&mut out, "\n")?;
        put_code(alloc, &mut out, task, funcs, digests)?;
    }
    Ok(out)
}

fn put_code(
    alloc: Global,
    out: &mut String,
    task: &Task,
    funcs: &[(Text, [u8; 32])],
    digests: &[(Text, [u8; 32])],
) -> Result<(), OutOfMemory> {
    let mut tasks = Vec::new(alloc);
    tasks.push(task.copy()?)?;
    let functions = Functions::of(alloc, tasks.as_slice(), funcs, digests)?;
    put_function(out, task.func.as_str(), functions.change(TaskNo(0)))
}
