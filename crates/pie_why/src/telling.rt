//! What a build by what changed would do, by the store alone.
ghost use Rattle.std.specs.Prelude.{◌≡◌};
ghost use Rattle.pie_why.specs.Starts.{HasRecords};

use crate::digests::put_digests;
use crate::due::due_flags;
use crate::follow::followers;
use crate::functions::{Functions, flag_of};
use crate::names::{joined_names, named_of};
use crate::observed::{put_observed, put_written};
use crate::reason::{Due, Reason, Why, Whys};
use crate::start::Left;
use pie_base::{MAX_TASKS, OutOfMemory, Path, Text};
use pie_files::{Files, FilesError};
use pie_graph::{TaskNo, TaskRows};
use pie_named::Named;
use pie_old::{Loaded, Old, load};
use pie_store::{Cause, StoreImage};
use pie_value::Task;
use std::alloc::Global;

/// What a build of a project whose functions have these digests would do from what the build before left, where these paths may have changed: which old tasks it takes up
/// first, and which may follow, or that it starts afresh because there are too many. No function of the pipeline is run, and of the files named paths and the directories
/// above them alone are asked. Rule: docs/INSPECT.md, "What a build would run".
pub fn tell_why<F: Files>(
    alloc: Global,
    files: &mut F,
    left: Box<Left>,
    digests: &[(Text, [u8; 32])],
    changes: &[Path],
) -> Result<Why, FilesError>
    requires records { HasRecords left.value.image.rows }
    ensures same { F.holds files.new ≡ F.holds files.old }
{
    let Left { image, names } = Box::into_inner(left);
    let mut image = Box::new(alloc, image)?;
    let names = joined_names(alloc, changes, names.as_slice())?;
    put_digests(alloc, files, &mut image, digests)?;
    of_image(alloc, files, image, digests, names.as_slice())
}

// The same where the store says this, and these are the names in path order.
fn of_image<F: Files>(
    alloc: Global,
    files: &mut F,
    image: Box<StoreImage>,
    digests: &[(Text, [u8; 32])],
    names: &[Path],
) -> Result<Why, FilesError>
    requires records { HasRecords image.value.rows }
    ensures same { F.holds files.new ≡ F.holds files.old }
{
    let StoreImage { funcs, rows, .. } = Box::into_inner(image);
    match load(alloc, rows)? {
        Loaded::Many(task) => Ok(Why::Afresh(Cause::UnionMany(MAX_TASKS, 0, task))),
        Loaded::Whole(old) => {
            let old = Box::new(alloc, old)?;
            let functions = Functions::of(
                alloc,
                old.tables.names.as_slice(),
                funcs.as_slice(),
                digests,
            )?;
            of_old(alloc, files, &old, &functions, names)
        }
    }
}

// The same of these old tasks.
fn of_old<F: Files>(
    alloc: Global,
    files: &mut F,
    old: &Old,
    functions: &Functions,
    names: &[Path],
) -> Result<Why, FilesError>
    ensures same { F.holds files.new ≡ F.holds files.old }
{
    let mut named = named_of(alloc, names)?;
    let count = old.rows.count();
    let same = functions.same.as_slice();
    let due = due_flags(alloc, files, &mut named, &old.tables.records, same, count)?;
    let may = followers(alloc, &old.rows, due.as_slice())?;
    let told = Told {
        old,
        functions,
        names,
        due: due.as_slice(),
        may: may.as_slice(),
    };
    let whys = all_of(alloc, files, &mut named, &told)?;
    Ok(Why::From(whys))
}

// What is told of: the old tasks, which are due and which may follow.
struct Told<'a> {
    old: &'a Old,
    functions: &'a Functions,
    names: &'a [Path],
    due: &'a [bool],
    may: &'a [bool],
}

impl<'a> Drop for Told<'a> {
    fn drop(self) {
        let Told {
            old: _,
            functions: _,
            names: _,
            due: _,
            may: _,
        } = self;
    }
}

fn all_of<F: Files>(
    alloc: Global,
    files: &mut F,
    named: &mut Named,
    told: &Told<'_>,
) -> Result<Box<Whys>, FilesError>
    ensures same { F.holds files.new ≡ F.holds files.old }
{
    let mut whys = Box::new(
        alloc,
        Whys {
            due: Vec::new(alloc),
            may: Vec::new(alloc),
            kept: 0,
        },
    )?;
    let mut no: u32 = 0;
    for task in told.old.tables.names.as_slice() {
        put_task(alloc, files, named, told, TaskNo(no), task, &mut whys)?;
        no = no.saturating_add(1);
    }
    Ok(whys)
}

// Tells one task.
fn put_task<F: Files>(
    alloc: Global,
    files: &mut F,
    named: &mut Named,
    told: &Told<'_>,
    no: TaskNo,
    task: &Task,
    whys: &mut Whys,
) -> Result<(), FilesError>
    ensures same { F.holds files.new ≡ F.holds files.old }
{
    if flag_of(told.due, no) {
        let reasons = reasons_of(alloc, files, named, told, no)?;
        put_due(task, reasons, &mut whys.due)?;
        return Ok(());
    }
    if flag_of(told.may, no) {
        whys.may.push(task.copy()?)?;
        return Ok(());
    }
    whys.kept = whys.kept.saturating_add(1);
    Ok(())
}

fn put_due(task: &Task, reasons: Vec<Reason>, due: &mut Vec<Due>) -> Result<(), OutOfMemory> {
    let task = task.copy()?;
    due.push(Due { task, reasons })?;
    Ok(())
}

// Why a task is due.
fn reasons_of<F: Files>(
    alloc: Global,
    files: &mut F,
    named: &mut Named,
    told: &Told<'_>,
    no: TaskNo,
) -> Result<Vec<Reason>, FilesError>
    ensures same { F.holds files.new ≡ F.holds files.old }
{
    let mut reasons = begun(alloc, told.functions, no)?;
    if let Some(rec) = told.old.tables.records.get(no) {
        put_observed(files, named, told.names, rec.deps.as_slice(), &mut reasons)?;
        put_written(files, named, rec.writes.as_slice(), &mut reasons)?;
    }
    Ok(reasons)
}

// The first reason of a task, if its function isn't as it was.
fn begun(alloc: Global, functions: &Functions, no: TaskNo) -> Result<Vec<Reason>, OutOfMemory> {
    let mut reasons = Vec::new(alloc);
    if let Some(now) = functions.change(no) {
        reasons.push(Reason::Function(now))?;
    }
    Ok(reasons)
}
