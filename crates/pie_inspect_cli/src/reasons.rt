//! What a build would run, and why.
ghost use Rattle.std.specs.Prelude.{◌≡◌};
ghost use Rattle.pie_why.specs.Starts.{HasRecords, IsWhole};

use crate::checking::{Told, bad_pipeline, bad_roots};
use pie_base::{OutOfMemory, Path, Status};
use pie_files::{Files, FilesError};
use pie_project::{BuildError, Project, read_project};
use pie_why::{Left, OfTask, Start, Why, find_start, json, lines, of_task, tell_why};
use std::alloc::Global;

/// What is asked of the tasks of the last build.
#[derive(Clone, Copy)]
pub(crate) enum Asked<'a> {
    /// Which would run, where these paths may have changed; as JSON, or as lines.
    All(&'a [Path], bool),
    /// What the task that is printed so rests on.
    One(&'a str),
}

/// What a build would run, or what one task rests on. What a build begins from is found first, as a build does, and then the project is read: one that is
/// refused is told as `check` tells it.
#[tactic(auto, using(pie_files::proofs::Reading::reads))]
pub(crate) fn reasoned<F: Files>(
    alloc: Global,
    files: &mut F,
    asked: Asked<'_>,
) -> Result<Told, FilesError>
    ensures same { F.holds files.new ≡ F.holds files.old }
{
    let start = find_start(alloc, files)?;
    match read_project(alloc, files) {
        Ok(project) => {
            let project = Box::new(alloc, project)?;
            of_project(alloc, files, start, &project, asked)
        }
        Err(BuildError::Pipeline(fault)) => bad_pipeline(alloc, files, fault),
        Err(BuildError::Roots(reason)) => bad_roots(alloc, files, reason),
        Err(BuildError::Files) => Err(FilesError::Failed),
        Err(BuildError::OutOfMemory) => Err(FilesError::OutOfMemory),
    }
}

// The same of this project, which begins so.
#[tactic(auto, using(pie_files::proofs::Reading::reads))]
fn of_project<F: Files>(
    alloc: Global,
    files: &mut F,
    start: Start,
    project: &Project,
    asked: Asked<'_>,
) -> Result<Told, FilesError>
    requires { IsWhole start }
    ensures same { F.holds files.new ≡ F.holds files.old }
{
    match start {
        Start::Afresh(cause) => Ok(shown(alloc, &Why::Afresh(cause), is_json(asked))?),
        Start::From(left) => from(alloc, files, left, project, asked),
    }
}

fn is_json(asked: Asked<'_>) -> bool {
    match asked {
        Asked::All(_, is_json) => is_json,
        Asked::One(_) => false,
    }
}

// The same where the build before left this.
#[tactic(auto, using(pie_files::proofs::Reading::reads))]
fn from<F: Files>(
    alloc: Global,
    files: &mut F,
    left: Box<Left>,
    project: &Project,
    asked: Asked<'_>,
) -> Result<Told, FilesError>
    requires { HasRecords left.value.image.rows }
    ensures same { F.holds files.new ≡ F.holds files.old }
{
    let digests = project.digests.as_slice();
    match asked {
        Asked::All(names, is_json) => {
            let why = tell_why(alloc, files, left, digests, names)?;
            Ok(shown(alloc, &why, is_json)?)
        }
        Asked::One(name) => {
            let told = of_task(alloc, files, left, digests, name)?;
            Ok(task_shown(alloc, told)?)
        }
    }
}

fn shown(alloc: Global, why: &Why, is_json: bool) -> Result<Told, OutOfMemory> {
    let text = if is_json {
        json(alloc, why)?
    } else {
        lines(alloc, why)?
    };
    Ok(Told {
        text,
        status: Status::Ok,
    })
}

fn task_shown(alloc: Global, told: OfTask) -> Result<Told, OutOfMemory> {
    match told {
        OfTask::Kept(text) => Ok(Told {
            text,
            status: Status::Ok,
        }),
        OfTask::Unknown(text) => Ok(Told {
            text,
            status: Status::Refused,
        }),
        OfTask::Afresh(cause) => shown(alloc, &Why::Afresh(cause), false),
    }
}
