//! Checking a project.
ghost use Rattle.std.specs.Prelude.{◌≡◌, Ok, IfSome, IsErrOf};
ghost use Rattle.pie_files.specs.Reading.{LeavesAsBefore};
ghost use Rattle.pie_project.specs.Fronts.{CheckSays, counts_of};
ghost use Rattle.pie_project.specs.Looking.{Looks, prefix_calls};
ghost use Rattle.pie_project.specs.inner.Only.{IsOnly};
ghost use Rattle.pie_project.specs.inner.Projects.{front_of};
ghost use Rattle.pie_project.specs.Refusals.{Only, Says};

use crate::{BuildError, Project, read_project};
use pie_files::Files;
use std::alloc::Global;

/// How many functions and how many roots the project of a directory has. It changes no file.
/// Rule: docs/BUILDING.md, "The project".
pub fn check_project<F: Files>(alloc: Global, files: &mut F) -> Result<(u32, u32), BuildError>
    ensures found { IfSome (F.holds files.old) (λ d. Says (λ p. p) (CheckSays d) result) }
    ensures only { IfSome (F.holds files.old) (λ d. Only (λ p. p) (CheckSays d) result) }
    ensures looks { Looks F.holds F.asked F.faults prefix_calls files.old files.new result }
    ensures crash { LeavesAsBefore F.holds F.moment F.left_since F.images files.old files.new }
{
    counts_in(alloc, files)
}

// The counts of the project of a directory.
fn counts_in<F: Files>(alloc: Global, files: &mut F) -> Result<(u32, u32), BuildError>
    ensures found { IfSome (F.holds files.old) (λ d. Says (λ p. p) (IsOnly (CheckSays d)) result) }
    ensures looks { Looks F.holds F.asked F.faults prefix_calls files.old files.new result }
    ensures crash { LeavesAsBefore F.holds F.moment F.left_since F.images files.old files.new }
{
    match read_project(alloc, files) {
        Ok(project) => counts(project),
        Err(error) => Err(error),
    }
}

// The counts of a project; out of memory where one has more than 32 bits.
fn counts(project: Project) -> Result<(u32, u32), BuildError>
    ensures found { Says (λ p. p) (λ r. r ≡ counts_of (Ok (front_of project))) result }
    ensures no_fault { IsErrOf result BuildError.Files → ⊥ }
{
    let functions = u32::try_from(project.typed.pipeline().functions.len());
    let roots = u32::try_from(project.roots.len());
    match (functions, roots) {
        (Ok(functions), Ok(roots)) => Ok((functions, roots)),
        _ => Err(BuildError::OutOfMemory),
    }
}
