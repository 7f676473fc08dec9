//! The roots of a project, from their bytes.
ghost use Rattle.std.specs.Prelude.{◌≡◌, IfOk, IsErrOf};
ghost use Rattle.pie_project.specs.inner.Errors.{reader_error};
ghost use Rattle.pie_project.specs.Fronts.{RootsSay};
ghost use Rattle.pie_project.specs.inner.Projects.{front_of};
ghost use Rattle.pie_project.specs.Refusals.{Says};

use crate::pipeline::Digested;
use crate::{BuildError, Project, RootsReason};
use pie_roots::{RootsFault, read_roots};
use std::alloc::Global;

/// The project with this pipeline, and the roots that the lines are.
pub(crate) fn with_roots(
    alloc: Global,
    pipeline: Digested,
    lines: &[u8],
) -> Result<Project, BuildError>
    ensures found { Says front_of (RootsSay pipeline.typed lines.now) result }
    ensures typed { IfOk result (λ p. p.typed ≡ pipeline.typed) }
    ensures digests { IfOk result (λ p. p.digests ≡ pipeline.digests) }
    ensures no_fault { IsErrOf result BuildError.Files → ⊥ }
{
    let Digested { typed, digests } = pipeline;
    match read_roots(alloc, &typed, lines) {
        Ok(roots) => Ok(Project {
            typed,
            digests,
            roots,
        }),
        Err(fault) => Err(roots_error(fault)),
    }
}

// A refusal of the roots, or out of memory.
fn roots_error(fault: RootsFault) -> BuildError
    ensures { result ≡ reader_error fault }
{
    match fault {
        RootsFault::TooLong => BuildError::Roots(RootsReason::TooLong),
        RootsFault::NotText => BuildError::Roots(RootsReason::NotText),
        RootsFault::BadRoot(line) => BuildError::Roots(RootsReason::Line(line)),
        RootsFault::OutOfMemory => BuildError::OutOfMemory,
    }
}
