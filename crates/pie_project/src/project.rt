//! A project of a directory.
ghost use Rattle.std.specs.Prelude.{◌≡◌, ◌∷◌, [], IfSome, IfOk};
ghost use Rattle.pie_digest.specs.Digests.{HasNames};
ghost use Rattle.pie_files.specs.Reading.{LeavesAsBefore};
ghost use Rattle.pie_files.specs.declared.files.Call.TheVariants as calls;
ghost use Rattle.pie_project.specs.Digested.{HasDigests, IsDigested};
ghost use Rattle.pie_project.specs.Fronts.{ProjectSays, TypedSays, PipelineSays};
ghost use Rattle.pie_project.specs.Looking.{Looks, prefix_calls, roots_path};
ghost use Rattle.pie_project.specs.inner.Only.{IsOnly};
ghost use Rattle.pie_project.specs.inner.Projects.{front_of};
ghost use Rattle.pie_project.specs.Refusals.{Only, Says};
ghost use Rattle.pie_store.specs.Canonical.{AreFuncs};

use crate::load::{files_error, load};
use crate::pipeline::{Digested, digested_of};
use crate::roots::with_roots;
use crate::{BuildError, PipelineFault, RootsReason};
use pie_base::Text;
use pie_files::{Files, Within};
use pie_types::Typed;
use pie_value::Task;
use std::alloc::Global;

/// What a build needs of a project: its pipeline with types and digests, and its roots, each a task of the pipeline.
#[derive(Drop)]
pub struct Project {
    pub typed: Typed,
    /// The name and the digest of each function, in the order of names.
    pub digests: Vec<(Text, [u8; 32])>,
    /// In the order of `pie.roots`, with repeats.
    pub roots: Vec<Task>,
}

/// The project of a directory. It reads `pie.pipeline`, and `pie.roots` where the pipeline is checked, and changes no file.
/// Rule: docs/BUILDING.md, "The project".
pub fn read_project<F: Files>(alloc: Global, files: &mut F) -> Result<Project, BuildError>
    ensures found { IfSome (F.holds files.old) (λ d. Says front_of (ProjectSays d) result) }
    ensures only { IfSome (F.holds files.old) (λ d. Only front_of (ProjectSays d) result) }
    ensures digests { IfSome (F.holds files.old) (λ d. IfOk result (λ p. HasDigests d p.digests.items)) }
    ensures names { IfOk result (λ p. HasNames p.typed p.digests.items) }
    ensures funcs { IfOk result (λ p. AreFuncs p.digests.items) }
    ensures looks { Looks F.holds F.asked F.faults prefix_calls files.old files.new result }
    ensures crash { LeavesAsBefore F.holds F.moment F.left_since F.images files.old files.new }
{
    project_in(alloc, files)
}

// The project of a directory.
#[tactic(auto, using(pie_files::proofs::Reading::reads))]
fn project_in<F: Files>(alloc: Global, files: &mut F) -> Result<Project, BuildError>
    ensures found { IfSome (F.holds files.old) (λ d. Says front_of (IsOnly (ProjectSays d)) result) }
    ensures digests { IfSome (F.holds files.old) (λ d. IfOk result (λ p. HasDigests d p.digests.items)) }
    ensures names { IfOk result (λ p. HasNames p.typed p.digests.items) }
    ensures funcs { IfOk result (λ p. AreFuncs p.digests.items) }
    ensures looks { Looks F.holds F.asked F.faults prefix_calls files.old files.new result }
    ensures crash { LeavesAsBefore F.holds F.moment F.left_since F.images files.old files.new }
{
    match load(alloc, files, "pie.pipeline") {
        Ok(Within::Whole(found)) => with_pipeline(alloc, files, found.bytes.as_slice()),
        Ok(Within::Long) => Err(BuildError::Pipeline(PipelineFault::TooLong)),
        Ok(Within::Absent) => Err(BuildError::Pipeline(PipelineFault::Absent)),
        Err(error) => Err(files_error(error)),
    }
}

// The project with the pipeline that these bytes are.
#[tactic(auto, using(pie_files::proofs::Reading::reads))]
fn with_pipeline<F: Files>(
    alloc: Global,
    files: &mut F,
    bytes: &[u8],
) -> Result<Project, BuildError>
    ensures found { IfSome (F.holds files.old) (λ d. Says front_of (IsOnly (PipelineSays d bytes.now)) result) }
    ensures digested { IfOk result (λ p. IsDigested bytes.now p.typed p.digests.items) }
    ensures looks { Looks F.holds F.asked F.faults (calls.Read roots_path ∷ []) files.old files.new result }
    ensures crash { LeavesAsBefore F.holds F.moment F.left_since F.images files.old files.new }
{
    match digested_of(alloc, bytes) {
        Ok(pipeline) => with_digested(alloc, files, pipeline),
        Err(error) => Err(error),
    }
}

// The project with this pipeline.
fn with_digested<F: Files>(
    alloc: Global,
    files: &mut F,
    pipeline: Digested,
) -> Result<Project, BuildError>
    ensures found { IfSome (F.holds files.old) (λ d. Says front_of (TypedSays d pipeline.typed) result) }
    ensures typed { IfOk result (λ p. p.typed ≡ pipeline.typed) }
    ensures digests { IfOk result (λ p. p.digests ≡ pipeline.digests) }
    ensures looks { Looks F.holds F.asked F.faults (calls.Read roots_path ∷ []) files.old files.new result }
    ensures crash { LeavesAsBefore F.holds F.moment F.left_since F.images files.old files.new }
{
    match load(alloc, files, "pie.roots") {
        Ok(Within::Whole(found)) => with_roots(alloc, pipeline, found.bytes.as_slice()),
        Ok(Within::Long) => Err(BuildError::Roots(RootsReason::TooLong)),
        Ok(Within::Absent) => Err(BuildError::Roots(RootsReason::Absent)),
        Err(error) => Err(files_error(error)),
    }
}
