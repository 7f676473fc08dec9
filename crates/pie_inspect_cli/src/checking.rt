//! The first refusal of a project.
ghost use Rattle.std.specs.Prelude.{◌≡◌, ◌≤◌, true, List, ℕ, Some, length, string_bytes, IfSome, IfOk};
ghost use Rattle.std.specs.Str.{IsUtf8};
ghost use Rattle.pie_base.specs.Path.{is_path};
ghost use Rattle.pie_files.specs.Reading.{ReadsOnly};
ghost use Rattle.pie_project.specs.Fronts.{most};
ghost use Rattle.pie_project.specs.Looking.{file_bytes};
ghost use Rattle.pie_project.specs.Refusals.{OfPipeline, OfRoots, plain};
ghost use Rattle.pie_explain.specs.Places.{BeginsWith, pipeline_place};
ghost use Rattle.pie_inspect_cli.specs.Checked as spec;
ghost use Rattle.pie_inspect_cli.specs.inner.Told.{Says, TellsFirst};

use pie_base::{MAX_PIPELINE_BYTES, OutOfMemory, Path, Status};
use pie_explain::{explain_pipeline, explain_roots};
use pie_files::{Files, FilesError, Within};
use pie_project::{BuildError, PipelineFault, RootsReason, check_project};
use std::alloc::Global;

/// What is told, and the status to end with.
#[derive(Drop)]
pub(crate) struct Told {
    pub(crate) text: String,
    pub(crate) status: Status,
}

/// How many functions and roots the project of a directory has, or its first refusal: the place by line and column, what was expected and found, and a hint.
#[tactic(auto, using(pie_files::proofs::Reading::reads, crate::proofs::FirstRefusal::counts_first, crate::proofs::FirstRefusal::refusal_first))]
pub(crate) fn checked<F: Files>(alloc: Global, files: &mut F) -> Result<Told, FilesError>
    ensures told { IfSome (F.holds files.old) (λ d. IfOk result (TellsFirst d)) }
    ensures same { F.holds files.new ≡ F.holds files.old }
{
    match check_project(alloc, files) {
        Ok((functions, roots)) => Ok(counts(alloc, functions, roots)?),
        Err(BuildError::Pipeline(fault)) => bad_pipeline(alloc, files, fault),
        Err(BuildError::Roots(reason)) => bad_roots(alloc, files, reason),
        Err(BuildError::Files) => Err(FilesError::Failed),
        Err(BuildError::OutOfMemory) => Err(FilesError::OutOfMemory),
    }
}

// How many functions and roots a project has.
fn counts(alloc: Global, functions: u32, roots: u32) -> Result<Told, OutOfMemory>
    ensures text { IfOk result (λ told. string_bytes told.text ≡ spec.counts_text functions roots) }
    ensures status { IfOk result (λ told. told.status ≡ Status.Ok) }
{
    let text = format!(in alloc; "ok: {functions} functions, {roots} roots\n")?;
    Ok(Told {
        text,
        status: Status::Ok,
    })
}

/// The refusal of a pipeline, for a person.
#[tactic(auto, using(crate::proofs::FirstRefusal::says_pipeline))]
pub(crate) fn bad_pipeline<F: Files>(
    alloc: Global,
    files: &mut F,
    fault: PipelineFault,
) -> Result<Told, FilesError>
    ensures told { IfSome (F.holds files.old) (λ d. IfOk result (Says d (OfPipeline (plain fault)))) }
    ensures same { F.holds files.new ≡ F.holds files.old }
{
    let bytes = bytes_of(alloc, files, "pie.pipeline")?;
    let told = pipeline_told(alloc, bytes.as_slice(), &fault)?;
    Ok(told)
}

// What is told of a pipeline with these bytes.
fn pipeline_told(alloc: Global, bytes: &[u8], fault: &PipelineFault) -> Result<Told, OutOfMemory>
    ensures text { IfOk result (λ told. IsUtf8 bytes.now → length bytes.now ≤ most → BeginsWith (pipeline_place bytes.now (plain fault.now)) (string_bytes told.text)) }
    ensures status { IfOk result (λ told. told.status ≡ Status.Refused) }
{
    let text = explain_pipeline(alloc, text_in(bytes), fault)?;
    Ok(Told {
        text,
        status: Status::Refused,
    })
}

/// The refusal of roots, for a person.
pub(crate) fn bad_roots<F: Files>(
    alloc: Global,
    files: &mut F,
    reason: RootsReason,
) -> Result<Told, FilesError>
    ensures told { IfSome (F.holds files.old) (λ d. IfOk result (Says d (OfRoots reason))) }
    ensures same { F.holds files.new ≡ F.holds files.old }
{
    let bytes = bytes_of(alloc, files, "pie.roots")?;
    let pipeline = bytes_of(alloc, files, "pie.pipeline")?;
    let text = explain_roots(
        alloc,
        text_in(bytes.as_slice()),
        text_in(pipeline.as_slice()),
        reason,
    )?;
    Ok(Told {
        text,
        status: Status::Refused,
    })
}

// The bytes of a file of the project, or none where it isn't there or is too long.
fn bytes_of<F: Files>(alloc: Global, files: &mut F, name: &str) -> Result<Vec<u8>, FilesError>
    requires { is_path name.now ≡ true }
    ensures read { IfSome (F.holds files.old) (λ d. IfOk result (λ bytes. (text : List ℕ) → file_bytes d name.now ≡ Some text → length text ≤ most → bytes.items ≡ text)) }
    ensures same { F.holds files.new ≡ F.holds files.old }
{
    let path = Path::known(alloc, name)?;
    match files.read_within(&path, MAX_PIPELINE_BYTES)? {
        Within::Whole(found) => Ok(found.bytes),
        Within::Absent | Within::Long => Ok(Vec::new(alloc)),
    }
}

// The text that some bytes are, or none where they aren't UTF-8.
fn text_in(bytes: &[u8]) -> &str
    ensures text { IsUtf8 bytes.now → result.now ≡ bytes.now }
    ensures short { length result.now ≤ length bytes.now }
{
    match str::from_utf8(bytes) {
        Ok(text) => text,
        Err(_) => "",
    }
}
