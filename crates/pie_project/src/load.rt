//! Reading a file of a project.
ghost use Rattle.std.specs.Prelude.{◌≡◌, true, IfSome, IfOk};
ghost use Rattle.pie_base.specs.Path.{is_path};
ghost use Rattle.pie_files.specs.Reading.{LeavesAsBefore};
ghost use Rattle.pie_files.specs.declared.files.Call.TheVariants as calls;
ghost use Rattle.pie_files.specs.Calls.{Called};
ghost use Rattle.pie_files.specs.Directory.{file_at};
ghost use Rattle.pie_files.specs.inner.Within.{IsWithin};
ghost use Rattle.pie_project.specs.inner.Errors.{files_error as spec_files_error};
ghost use Rattle.pie_project.specs.Fronts.{most};

use crate::BuildError;
use pie_base::{MAX_PIPELINE_BYTES, Path};
use pie_files::{Files, FilesError, Within};
use std::alloc::Global;

/// A file, if it is there and no longer than a pipeline or roots may be.
#[tactic(auto, using(pie_files::proofs::Reading::reads))]
pub(crate) fn load<F: Files>(alloc: Global, files: &mut F, name: &str) -> Result<Within, FilesError>
    requires { is_path name.now ≡ true }
    ensures found { IfSome (F.holds files.old) (λ d. IfOk result (λ found. IsWithin most found (file_at d name.now))) }
    ensures same { F.holds files.new ≡ F.holds files.old }
    ensures crash { LeavesAsBefore F.holds F.moment F.left_since F.images files.old files.new }
    ensures called { Called F.asked F.faults (λ c. c ≡ calls.Read name.now) files.old files.new result }
{
    let path = Path::known(alloc, name)?;
    files.read_within(&path, MAX_PIPELINE_BYTES)
}

/// A fault of the files, or out of memory.
pub(crate) fn files_error(error: FilesError) -> BuildError
    ensures { result ≡ spec_files_error error }
{
    match error {
        FilesError::Failed => BuildError::Files,
        FilesError::OutOfMemory => BuildError::OutOfMemory,
    }
}
