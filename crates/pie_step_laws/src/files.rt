//! The files of an accepted build.
ghost use Rattle.pie_step_laws.specs.Files.{AcceptedPathsHaveOneWriter, ProvidedFilesAreWritten, WrittenFilesAreProvided};

/// The files that an accepted build provides are what the entered tasks wrote, each by one of them.
pub fn files_are_provided()
    ensures one { AcceptedPathsHaveOneWriter }
    ensures written { WrittenFilesAreProvided }
    ensures provided { ProvidedFilesAreWritten }
{}
