//! The base of the next build.
ghost use Rattle.pie_left_laws.specs.Bases.{AcceptedBuildsGoOn, RefusedBuildsGoOn, OwnFilesAreKept};

/// What an accepted build by what changed leaves is the earlier build of the next one; after a refused one the earlier build is the same, and its names
/// with those of what changed since name all changes. Rule: docs/MODEL.md.
pub fn builds_go_on()
    ensures accepted { AcceptedBuildsGoOn }
    ensures refused { RefusedBuildsGoOn }
    ensures own { OwnFilesAreKept }
{}
