//! The directory that an accepted build leaves.
ghost use Rattle.pie_left_laws.specs.Placed.{PlacedBuildsAreBuilt};

/// Where the files of an accepted build by what changed are put into place, and what its records don't write is removed, the directory is that of the
/// clean build: a file that wasn't written again because its hash was there has the content, as hashes separate what builds meet.
/// Rule: docs/MODEL.md.
pub fn placed_builds_are_built()
    ensures { PlacedBuildsAreBuilt }
{}
