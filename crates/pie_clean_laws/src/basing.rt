//! The directory between two builds.
ghost use Rattle.pie_clean_laws.specs.Basing.{AfreshBuildsAreBases, CleanBuildsAreBases, EditsGoOn, RefusedBuildsKeepBases};

/// An accepted build is one that the next can be based on; a refused one that keeps its names leaves the base as it was; and after an edit that a list
/// tells, a directory goes on from its base. Rule: docs/BUILDING.md, "A build by what changed".
pub fn builds_are_bases()
    ensures edits { EditsGoOn }
    ensures clean { CleanBuildsAreBases }
    ensures afresh { AfreshBuildsAreBases }
    ensures refused { RefusedBuildsKeepBases }
{}
