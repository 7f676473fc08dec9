//! Builds that find their change lists by scanning.
ghost use Rattle.pie_script_laws.specs.Finding.{FoundBuildsAreBases, ListsGoOn};

/// A directory that holds the manifest of one which was based on an earlier build goes on from that build by the paths that scanning finds, where all that differs
/// lies at or below a top; and an accepted build by them is one that the next can be based on. Rule: docs/BUILDING.md, "Builds that find what changed".
pub fn found_builds_go_on()
    ensures lists { ListsGoOn }
    ensures bases { FoundBuildsAreBases }
{}
