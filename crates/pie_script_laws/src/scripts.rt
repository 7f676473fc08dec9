//! Scripts of edits and builds.
ghost use Rattle.pie_script_laws.specs.Scripts.{ScriptsAreClean};

/// Each build of a script is as a clean build of the directory that it found, where the change lists miss nothing and what is met is separate.
/// Rule: docs/BUILDING.md, "A build by what changed".
pub fn scripts_are_clean()
    ensures { ScriptsAreClean }
{}
