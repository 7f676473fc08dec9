//! What is made of them.
ghost use Rattle.pie_topdown_result_laws.specs.Results.{RefusedBuildsAreClean, SettledTablesHaveEnded, SettledTablesMakeClean};

/// What is made of such tables has the verdict of a clean build, and where that accepts, its records and outputs; its files with those that are there
/// already are what that provides. A refused build needs the verdict alone. Rule: docs/MODEL.md.
pub fn results_are_clean()
    ensures ended { SettledTablesHaveEnded }
    ensures makes { SettledTablesMakeClean }
    ensures refused { RefusedBuildsAreClean }
{}
