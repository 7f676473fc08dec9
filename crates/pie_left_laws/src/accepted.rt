//! What an exact build makes at its end.
ghost use Rattle.pie_left_laws.specs.Accepted.{CleanResultsAreAccepted, IdleWritesAreKept};

/// Where what an exact build makes has the records and the files of a clean build, but for files of tasks that didn't run, each file that a clean build
/// provides is among its files or there already. Rule: docs/MODEL.md.
pub fn clean_results_are_accepted()
    ensures accepted { CleanResultsAreAccepted }
    ensures kept { IdleWritesAreKept }
{}
