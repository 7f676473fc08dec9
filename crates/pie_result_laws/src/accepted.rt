//! What an accepted build leaves.
ghost use Rattle.pie_result_laws.specs.Accepted.{SettledRootsHaveEnded, AcceptedResultsAreClean, AcceptedFilesAreProvided};

/// What an accepted build by what changed leaves has the records of a clean build, in the order of the store, and the outputs of its roots: what settled
/// roots reach has ended as `pie_results` wants it, so its records can be stored. Its files have what a clean build provides, and what isn't among them
/// was written by tasks that didn't run. Rule: docs/MODEL.md.
pub fn accepted_results_are_clean()
    ensures ended { SettledRootsHaveEnded }
    ensures accepted { AcceptedResultsAreClean }
    ensures files { AcceptedFilesAreProvided }
{}
