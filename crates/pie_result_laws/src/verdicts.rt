//! The verdict.
ghost use Rattle.pie_result_laws.specs.Verdicts.{FailedRootsDecide, LastChecksDecide, ResultsHaveTheVerdict};

/// What an exact build makes of its tables once its roots are settled has the verdict of the model: the first root that failed decides, and else the
/// last checks of the tasks that the roots reach. Rule: docs/MODEL.md.
pub fn results_have_the_verdict()
    ensures failed { FailedRootsDecide }
    ensures checked { LastChecksDecide }
    ensures verdict { ResultsHaveTheVerdict }
{}
