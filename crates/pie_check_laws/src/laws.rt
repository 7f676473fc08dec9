//! The laws by which the last checks of a build give the verdict of the model.
ghost use Rattle.pie_check_laws.specs.Findings.{TheLeastIsFound, NothingIsFound, TheFirstRefusalIsTheVerdict};
ghost use Rattle.pie_check_laws.specs.Recorded.{PathsUnderOutAgree, PathsBelowAgree, ValuesMeetNoClash};
ghost use Rattle.pie_check_laws.specs.Verdicts.{RecordsTellWrites, RecordsTellMisses, LastChecksAreTheModels, LastChecksAreTheVerdict};

/// Among findings the model finds the one that comes before all others.
pub fn the_least_is_found()
    ensures least { TheLeastIsFound }
    ensures nothing { NothingIsFound }
{}

/// The verdict of the model is the first refusal that holds, at its least place.
pub fn the_first_refusal_is_the_verdict()
    ensures { TheFirstRefusalIsTheVerdict }
{}

/// The model and the language have the same paths under `out`, and the same paths below another.
pub fn paths_agree()
    ensures under_out { PathsUnderOutAgree }
    ensures below { PathsBelowAgree }
{}

/// A look that meets a clash ends its task with a fault.
pub fn values_meet_no_clash()
    ensures { ValuesMeetNoClash }
{}

/// The records of evaluations tell who wrote a path and who found one absent.
pub fn records_tell_what_is_checked()
    ensures writes { RecordsTellWrites }
    ensures misses { RecordsTellMisses }
{}

/// What the last checks answer over the records of evaluations is the verdict of the model on those, and where these are of all
/// that the roots enter, the verdict of the model on the project. Rule: docs/MODEL.md.
pub fn last_checks_are_the_models()
    ensures checks { LastChecksAreTheModels }
    ensures verdict { LastChecksAreTheVerdict }
{}
