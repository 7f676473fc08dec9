//! A core that takes, starts and finishes tasks: its records stay consistent, and settled tasks are right.

ghost use Rattle.pie_model.specs.inner.CoreLaws.{SettledTasksAreRight, OldRecordsBegin, TakesKeepConsistent, StartsKeepConsistent, FinishesKeepConsistent};
ghost use Rattle.pie_model.specs.inner.CoreLaws.{FinishesKeepSettled, StampsByRecordsAreRight, TakesKeepSettled};
ghost use Rattle.pie_model.specs.inner.Ranks.{RecordsHaveRanks};

/// The settled law: a recorded task that reaches no busy task has the record of its evaluation.
pub fn settled_tasks_are_right()
    ensures { SettledTasksAreRight }
{}

/// Old records begin consistent, once the tasks whose function or source stamps differ are busy.
pub fn old_records_begin_consistent()
    ensures { OldRecordsBegin }
{}

/// A task that is taken because its record stands leaves the records consistent, and what is settled settled.
pub fn takes_keep_consistent()
    ensures consistent { TakesKeepConsistent }
    ensures settled { TakesKeepSettled }
{}

/// A start leaves the records consistent.
pub fn starts_keep_consistent()
    ensures { StartsKeepConsistent }
{}

/// A finish that makes busy all that it touches leaves the records consistent, and what is settled settled.
pub fn finishes_keep_consistent()
    ensures consistent { FinishesKeepConsistent }
    ensures settled { FinishesKeepSettled }
{}

/// Over right records a stamp by records is the stamp by evaluation.
pub fn stamps_by_records_are_right()
    ensures { StampsByRecordsAreRight }
{}

/// Records whose requires have no cycle have ranks, which the other laws ask for.
pub fn records_without_a_cycle_have_ranks()
    ensures { RecordsHaveRanks }
{}
