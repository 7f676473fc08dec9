//! What a finish leaves untouched.
ghost use Rattle.pie_settle_laws.specs.Sweeps.{SweptRecordsAreUntouched, NewTasksAreUnreached};

/// A finish leaves untouched what is settled, and what agrees where a sweep up from the finished task has told it apart. Rule: docs/MODEL.md.
pub fn finishes_leave_untouched()
    ensures swept { SweptRecordsAreUntouched }
    ensures unreached { NewTasksAreUnreached }
{}
