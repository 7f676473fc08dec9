//! The entered tasks by their numbers, with their records and rows.
ghost use Rattle.pie_topdown_laws.specs.Ledgers.{RightLedgersAreExact, LedgersBegin, LedgersGrow, NewTasksKeepRecords, LedgersGain};

/// A right ledger is an exact build, so what holds of those holds of it.
pub fn right_ledgers_are_exact()
    ensures { RightLedgersAreExact }
{}

/// Ledgers begin right, and stay so where tasks are entered and end.
pub fn ledgers_change()
    ensures begin { LedgersBegin }
    ensures grow { LedgersGrow }
    ensures kept { NewTasksKeepRecords }
    ensures gain { LedgersGain }
{}
