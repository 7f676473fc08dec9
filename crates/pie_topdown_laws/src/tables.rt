//! The tasks that were entered, and the records of those that are done.
ghost use Rattle.pie_topdown_laws.specs.Tables.{TablesBegin, TablesGrow, TablesGain, RecordedTasksAreSettled, RecordedTasksAreCounted, SettledTasksStay};

/// Tables begin empty; tasks are entered, and end with values.
pub fn tables_change()
    ensures begin { TablesBegin }
    ensures grow { TablesGrow }
    ensures gain { TablesGain }
{}

/// Recorded tasks are settled and counted, and stay so.
pub fn recorded_tasks_are_settled()
    ensures settled { RecordedTasksAreSettled }
    ensures counted { RecordedTasksAreCounted }
    ensures stay { SettledTasksStay }
{}
