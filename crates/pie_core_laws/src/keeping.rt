//! Tasks that are kept, and settled tasks.
ghost use Rattle.pie_core_laws.specs.Keeping.{KeptTasksStayExact, SettledTasksAreKnown};

/// A task that was taken and whose record stands may be settled: an exact build stays exact, and what the task wrote is there. Rule: docs/MODEL.md.
pub fn kept_tasks_stay_exact()
    ensures { KeptTasksStayExact }
{}

/// In an exact build a settled task, and each that it reaches, has the record of its evaluation.
pub fn settled_tasks_are_known()
    ensures { SettledTasksAreKnown }
{}
