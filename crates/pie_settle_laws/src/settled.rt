//! What is settled stays settled.
ghost use Rattle.pie_settle_laws.specs.Settled.{FinishesSpareSettled, StartsSpareSettled, ClosedTasksAreSettled, SettledTasksAreKnown};

/// What is settled stays settled when a task finishes and when a new one starts. Rule: docs/MODEL.md.
pub fn settled_tasks_stay()
    ensures finish { FinishesSpareSettled }
    ensures start { StartsSpareSettled }
{}

/// Recorded tasks that are not busy, with whatever they require among them, are settled.
pub fn closed_tasks_are_settled()
    ensures { ClosedTasksAreSettled }
{}

/// Under consistent records a settled task, and each that it reaches, has the record of its evaluation.
pub fn settled_tasks_are_known()
    ensures { SettledTasksAreKnown }
{}
