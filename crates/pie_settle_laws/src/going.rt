//! A running task, from its begin to its end.
ghost use Rattle.pie_settle_laws.specs.GoingLaws.{BasesBegin, NewTasksBegin, AbsentLooksKeepGoing, PresentLooksKeepGoing, ListingsKeepGoing};
ghost use Rattle.pie_settle_laws.specs.GoingLaws.{WritesKeepGoing, AnswersKeepGoing, SettledKidsKeepGoing, GoingTasksStand, RequiredTasksStand};
ghost use Rattle.pie_settle_laws.specs.GoingLaws.{GoingTasksEnd, GoingTasksStop, WaitingTasksKeepGoing};

/// A scheduled task or a root begins alone, and a new one below the task that requires it. Rule: docs/MODEL.md.
pub fn tasks_begin()
    ensures alone { BasesBegin }
    ensures below { NewTasksBegin }
    ensures waiting { WaitingTasksKeepGoing }
{}

/// Looks, listings, writes and answers keep a running task at the front of its evaluation.
pub fn tasks_keep_going()
    ensures sees_nothing { AbsentLooksKeepGoing }
    ensures sees_contents { PresentLooksKeepGoing }
    ensures lists { ListingsKeepGoing }
    ensures writes { WritesKeepGoing }
    ensures answered { AnswersKeepGoing }
    ensures settled { SettledKidsKeepGoing }
{}

/// A running task, and each that it requires, stands in the evaluation of the scheduled task or root below it.
pub fn running_tasks_stand()
    ensures running { GoingTasksStand }
    ensures required { RequiredTasksStand }
{}

/// A task that ends leaves the record of its evaluation.
pub fn running_tasks_end()
    ensures ended { GoingTasksEnd }
    ensures stopped { GoingTasksStop }
{}
