//! Tasks that run.
ghost use Rattle.pie_core_laws.specs.Running.{RunningTasksAreBusy, RecordedTasksAreCounted, RequiredTasksBegin, SettledTasksAnswer, SettledTasksStop};
ghost use Rattle.pie_core_laws.specs.Running.{EndedTasksAreRight, LostTasksAreRight, OldTasksAreBases};

/// The tasks that run in an exact build are busy and counted, as the laws on running tasks ask.
pub fn running_tasks_are_busy()
    ensures busy { RunningTasksAreBusy }
    ensures counted { RecordedTasksAreCounted }
{}

/// A new task that is required begins above its requirer, and a settled one answers it or ends it. Rule: docs/MODEL.md.
pub fn requires_go_on()
    ensures begins { RequiredTasksBegin }
    ensures answers { SettledTasksAnswer }
    ensures stops { SettledTasksStop }
{}

/// A task that ends above an old live task or a present root has a right record, and so has one whose function is no more.
/// Rule: docs/MODEL.md.
pub fn ended_tasks_are_right()
    ensures ended { EndedTasksAreRight }
    ensures lost { LostTasksAreRight }
    ensures old { OldTasksAreBases }
{}
