//! Tasks that begin.
ghost use Rattle.pie_task_laws.specs.Beginning.{BasesMayBegin, RequirersWait, NewTasksMayBegin, TakenTasksRun, LostTasksEnd};

/// Old live tasks, present roots and new tasks that are required may begin, the last above their requirers, which wait; a task that may begin
/// and is taken runs, or fails where it has no function. Rule: docs/MODEL.md.
pub fn tasks_begin()
    ensures bases { BasesMayBegin }
    ensures waits { RequirersWait }
    ensures new { NewTasksMayBegin }
    ensures runs { TakenTasksRun }
    ensures lost { LostTasksEnd }
{}
