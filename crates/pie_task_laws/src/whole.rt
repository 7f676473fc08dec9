//! All tasks that run, wait or are still to begin.
ghost use Rattle.pie_task_laws.specs.Whole.{MovesRest, RootsRest, RequirersRest, NewRequirersRest, TakenTasksWork, KeptTasksRest, LostTasksRest};
ghost use Rattle.pie_task_laws.specs.Whole.{EndedTasksRest, EndedCallersRest, AnsweredTasksWork};

/// As long as no task ends: from step to step of a build a task is in hand that runs above those that wait, or none is and each new task may begin.
/// Rule: docs/MODEL.md.
pub fn tasks_go_on()
    ensures moves { MovesRest }
    ensures roots { RootsRest }
    ensures waits { RequirersRest }
    ensures waits_for_new { NewRequirersRest }
    ensures taken { TakenTasksWork }
{}

/// As `tasks_go_on`, where a task ends or a record stands.
/// Rule: docs/MODEL.md.
pub fn tasks_end()
    ensures kept { KeptTasksRest }
    ensures lost { LostTasksRest }
    ensures ended { EndedTasksRest }
    ensures callers { EndedCallersRest }
    ensures answered { AnsweredTasksWork }
{}
