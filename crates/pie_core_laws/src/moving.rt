//! Steps that change no record.
ghost use Rattle.pie_core_laws.specs.Moving.{MovesStayExact, WalksMove, BeginsMove, TakesMove, RequiresMove, TakenTasksRest, NewTasksStayExact};

/// A step by which the same tasks are busy and no busy task is settled leaves an exact build exact, and so does a new task. Rule: docs/MODEL.md.
pub fn moves_stay_exact()
    ensures moves { MovesStayExact }
    ensures grows { NewTasksStayExact }
{}

/// The calls of a walk are such steps; a task that is taken rests on settled tasks, with the row of its record.
pub fn walks_move()
    ensures walks { WalksMove }
    ensures begins { BeginsMove }
    ensures takes { TakesMove }
    ensures called { RequiresMove }
    ensures rests { TakenTasksRest }
{}
