//! How tasks and roots end, and what decides.
ghost use Rattle.pie_topdown_laws.specs.Ends.{RunningTasksEnd, WaitingTasksStay, RunningTasksBeginAgain, FailuresSink, RequiredFailuresSink, NewTasksFail};
ghost use Rattle.pie_topdown_laws.specs.Ends.{CyclesSink, FailedRootsEnter, CycledRootsEnter, LostRootsEnter, FailedRootsDecide, CycledRootsDecide};
ghost use Rattle.pie_topdown_laws.specs.Ends.{TooManyTasksDecide, RecordedRootsAreDone, RootsStand, MoreRootsStand};

/// A running task ends with a value; those that wait go on as before.
pub fn running_tasks_end()
    ensures ends { RunningTasksEnd }
    ensures waiting { WaitingTasksStay }
    ensures again { RunningTasksBeginAgain }
{}

/// A root ends as a task above it that ends with no value.
pub fn outcomes_sink()
    ensures failures { FailuresSink }
    ensures required { RequiredFailuresSink }
    ensures new { NewTasksFail }
    ensures cycles { CyclesSink }
{}

/// Such a root enters no task but those that were entered, and one that it requires in vain.
pub fn failed_roots_enter()
    ensures failed { FailedRootsEnter }
    ensures cycled { CycledRootsEnter }
    ensures lost { LostRootsEnter }
{}

/// The verdict is that of the first root that ends with no value, or too many tasks.
pub fn roots_decide()
    ensures failed { FailedRootsDecide }
    ensures cycled { CycledRootsDecide }
    ensures too_many { TooManyTasksDecide }
{}

/// Where all roots are done, the records of what they enter are those of a clean build.
pub fn recorded_roots_are_done()
    ensures { RecordedRootsAreDone }
{}

/// What stands in the evaluation of a root, as it does itself, does so with further roots too.
pub fn roots_stand()
    ensures itself { RootsStand }
    ensures more { MoreRootsStand }
{}
