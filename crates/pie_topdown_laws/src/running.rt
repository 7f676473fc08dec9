//! Tasks that run, by their codes, machines and notes.
ghost use Rattle.pie_topdown_laws.specs.Running.{TasksBeginAbove, TasksPauseAbove, PresencesAreTold, ReadingsAreTold, DigestsAreTold, ListingsAreTold};
ghost use Rattle.pie_topdown_laws.specs.Running.{WritesAreTold, RequirersWait, BigRequiresFail, CallersRunOn, FailuresAreTheRoots, FailuresEnterNothing};

/// A task begins to run, and what its machine gives is what it does in the model.
pub fn tasks_run()
    ensures begin { TasksBeginAbove }
    ensures pause { TasksPauseAbove }
{}

/// What a running task is told leads on as in the model.
pub fn running_tasks_are_told()
    ensures presence { PresencesAreTold }
    ensures reading { ReadingsAreTold }
    ensures digest { DigestsAreTold }
    ensures listing { ListingsAreTold }
    ensures write { WritesAreTold }
{}

/// A requirer waits, fails where what it requires is past the limits, and runs on with the output.
pub fn requirers_run_on()
    ensures waits { RequirersWait }
    ensures big { BigRequiresFail }
    ensures answered { CallersRunOn }
{}

/// A failure is the root's, which then enters no task that wasn't entered.
pub fn failures_are_the_roots()
    ensures root { FailuresAreTheRoots }
    ensures entered { FailuresEnterNothing }
{}
