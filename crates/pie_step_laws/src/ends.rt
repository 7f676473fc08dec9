//! How tasks and roots end.
ghost use Rattle.pie_step_laws.specs.EndLaws.{TasksEnd, FramesWait, RootsRest, RootsEnd, EndedTasksWrote, RootsFail, RootsRunOut, RootsClash, RootsListTooMuch};
ghost use Rattle.pie_step_laws.specs.EndLaws.{RootsEndInCycle, RoundsAreRead, RootsEnterTooMany, NewRootsAreEntered, KnownRootsAreDone, KnownRootsEnterNothing};

/// A task that ends with a value leaves the record of its evaluation, and the one that waits for it goes on.
pub fn tasks_end()
    ensures answered { TasksEnd }
    ensures waits { FramesWait }
    ensures wrote { EndedTasksWrote }
{}

/// The last task of a root ends it.
pub fn roots_end()
    ensures rests { RootsRest }
    ensures ended { RootsEnd }
{}

/// A task that fails ends the root.
pub fn roots_fail()
    ensures failed { RootsFail }
    ensures ran_out { RootsRunOut }
    ensures clashing { RootsClash }
    ensures too_big { RootsListTooMuch }
{}

/// A require of a task of the stack ends the root in a cycle.
pub fn roots_end_in_cycle()
    ensures ended { RootsEndInCycle }
    ensures read { RoundsAreRead }
{}

/// One task more than may be is entered by the root.
pub fn roots_enter_too_many()
    ensures required { RootsEnterTooMany }
    ensures itself { NewRootsAreEntered }
{}

/// A root that was entered before has ended with a value, and enters nothing new.
pub fn roots_are_known()
    ensures done { KnownRootsAreDone }
    ensures nothing { KnownRootsEnterNothing }
{}
