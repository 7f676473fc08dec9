//! The steps under a root: each keeps it under way.
ghost use Rattle.pie_step_laws.specs.StepLaws.{RootsBegin, AbsentLooksGoOn, PresentLooksGoOn, ListingsGoOn, WritesGoOn, RequiresAreAnswered, RequiresDescend};
ghost use Rattle.pie_step_laws.specs.StepLaws.{SameTablesGoOn};

/// A root that was not entered yet begins.
pub fn roots_begin()
    ensures { RootsBegin }
{}

/// Looks, listings and writes let the running task go on.
pub fn steps_go_on()
    ensures sees_nothing { AbsentLooksGoOn }
    ensures sees_contents { PresentLooksGoOn }
    ensures lists { ListingsGoOn }
    ensures writes { WritesGoOn }
{}

/// A require of a recorded task is answered, and one of a new task lets that task run.
pub fn requires_go_on()
    ensures answered { RequiresAreAnswered }
    ensures descends { RequiresDescend }
{}

/// Any table with the same records serves.
pub fn same_tables_go_on()
    ensures { SameTablesGoOn }
{}
