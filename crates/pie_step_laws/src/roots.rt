//! From root to root, and the result of a build.
ghost use Rattle.pie_step_laws.specs.RootLaws.{BuildsBegin, KnownRootsPass, EndedRootsPass, DoneRootsStopNowhere, AllRootsDone, FirstRootFails};
ghost use Rattle.pie_step_laws.specs.RootLaws.{FirstRootEndsInCycle, TooManyTasks, FirstTasksEntered, RecordsAreLive, RecordsInOrder, RootsAreEntered};
ghost use Rattle.pie_step_laws.specs.RootLaws.{RootsHaveValues, FewTasksAreTheFirst, SameTablesRest};

/// A build begins, and passes each root that was entered before or ends with a value.
pub fn roots_pass()
    ensures begins { BuildsBegin }
    ensures known { KnownRootsPass }
    ensures ended { EndedRootsPass }
{}

/// Once all roots are done the last checks decide.
pub fn all_roots_are_done()
    ensures nowhere { DoneRootsStopNowhere }
    ensures verdict { AllRootsDone }
{}

/// The first root that fails, or ends in a cycle, decides.
pub fn first_root_decides()
    ensures failed { FirstRootFails }
    ensures in_cycle { FirstRootEndsInCycle }
{}

/// One task more than may be decides.
pub fn too_many_tasks()
    ensures verdict { TooManyTasks }
    ensures first { FirstTasksEntered }
    ensures few { FewTasksAreTheFirst }
{}

/// The records are those of the live evaluations.
pub fn records_are_live()
    ensures each { RecordsAreLive }
    ensures in_order { RecordsInOrder }
{}

/// The roots that are done have records with their values.
pub fn roots_have_values()
    ensures entered { RootsAreEntered }
    ensures values { RootsHaveValues }
{}

/// Any table with the same records serves.
pub fn same_tables_rest()
    ensures { SameTablesRest }
{}
