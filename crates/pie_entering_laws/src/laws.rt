//! Entered and required tasks have functions.
ghost use Rattle.pie_entering_laws.specs.inner.Laws.{EnteredTasksAreKnown, RequiredTasksHaveFunctions, RootsHaveFunctions};

/// Each task that a clean build of a typed pipeline enters is of one of its functions, with arguments that this takes. Rule: docs/MODEL.md.
pub fn entered_tasks_are_known()
    ensures { EnteredTasksAreKnown }
{}

/// So is each task that is required by one of a function, where what this required before is known; and a root is. Rule: docs/MODEL.md.
pub fn required_tasks_have_functions()
    ensures required { RequiredTasksHaveFunctions }
    ensures roots { RootsHaveFunctions }
{}
