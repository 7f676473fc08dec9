//! What clean builds tell.
ghost use Rattle.pie_clean_laws.specs.inner.Told.{CleanReportsAreOne, CleanTasksAreTrue, SameReportsHaveOneText};

/// Clean builds of one directory tell the same, of tasks that the program has; and reports that tell the same are printed as one text.
/// Rule: docs/BUILDING.md, "What is printed".
pub fn reports_are_one()
    ensures same { CleanReportsAreOne }
    ensures tasks { CleanTasksAreTrue }
    ensures printed { SameReportsHaveOneText }
{}
