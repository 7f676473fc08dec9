//! Why a task runs.
ghost use Rattle.pie_earlier_laws.specs.Whys.{DifferingStampsAreReasons, RightRecordsAreNoReasons};

/// A stamp that differs by right records is a reason to run; an old record that is right, with the same code and its files in place, gives none.
/// Rule: docs/MODEL.md.
pub fn reasons_are_by_evaluation()
    ensures stamps { DifferingStampsAreReasons }
    ensures none { RightRecordsAreNoReasons }
{}
