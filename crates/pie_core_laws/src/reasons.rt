//! Why a task that was taken runs.
ghost use Rattle.pie_core_laws.specs.Reasons.{FallenRecordsGiveReasons};

/// A task that was taken and whose record doesn't stand has a reason to run. Rule: docs/MODEL.md.
pub fn fallen_records_give_reasons()
    ensures { FallenRecordsGiveReasons }
{}
