//! What is held under `out`.
ghost use Rattle.pie_left_laws.specs.Held.{OldRecordsHoldRightly};

/// What the records of the earlier build wrote, and what is asked for at named paths, is what the directory has under `out`.
/// Rule: docs/MODEL.md.
pub fn old_records_hold_rightly()
    ensures { OldRecordsHoldRightly }
{}
