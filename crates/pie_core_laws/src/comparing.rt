//! Old records that are compared with what is there now.
ghost use Rattle.pie_core_laws.specs.Comparing.{UntouchedRecordsAreTested, StandingRecordsStand};

/// An old record that was tested and isn't touched has its stamps of named sources; one that stands, stands in the model.
/// Rule: docs/MODEL.md.
pub fn old_records_are_compared()
    ensures untouched { UntouchedRecordsAreTested }
    ensures stands { StandingRecordsStand }
{}
