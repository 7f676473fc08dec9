//! What the last checks and the commit need.
ghost use Rattle.pie_step_laws.specs.Checks.{ChecksByRecords, KeptContentsAreProvided};

/// The last checks go by the kept records.
pub fn checks_go_by_records()
    ensures { ChecksByRecords }
{}

/// What stands under `out` after the build is what is kept.
pub fn kept_contents_are_provided()
    ensures { KeptContentsAreProvided }
{}
