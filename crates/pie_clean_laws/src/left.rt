//! What clean builds leave.
ghost use Rattle.pie_clean_laws.specs.Left.{AcceptedBuildsAreSo, AfreshBuildsLeave, CleanBuildsLeave, SameBuildsLeave};
ghost use Rattle.pie_clean_laws.specs.Left.{SameFilesAreAccepted, SameFilesLeaveTheSame};

/// An accepted build leaves what the clean build of the model leaves, byte for byte: a clean one, one that is as it, and one that started afresh; and a build of
/// a directory whose clean build the model accepts is accepted. Rule: docs/BUILDING.md, "A clean build".
pub fn clean_builds_leave()
    ensures clean { CleanBuildsLeave }
    ensures same { SameBuildsLeave }
    ensures afresh { AfreshBuildsLeave }
    ensures accepted { AcceptedBuildsAreSo }
{}

/// Of two directories with the same sources and the same two files the model accepts both clean builds, or none; and what these leave is the same at each path.
/// Rule: docs/BUILDING.md, "A clean build".
pub fn same_files_leave_the_same()
    ensures accepted { SameFilesAreAccepted }
    ensures left { SameFilesLeaveTheSame }
{}
