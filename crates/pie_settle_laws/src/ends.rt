//! The result of a build by the records of what its roots reach.
ghost use Rattle.pie_settle_laws.specs.Ends.{EnteredTasksAreReached, KnownRootsAreDone, KnownRootsEnd};

/// Known roots decide the result of a build, whatever other tasks have records. Rule: docs/MODEL.md.
pub fn known_roots_decide()
    ensures entered { EnteredTasksAreReached }
    ensures done { KnownRootsAreDone }
    ensures ended { KnownRootsEnd }
{}
