//! The end.
ghost use Rattle.pie_core_laws.specs.Ends.{SettledRootsAreDone, SettledRootsEnd};

/// Where roots are settled with values, the records of what they enter are those of a clean build in which they are done, and a settled root after
/// them ends it as its record says. Rule: docs/MODEL.md.
pub fn settled_roots_decide()
    ensures done { SettledRootsAreDone }
    ensures ended { SettledRootsEnd }
{}
