//! The result of a build.
ghost use Rattle.pie_builder_laws.specs.Builds.{NoneAreDoneAtFirst, KnownRootsAreDone, EndedRootsAreDone, AcceptedBuildsAreClean, CheckedBuildsAreClean};
ghost use Rattle.pie_builder_laws.specs.Builds.{FailedBuildsAreClean, CyclesAreClean, FullBuildsAreClean};

/// Roots are done one after another.
pub fn roots_are_done()
    ensures first { NoneAreDoneAtFirst }
    ensures known { KnownRootsAreDone }
    ensures ended { EndedRootsAreDone }
{}

/// Where all roots are done, what the last checks answer makes the clean build.
pub fn done_builds_are_clean()
    ensures accepted { AcceptedBuildsAreClean }
    ensures checked { CheckedBuildsAreClean }
{}

/// A root that fails, ends in a cycle or enters too many tasks makes the clean build.
pub fn stopped_builds_are_clean()
    ensures failed { FailedBuildsAreClean }
    ensures in_cycle { CyclesAreClean }
    ensures full { FullBuildsAreClean }
{}
