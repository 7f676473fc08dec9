//! The beginning.
ghost use Rattle.pie_core_laws.specs.Beginning.{BuildsBeginExact};

/// Over the records of an earlier accepted build, a build is exact at its beginning where each task is scheduled whose function means something else
/// now, or that the first test finds touched. Rule: docs/MODEL.md.
pub fn builds_begin_exact()
    ensures { BuildsBeginExact }
{}
