//! Pipelines over directories.
ghost use Rattle.pie_earlier_laws.specs.Directories.{PipelinesHaveManners, PipelinesLeaveEarlierBuilds, UnnamedSourcesAgree, EarlierPipelinesBegin};

/// The tasks of every pipeline never write what they saw, nor a path twice, write under `out` alone, and list source directories alone.
pub fn pipelines_have_manners()
    ensures { PipelinesHaveManners }
{}

/// What an accepted build of a pipeline left is an earlier build to the next one; where the names of changes since then are all, the sources
/// agree outside them, listings too. Rule: docs/MODEL.md.
pub fn pipelines_leave_earlier_builds()
    ensures left { PipelinesLeaveEarlierBuilds }
    ensures sources { UnnamedSourcesAgree }
{}

/// The records of an earlier accepted build of a pipeline are consistent at the beginning of the next one, where each task is busy whose function
/// means something else now or whose stamp of a named source differs. Rule: docs/MODEL.md.
pub fn earlier_pipelines_begin()
    ensures { EarlierPipelinesBegin }
{}
