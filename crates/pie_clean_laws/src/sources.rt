//! What the sources of a project decide.
ghost use Rattle.pie_clean_laws.specs.inner.Sources.{SourcesDecide};

/// Projects with the same sources, whose tasks do the same and list source directories alone, have the same verdict, live tasks and records.
/// Rule: docs/MODEL.md.
pub fn sources_decide()
    ensures { SourcesDecide }
{}
