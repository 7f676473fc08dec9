//! What tasks see of the contents that were kept.
ghost use Rattle.pie_step_laws.specs.Contents.{ContentsAreKept, ContentsBegin, KeptContentsAreVisible, KeptWritesAreSeen, NothingIsSeenAtReservedPaths};
ghost use Rattle.pie_step_laws.specs.Contents.{OwnWritesAreSeen, RunningTasksSeeContents, SourcesAreSeen, WritesKeepContents};

/// The kept contents of recorded tasks show what these provide.
pub fn kept_contents_are_visible()
    ensures provided { KeptContentsAreVisible }
    ensures running { RunningTasksSeeContents }
{}

/// The contents of recorded tasks are kept, from task to task.
pub fn contents_are_kept()
    ensures begin { ContentsBegin }
    ensures kept { ContentsAreKept }
    ensures written { WritesKeepContents }
{}

/// What is visible to the running task at a path, by the kind of the path.
pub fn running_tasks_see()
    ensures own { OwnWritesAreSeen }
    ensures kept { KeptWritesAreSeen }
    ensures nothing { NothingIsSeenAtReservedPaths }
    ensures sources { SourcesAreSeen }
{}
