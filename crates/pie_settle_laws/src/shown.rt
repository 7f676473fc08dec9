//! What settled tasks show.
ghost use Rattle.pie_settle_laws.specs.Shown.{KnownTasksProvide, RecordedHashesHaveContents, UnrecordedPathsAreUnwritten};

/// What is kept of the tasks that known ones reach shows what these provide, and the hashes of right records are those of contents.
pub fn known_tasks_provide()
    ensures provided { KnownTasksProvide }
    ensures contents { RecordedHashesHaveContents }
    ensures nothing { UnrecordedPathsAreUnwritten }
{}
