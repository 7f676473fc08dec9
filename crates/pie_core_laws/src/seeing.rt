//! What a running task sees under `out/`.
ghost use Rattle.pie_core_laws.specs.Seeing.{SettledTasksProvide, FilesAreWritten};

/// What is seen by the rows of settled tasks is what these provide; and the file of a task that was kept is what its evaluation wrote.
/// Rule: docs/MODEL.md.
pub fn settled_tasks_provide()
    ensures provided { SettledTasksProvide }
    ensures files { FilesAreWritten }
{}
