//! What comes of a running task.
ghost use Rattle.pie_task_laws.specs.Coming.{TasksPause};

/// What the code of a running task asks, it asks in the model; and where it ends by itself, its notes are a right record.
/// Rule: docs/MODEL.md.
pub fn tasks_pause()
    ensures { TasksPause }
{}
