//! The laws by which the model of building speaks of the tasks and values of the language.
ghost use Rattle.pie_model_pipeline.specs.inner.Laws.{TasksMeanThemselves, BytesTellTasks, BytesTellValues, AnswersComeBack};

/// The canonical bytes of a task mean in the model what the task means in its pipeline. Rule: docs/MODEL.md.
pub fn tasks_mean_themselves()
    ensures { TasksMeanThemselves }
{}

/// Canonical bytes are those of one task, and of one value.
pub fn bytes_tell_tasks_and_values()
    ensures tasks { BytesTellTasks }
    ensures values { BytesTellValues }
{}

/// What a build answers a task of the language is what the model answers it.
pub fn answers_come_back()
    ensures { AnswersComeBack }
{}
