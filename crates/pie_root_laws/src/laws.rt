//! The laws on printed forms, on a function with an empty body.
ghost use Rattle.pie_root_laws.specs.Printed.{PrintableTasksAreCut, NoOthersAreCut, PrintedFormsNameTasks, NamedTasksAreNamedAgain};

/// The lexer cuts the printed form of a task into the tokens of the task exactly where the task's function is a name and
/// the digits of each number in its arguments make a token. A line of `pie.roots` that is the printed form of such a task
/// names it, where the task may be written and keeps the limits; so does that of each task that any line names.
/// Rule: docs/LANGUAGE.md, "Roots".
pub fn printed_tasks_are_cut()
    ensures cut { PrintableTasksAreCut }
    ensures only { NoOthersAreCut }
    ensures line { PrintedFormsNameTasks }
    ensures again { NamedTasksAreNamedAgain }
{}
