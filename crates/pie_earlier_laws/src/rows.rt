//! What the store of an earlier accepted build has.
ghost use Rattle.pie_earlier_laws.specs.Rows.{RowsAreOfLiveTasks, LiveTasksHaveRows, RowsAreClosed, RowsAreDistinct};

/// The rows of an accepted build are the records of its live tasks, each of which ended with a value; each task that a row requires has
/// a row; no task has two, and there are no more than tasks may be. Rule: docs/MODEL.md.
pub fn old_rows_are_right()
    ensures rows { RowsAreOfLiveTasks }
    ensures live { LiveTasksHaveRows }
    ensures closed { RowsAreClosed }
    ensures distinct { RowsAreDistinct }
{}
