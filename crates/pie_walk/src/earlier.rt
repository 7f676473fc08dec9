//! Whether tasks require tasks of lower numbers alone: the test that a caller can make before a walk.
ghost use Rattle.std.specs.Prelude.{◌≡◌, ℕ, ◌<◌, ◌↔◌, IsTrue};
ghost use Rattle.std.specs.List.{Contains};
ghost use Rattle.pie_graph.specs.Numbers.{numbers};
ghost use Rattle.pie_walk.specs.States.{NeedsAreEarlier};

use pie_graph::{TaskNo, TaskRows};

/// Whether each task requires tasks of lower numbers alone, as `Walk::new` asks for.
pub fn needs_are_earlier<R: TaskRows>(rows: &R) -> bool
    ensures { IsTrue result ↔ NeedsAreEarlier (R.rows rows.now) }
{
    for caller in 0..rows.count() {
        if !all_below(rows.callees(TaskNo(caller)), caller) {
            return false;
        }
    }
    true
}

// Whether the number of each of some tasks is below a bound.
fn all_below(tasks: &[TaskNo], bound: u32) -> bool
    ensures { IsTrue result ↔ ((n : ℕ) → Contains (numbers tasks.now) n → n < bound) }
{
    for i in 0..tasks.len() {
        let task = tasks[i];
        if task.0 >= bound {
            return false;
        }
    }
    true
}
