//! Whether places agree with rows: the test that a caller can make before an insertion.
ghost use Rattle.std.specs.Prelude.{◌≡◌, ℕ, ◌↔◌, IsTrue, length};
ghost use Rattle.std.specs.List.{Contains};
ghost use Rattle.pie_graph.specs.Numbers.{numbers};
ghost use Rattle.pie_order.specs.Places.{PlacesAgree, StandsBefore};

use crate::within::place_in;
use pie_graph::{TaskNo, TaskRows};

// Whether each required task stands before those that require it.
pub(crate) fn all_agree<R: TaskRows>(rows: &R, places: &[u32]) -> bool
    requires { length places.now ≡ length (R.rows rows.now) }
    ensures { IsTrue result ↔ PlacesAgree (R.rows rows.now) places.now }
{
    for caller in 0..rows.count() {
        let no = TaskNo(caller);
        if !all_before(rows.callees(no), places, no) {
            return false;
        }
    }
    true
}

// Whether each of some tasks stands before another.
fn all_before(tasks: &[TaskNo], places: &[u32], caller: TaskNo) -> bool
    ensures { IsTrue result ↔ ((n : ℕ) → Contains (numbers tasks.now) n → StandsBefore places.now n caller.0) }
{
    let place = place_in(places, caller);
    for i in 0..tasks.len() {
        let task = tasks[i];
        if place <= place_in(places, task) {
            return false;
        }
    }
    true
}
