//! The next required task that isn't settled.
ghost use Rattle.std.specs.Prelude.{◌≡◌, ◌↔◌, IsTrue};
ghost use Rattle.pie_graph.specs.Numbers.{numbers};
ghost use Rattle.pie_walk.specs.Marks.{IsSettled};
ghost use Rattle.pie_walk.specs.inner.Scans.{IsNext};

use crate::Mark;
use pie_graph::TaskNo;

/// The first place from one on where a required task isn't settled.
pub(crate) fn next_unsettled(callees: &[TaskNo], marks: &[Mark], from: usize) -> Option<usize>
    ensures { IsNext (numbers callees.now) marks.now from result }
{
    for at in from..callees.len() {
        if !is_settled(marks, callees[at]) {
            return Some(at);
        }
    }
    None
}

fn is_settled(marks: &[Mark], no: TaskNo) -> bool
    ensures { IsTrue result ↔ IsSettled marks.now no.0 }
{
    match marks.get(no.0 as usize) {
        Some(mark) => matches!(mark, Mark::Settled),
        None => false,
    }
}
