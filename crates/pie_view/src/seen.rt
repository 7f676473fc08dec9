//! What is seen, and the choice among tasks that wrote one path.
ghost use Rattle.std.specs.Prelude.{◌≡◌, length};
ghost use Rattle.std.specs.List.Sorted.{IsStrictlyIncreasing};
ghost use Rattle.pie_graph.specs.Numbers.{numbers, AllBelow};
ghost use Rattle.pie_view.specs.Seen.{IsOnly, Marked, seen_with};

use pie_graph::TaskNo;

/// What a task sees at a path under `out/`.
#[derive(Clone, Copy, Debug, PartialEq, Eq)]
pub enum Seen {
    /// No file.
    Absent,
    /// The file that this task wrote.
    By(TaskNo),
    /// Files of two distinct tasks.
    Clash,
}

/// What is seen of these writers where only those with a mark are visible.
pub(crate) fn among(writers: &[TaskNo], marks: &[bool]) -> Seen
    requires below { AllBelow (length marks.now) (numbers writers.now) }
    requires ascending { IsStrictlyIncreasing (numbers writers.now) }
    ensures { IsOnly (Marked (numbers writers.now) marks.now) result }
{
    let mut seen = Seen::Absent;
    for no in writers {
        seen = with(seen, *no, marks[no.0 as usize]);
    }
    seen
}

// What is seen where one more writer is visible, if it is.
fn with(seen: Seen, no: TaskNo, visible: bool) -> Seen
    ensures { result ≡ seen_with seen no visible }
{
    if !visible {
        return seen;
    }
    match seen {
        Seen::Absent => Seen::By(no),
        Seen::By(_) => Seen::Clash,
        Seen::Clash => Seen::Clash,
    }
}
