//! The numbers that have a mark.
ghost use Rattle.std.specs.Prelude.{◌≡◌, ◌≤◌, ◌++◌, ◌∷◌, [], length, IfOk, OnOk, if◌then◌else◌};
ghost use Rattle.pie_graph.specs.Numbers.{numbers, IsMarked, Exactly};

use crate::TaskNo;
use pie_base::{MAX_TASKS, OutOfMemory};
use std::alloc::Global;

/// The numbers that have a mark, ascending.
pub fn marked(alloc: Global, marks: &[bool]) -> Result<Vec<TaskNo>, OutOfMemory>
    requires { length marks.now ≤ MAX_TASKS }
    ensures { IfOk result (λ found. Exactly (IsMarked marks.now) (numbers found.items)) }
{
    let mut found = Vec::new(alloc);
    for (i, mark) in marks.iter().enumerate() {
        note(&mut found, i as u32, *mark)?;
    }
    Ok(found)
}

// Appends a number that has its mark.
fn note(found: &mut Vec<TaskNo>, no: u32, mark: bool) -> Result<(), OutOfMemory>
    ensures { OnOk result (numbers found.new.items ≡ (if mark then numbers found.old.items ++ no ∷ [] else numbers found.old.items)) }
{
    if mark {
        found.push(TaskNo(no))?;
    }
    Ok(())
}
