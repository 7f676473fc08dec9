//! Tasks get places one after another.
ghost use Rattle.std.specs.Prelude.{◌≡◌, ℕ, ◌+◌, ◌<◌, ◌≤◌, ◌^◌, ◌↔◌, length, IfOk};
ghost use Rattle.std.specs.List.{Contains};
ghost use Rattle.pie_graph.specs.Numbers.{numbers, AllBelow};
ghost use Rattle.pie_order.specs.Runs.{AreInOrder, IsRun, IsSpan};

use crate::within::place_in;
use pie_base::OutOfMemory;
use pie_graph::TaskNo;
use std::alloc::Global;

/// Puts tasks into the order of their places.
pub(crate) fn sort_by_place(tasks: &mut Vec<TaskNo>, places: &[u32])
    ensures same { (n : ℕ) → Contains (numbers tasks.new.items) n ↔ Contains (numbers tasks.old.items) n }
    ensures count { length tasks.new.items ≡ length tasks.old.items }
    ensures order { AreInOrder places.now (numbers tasks.new.items) }
{
    tasks.sort_unstable_by_key(|task| place_in(places, *task));
}

/// Gives tasks the places from one on, one after another.
pub(crate) fn place_run(places: &mut Vec<u32>, tasks: &[TaskNo], first: u32)
    requires below { AllBelow (length places.old.items) (numbers tasks.now) }
    requires order { AreInOrder places.old.items (numbers tasks.now) }
    requires fits { first + length tasks.now < 2 ^ 32 }
    ensures { IsRun (numbers tasks.now) first places.old.items places.new.items }
{
    for i in 0..tasks.len() {
        places[tasks[i].0 as usize] = first + i as u32;
    }
}

/// The tasks from one number up to before another.
pub(crate) fn tasks_between(alloc: Global, from: u32, to: u32) -> Result<Vec<TaskNo>, OutOfMemory>
    requires { from ≤ to }
    ensures { IfOk result (λ tasks. IsSpan from to (numbers tasks.items)) }
{
    let mut tasks = Vec::new(alloc);
    for n in from..to {
        tasks.push(TaskNo(n))?;
    }
    Ok(tasks)
}
