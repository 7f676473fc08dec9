//! The least of some tasks, in the order of their canonical bytes.
ghost use Rattle.std.specs.Prelude.{◌≡◌, ◌<◌, length, IfSome};
ghost use Rattle.std.specs.Ordering.{is_lt};
ghost use Rattle.pie_graph.specs.Numbers.{AllBelow};
ghost use Rattle.pie_value.specs.Canonical.{IsEncodableTask};
ghost use Rattle.pie_checks.specs.Refusals.{task_order};
ghost use Rattle.pie_checks.specs.Searches.{AreEncodable, IsAmong, IsLeastBut, is_but, lesser_of, better_of};

use pie_value::Task;
use std::cmp::Ordering;

/// Of the tasks with these numbers one that comes after none of them, apart from one that is left out; none where
/// there is no other.
pub(crate) fn least_but(tasks: &[Task], among: &[u32], but: Option<u32>) -> Option<u32>
    requires numbered { AllBelow (length tasks.now) among.now }
    requires encodable { AreEncodable tasks.now }
    ensures { IsLeastBut tasks.now (IsAmong among.now but) result }
{
    let mut best = None;
    for no in among {
        best = better(tasks, best, *no, but);
    }
    best
}

// The best so far, or one more number that is better and isn't left out.
fn better(tasks: &[Task], best: Option<u32>, no: u32, but: Option<u32>) -> Option<u32>
    requires no { no < length tasks.now }
    requires best { IfSome best (λ b. b < length tasks.now) }
    requires encodable { AreEncodable tasks.now }
    ensures bound { IfSome result (λ b. b < length tasks.now) }
    ensures better { result ≡ better_of tasks.now but best no }
{
    if is(but, no) {
        best
    } else {
        lesser(tasks, best, no)
    }
}

fn is(but: Option<u32>, no: u32) -> bool
    ensures { result ≡ is_but but no }
{
    match but {
        Some(other) => other == no,
        None => false,
    }
}

// The lesser of the best so far and one more.
fn lesser(tasks: &[Task], best: Option<u32>, no: u32) -> Option<u32>
    requires no { no < length tasks.now }
    requires best { IfSome best (λ b. b < length tasks.now) }
    requires encodable { AreEncodable tasks.now }
    ensures bound { IfSome result (λ b. b < length tasks.now) }
    ensures lesser { result ≡ lesser_of tasks.now best no }
{
    match best {
        None => Some(no),
        Some(old) => {
            if precedes(&tasks[no as usize], &tasks[old as usize]) {
                Some(no)
            } else {
                Some(old)
            }
        }
    }
}

fn precedes(a: &Task, b: &Task) -> bool
    requires a { IsEncodableTask a.now }
    requires b { IsEncodableTask b.now }
    ensures { result ≡ is_lt (task_order a.now b.now) }
{
    match a.cmp(b) {
        Ordering::Less => true,
        _ => false,
    }
}
