//! The marked number with the least key.
ghost use Rattle.std.specs.Prelude.{◌≡◌, ◌<◌, ◌≤◌, length, IfSome};
ghost use Rattle.pie_graph.specs.Numbers.{numbers, AllBelow};
ghost use Rattle.pie_reach.specs.inner.LeastKey.{best_of, IsBest};

use pie_graph::TaskNo;

/// Of these numbers one that has a mark and a least key; none where none has a mark.
pub fn least(among: &[TaskNo], marks: &[bool], keys: &[u32]) -> Option<TaskNo>
    requires marked { AllBelow (length marks.now) (numbers among.now) }
    requires keyed { AllBelow (length keys.now) (numbers among.now) }
    ensures { IsBest (numbers among.now) marks.now keys.now result }
{
    let mut best = None;
    for no in among {
        best = better(best, *no, marks, keys);
    }
    best
}

// The better of the best so far and one more number.
fn better(best: Option<TaskNo>, no: TaskNo, marks: &[bool], keys: &[u32]) -> Option<TaskNo>
    requires marked { no.0 < length marks.now }
    requires keyed { no.0 < length keys.now }
    requires best { IfSome best (λ b. b.0 < length keys.now) }
    ensures { result ≡ best_of marks.now keys.now no best }
{
    if !marks[no.0 as usize] {
        return best;
    }
    match best {
        None => Some(no),
        Some(old) => {
            if keys[no.0 as usize] < keys[old.0 as usize] {
                Some(no)
            } else {
                Some(old)
            }
        }
    }
}
