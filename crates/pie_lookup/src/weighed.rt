//! How many bytes a record has in the store.

use pie_base::Path;
use pie_record::{Dep, DepOn, Outcome, TaskRecord};
use pie_value::{Stamp, size};

/// How many canonical bytes a record has. Rule: docs/FORMATS.md, "Records".
pub(crate) fn weight(rec: &TaskRecord) -> u64 {
    let fixed = rec.task.size().saturating_add(8);
    let deps = deps_weight(rec.deps.as_slice());
    let writes = writes_weight(rec.writes.as_slice());
    fixed
        .saturating_add(deps)
        .saturating_add(writes)
        .saturating_add(outcome_weight(&rec.outcome))
}

fn deps_weight(deps: &[Dep]) -> u64 {
    let mut sum: u64 = 0;
    for dep in deps {
        sum = sum.saturating_add(dep_weight(dep));
    }
    sum
}

// A byte for the kind, what was observed, and a byte for the tag before what the stamp holds.
fn dep_weight(dep: &Dep) -> u64 {
    let on = match &dep.what {
        DepOn::File(path) => path_weight(path),
        DepOn::Called(task) => task.size(),
    };
    on.saturating_add(2)
        .saturating_add(stamp_weight(&dep.stamp))
}

fn stamp_weight(stamp: &Stamp) -> u64 {
    match stamp {
        Stamp::Absent | Stamp::Present | Stamp::Done => 0,
        Stamp::Hash(_) => 32,
        Stamp::Mark(_) => 8,
        Stamp::Whole(value) => size(value),
    }
}

fn writes_weight(writes: &[(Path, [u8; 32])]) -> u64 {
    let mut sum: u64 = 0;
    for (path, _) in writes {
        sum = sum.saturating_add(path_weight(path)).saturating_add(32);
    }
    sum
}

fn path_weight(path: &Path) -> u64 {
    (path.as_str().len() as u64).saturating_add(4)
}

// A store keeps outputs alone.
fn outcome_weight(outcome: &Outcome) -> u64 {
    match outcome {
        Outcome::Done(value) => size(value),
        Outcome::Failed(_) | Outcome::Cycled(_) => 0,
    }
}
