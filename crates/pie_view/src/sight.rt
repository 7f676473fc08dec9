//! What a task sees at a path under `out/`.
ghost use Rattle.std.specs.Prelude.{◌≡◌, length, IfOk};
ghost use Rattle.std.specs.List.{Contains};
ghost use Rattle.std.specs.List.Sorted.{IsStrictlyIncreasing};
ghost use Rattle.pie_graph.specs.Numbers.{numbers, AllBelow};
ghost use Rattle.pie_view.specs.Seen.{IsOwn, IsOnly, Visible, Reached, has_path};
ghost use Rattle.pie_view.specs.declared.seen.Seen.TheVariants.{By};

use crate::Seen;
use crate::reached::reached;
use crate::seen::among;
use pie_base::{OutOfMemory, Path};
use pie_graph::{TaskNo, TaskRows};
use pie_reach::{Down, closure};
use std::alloc::Global;

/// What a task sees at a path under `out/`: its own write if there is one, else the write of the one
/// task that wrote the path among those that it has required so far, directly or through others.
/// Rule: docs/BUILDING.md, "What a task sees".
pub fn view<R: TaskRows>(
    alloc: Global,
    rows: &R,
    of: TaskNo,
    own: &[(Path, [u8; 32])],
    required: &[TaskNo],
    path: &Path,
) -> Result<Seen, OutOfMemory>
    requires { AllBelow (length (R.rows rows.now)) (numbers required.now) }
    ensures own { IfOk result (λ seen. IsOwn own.now path.now → seen ≡ By of) }
    ensures others { IfOk result (λ seen. ¬ (IsOwn own.now path.now) → IsOnly (Visible (R.rows rows.now) (numbers required.now) path.now) seen) }
{
    if wrote(own, path) {
        return Ok(Seen::By(of));
    }
    let writers = rows.writers_of(path)?;
    let seen = seen_of(alloc, rows, required, &writers)?;
    Ok(seen)
}

// Whether one of these writes is of the path.
fn wrote(own: &[(Path, [u8; 32])], path: &Path) -> bool
    ensures { result ≡ has_path own.now path.now }
{
    own.iter().any(|write| write.0 == *path)
}

/// What is seen of these writers.
pub(crate) fn seen_of<R: TaskRows>(
    alloc: Global,
    rows: &R,
    required: &[TaskNo],
    writers: &[TaskNo],
) -> Result<Seen, OutOfMemory>
    requires required { AllBelow (length (R.rows rows.now)) (numbers required.now) }
    requires writers { AllBelow (length (R.rows rows.now)) (numbers writers.now) }
    requires ascending { IsStrictlyIncreasing (numbers writers.now) }
    ensures { IfOk result (λ seen. IsOnly (Reached (R.rows rows.now) (numbers required.now) (numbers writers.now)) seen) }
{
    match writers {
        [] => Ok(Seen::Absent),
        [one] => {
            if reached(alloc, rows, required, *one)? {
                Ok(Seen::By(*one))
            } else {
                Ok(Seen::Absent)
            }
        }
        _ => {
            let marks = closure(alloc, &Down(rows), required)?;
            Ok(among(writers, &marks))
        }
    }
}
