//! Paths that two live tasks wrote.
ghost use Rattle.std.specs.Prelude.{◌≡◌, ◌<◌, ◌&&◌, ◌==◌, not, length, option_map, IfOk};
ghost use Rattle.pie_base.specs.Path.{same_text};
ghost use Rattle.pie_graph.specs.Numbers.{AllBelow};
ghost use Rattle.pie_value.specs.declared.verdict.Refusal.TheVariants.{Overlap};
ghost use Rattle.pie_record.specs.inner.Names.{AreDistinct};
ghost use Rattle.pie_checks.specs.Records.{OfTask};
ghost use Rattle.pie_checks.specs.Refusals.{FindsOverlap};
ghost use Rattle.pie_checks.specs.Listings.{IsInOrder, AreNumbered, Stands, IsFirstShared, HasTwo};
ghost use Rattle.pie_checks.specs.Searches.{AreEncodable, IsTwoLeast, task_at};

use crate::least::least_but;
use crate::listing::numbers_at;
use pie_base::{OutOfMemory, Path};
use pie_value::{Refusal, Task};
use std::alloc::Global;

/// The least path that two of the tasks wrote, with the two least of them.
pub(crate) fn overlap(
    alloc: Global,
    tasks: &[Task],
    writes: &[(Path, u32)],
) -> Result<Option<Refusal>, OutOfMemory>
    requires distinct { AreDistinct tasks.now }
    requires encodable { AreEncodable tasks.now }
    requires ordered { IsInOrder writes.now }
    requires numbered { AreNumbered (length tasks.now) writes.now }
    ensures { IfOk result (FindsOverlap (OfTask tasks.now (Stands writes.now))) }
{
    match shared(writes) {
        Some(path) => {
            let writers = numbers_at(alloc, writes, path)?;
            let (first, second) = two_least(tasks, &writers);
            let refusal = told(tasks, path, first, second)?;
            Ok(Some(refusal))
        }
        None => Ok(None),
    }
}

// The first path that stands beside two numbers.
fn shared(writes: &[(Path, u32)]) -> Option<&Path>
    requires { IsInOrder writes.now }
    ensures { IsFirstShared writes.now (option_map (λ path. path.now) result) }
{
    for i in 1..writes.len() {
        let before = &writes[i - 1];
        let entry = &writes[i];
        if differ(before, entry) {
            return Some(&entry.0);
        }
    }
    None
}

// Whether two entries have one path and two numbers.
fn differ(a: &(Path, u32), b: &(Path, u32)) -> bool
    ensures { result ≡ (same_text a.now.0 b.now.0 && not (a.now.1 == b.now.1)) }
{
    a.0 == b.0 && a.1 != b.1
}

// The two least of some tasks.
fn two_least(tasks: &[Task], among: &[u32]) -> (u32, u32)
    requires two { HasTwo among.now }
    requires numbered { AllBelow (length tasks.now) among.now }
    requires encodable { AreEncodable tasks.now }
    ensures { IsTwoLeast tasks.now among.now result }
{
    let Some(first) = least_but(tasks, among, None) else {
        unreachable!()
    };
    let Some(second) = least_but(tasks, among, Some(first)) else {
        unreachable!()
    };
    (first, second)
}

fn told(tasks: &[Task], path: &Path, first: u32, second: u32) -> Result<Refusal, OutOfMemory>
    requires first { first < length tasks.now }
    requires second { second < length tasks.now }
    ensures { IfOk result (λ refusal. refusal ≡ Overlap path.now (task_at tasks.now first) (task_at tasks.now second)) }
{
    let path = path.copy()?;
    let first = tasks[first as usize].copy()?;
    let second = tasks[second as usize].copy()?;
    Ok(Refusal::Overlap(path, first, second))
}
