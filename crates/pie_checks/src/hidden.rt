//! Writes of paths that another task saw absent.
ghost use Rattle.std.specs.Prelude.{◌≡◌, ℕ, ◌<◌, length, IfOk, Some};
ghost use Rattle.pie_graph.specs.Numbers.{AllBelow};
ghost use Rattle.pie_value.specs.declared.verdict.Refusal.TheVariants.{Hidden};
ghost use Rattle.pie_record.specs.inner.Names.{AreDistinct};
ghost use Rattle.pie_checks.specs.Records.{OfTask};
ghost use Rattle.pie_checks.specs.Refusals.{FindsHidden};
ghost use Rattle.pie_checks.specs.Listings.{IsInOrder, AreNumbered, Stands, HasOneEach};
ghost use Rattle.pie_checks.specs.Searches.{AreEncodable, IsOtherAt, other_in, IsAmong, IsLeastBut, task_at};

use crate::least::least_but;
use crate::listing::{numbers_at, place};
use pie_base::{OutOfMemory, Path};
use pie_value::{Refusal, Task};
use std::alloc::Global;

/// The least path that one of the tasks saw absent and another wrote, with the least reader and the writer.
/// No path was written by two tasks.
pub(crate) fn hidden(
    alloc: Global,
    tasks: &[Task],
    writes: &[(Path, u32)],
    misses: &[(Path, u32)],
) -> Result<Option<Refusal>, OutOfMemory>
    requires distinct { AreDistinct tasks.now }
    requires encodable { AreEncodable tasks.now }
    requires writes { IsInOrder writes.now }
    requires misses { IsInOrder misses.now }
    requires numbered_writes { AreNumbered (length tasks.now) writes.now }
    requires numbered_misses { AreNumbered (length tasks.now) misses.now }
    requires one_each { HasOneEach writes.now }
    ensures { IfOk result (FindsHidden (OfTask tasks.now (Stands writes.now)) (OfTask tasks.now (Stands misses.now))) }
{
    for entry in misses {
        if let Some(writer) = other_writer(writes, &entry.0, entry.1) {
            let readers = numbers_at(alloc, misses, &entry.0)?;
            let reader = other_reader(tasks, &readers, writer);
            let refusal = told(tasks, &entry.0, reader, writer)?;
            return Ok(Some(refusal));
        }
    }
    Ok(None)
}

// The task that wrote a path, where it isn't the reader.
fn other_writer(writes: &[(Path, u32)], path: &Path, reader: u32) -> Option<u32>
    requires ordered { IsInOrder writes.now }
    requires one_each { HasOneEach writes.now }
    ensures { IsOtherAt writes.now path.now reader result }
{
    let at = place(writes, path.as_str().as_bytes());
    if at < writes.len() {
        other_at(&writes[at], path, reader)
    } else {
        None
    }
}

// The number of an entry of this path, if it isn't the reader's.
fn other_at(entry: &(Path, u32), path: &Path, reader: u32) -> Option<u32>
    ensures { result ≡ other_in entry.now path.now reader }
{
    if entry.0 == *path {
        if entry.1 == reader {
            None
        } else {
            Some(entry.1)
        }
    } else {
        None
    }
}

// The least of the readers other than the writer.
fn other_reader(tasks: &[Task], readers: &[u32], writer: u32) -> u32
    requires other { (n : ℕ) × IsAmong readers.now (Some writer) n }
    requires numbered { AllBelow (length tasks.now) readers.now }
    requires encodable { AreEncodable tasks.now }
    ensures { IsLeastBut tasks.now (IsAmong readers.now (Some writer)) (Some result) }
{
    match least_but(tasks, readers, Some(writer)) {
        Some(reader) => reader,
        None => unreachable!(),
    }
}

fn told(tasks: &[Task], path: &Path, reader: u32, writer: u32) -> Result<Refusal, OutOfMemory>
    requires reader { reader < length tasks.now }
    requires writer { writer < length tasks.now }
    ensures { IfOk result (λ refusal. refusal ≡ Hidden path.now (task_at tasks.now reader) (task_at tasks.now writer)) }
{
    let path = path.copy()?;
    let reader = tasks[reader as usize].copy()?;
    let writer = tasks[writer as usize].copy()?;
    Ok(Refusal::Hidden(path, reader, writer))
}
