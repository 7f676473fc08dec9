//! Reading what a store says, once from the left. `end` is the length of the body, so that what is left tells
//! the offset.
ghost use Rattle.std.specs.Prelude.{◌≡◌, ◌-◌, ◌≤◌, ◌<◌, ◌^◌, length, List, ℕ, All, IfOk, None, Some, map};
ghost use Rattle.pie_record.specs.inner.Agreement.{RowAgrees as PartAgrees};
ghost use Rattle.pie_record.specs.Reading.{number_at};
ghost use Rattle.pie_value.specs.Canonical.{IsCanonicalTask};
ghost use Rattle.pie_store.specs.inner.Agreement.{StoreAgrees};
ghost use Rattle.pie_store.specs.Ranks.{rank_in, IsStored};
ghost use Rattle.pie_store.specs.inner.Known.{known_in};
ghost use Rattle.pie_store.specs.inner.Reading.{row_fault, part_at, grown, list_at, func_at, name_follows, name_last, next_func, next_root, next_row, first_missing};
ghost use Rattle.pie_store.specs.inner.Reading.{tasks_of as specs_tasks_of};
ghost use Rattle.pie_store.specs.Canonical.{name_before as specs_name_before, needs};
ghost use Rattle.pie_store.specs.inner.Ties.{named_by, tasks_among};

use crate::StoreFault;
use crate::known::Known;
use crate::lookups::Lookup;
use crate::ranked::{NextRow, RankedRows};
use pie_base::{OutOfMemory, Text};
use pie_graph::TaskNo;
use pie_record::{Expected, Reader, RecordFault};
use pie_value::Task;
use std::alloc::Global;
use std::cmp::Ordering;

// Of a part that begins at this offset.
pub(crate) fn unread(fault: RecordFault, at: usize) -> StoreFault
    ensures { result ≡ row_fault at fault }
{
    match fault {
        RecordFault::OutOfMemory => StoreFault::OutOfMemory,
        _ => StoreFault::Row(at),
    }
}

// The offset at which the reader stands.
pub(crate) fn place(end: usize, reader: &Reader<'_>) -> usize
    ensures { result ≡ end - length reader.now }
{
    end.saturating_sub(reader.left())
}

fn number(end: usize, reader: &mut Reader<'_>) -> Result<usize, StoreFault>
    ensures read { StoreAgrees (λ n. n) result reader.new (part_at end number_at reader.old) }
    ensures small { IfOk result (λ n. n < 2 ^ 32) }
{
    let at = place(end, reader);
    match reader.number() {
        Ok(number) => Ok(number),
        Err(fault) => Err(unread(fault, at)),
    }
}

#[tactic(auto, unfolding(crate::specs::inner::Reading::func_at))]
fn func(reader: &mut Reader<'_>, alloc: Global) -> Result<(Text, [u8; 32]), RecordFault>
    ensures { PartAgrees (λ f. f) result reader.new (func_at reader.old) }
{
    let name = reader.text(alloc)?;
    let digest = reader.hash()?;
    Ok((name, digest))
}

fn name_before(a: &[u8], b: &[u8]) -> bool
    ensures { result ≡ specs_name_before a.now b.now }
{
    match a.len().cmp(&b.len()) {
        Ordering::Less => true,
        Ordering::Equal => a.cmp(b) == Ordering::Less,
        Ordering::Greater => false,
    }
}

// Whether a name comes after those of all functions so far.
fn name_is_last(funcs: &[(Text, [u8; 32])], name: &Text) -> bool
    ensures { result ≡ name_last funcs.now name.now }
{
    match funcs.last() {
        Some((last, _)) => name_before(last.as_str().as_bytes(), name.as_str().as_bytes()),
        None => true,
    }
}

// A function that comes after those before it.
#[tactic(auto, unfolding(crate::specs::inner::Reading::next_func))]
fn one_func(
    end: usize,
    reader: &mut Reader<'_>,
    alloc: Global,
    funcs: &[(Text, [u8; 32])],
) -> Result<(Text, [u8; 32]), StoreFault>
    ensures { StoreAgrees (λ f. f) result reader.new (next_func end funcs.now reader.old) }
{
    let at = place(end, reader);
    match func(reader, alloc) {
        Ok(func) => {
            if name_is_last(funcs, &func.0) {
                Ok(func)
            } else {
                Err(StoreFault::Order(at))
            }
        }
        Err(fault) => Err(unread(fault, at)),
    }
}

#[tactic(auto, using(crate::proofs::Turns::one_more))]
pub(crate) fn funcs(
    end: usize,
    reader: &mut Reader<'_>,
    alloc: Global,
) -> Result<Vec<(Text, [u8; 32])>, StoreFault>
    ensures { StoreAgrees (λ fs. fs.items) result reader.new (list_at end (next_func end) reader.old) }
{
    let count = number(end, reader)?;
    let mut funcs = Vec::new(alloc);
    for _ in 0..count {
        match one_func(end, reader, alloc, funcs.as_slice()) {
            Ok(func) => funcs.push(func)?,
            Err(fault) => return Err(fault),
        }
    }
    Ok(funcs)
}

// A root, with its offset.
#[tactic(auto, unfolding(crate::specs::inner::Reading::next_root))]
fn one_root(
    end: usize,
    reader: &mut Reader<'_>,
    alloc: Global,
    roots: &[(Task, usize)],
) -> Result<(Task, usize), StoreFault>
    ensures root { StoreAgrees (λ r. r) result reader.new (next_root end roots.now reader.old) }
    ensures stored { IfOk result (λ r. IsStored r.0) }
{
    let at = place(end, reader);
    match reader.task(alloc) {
        Ok(task) => Ok((task, at)),
        Err(fault) => Err(unread(fault, at)),
    }
}

#[tactic(auto, using(crate::proofs::Turns::one_more))]
pub(crate) fn roots(
    end: usize,
    reader: &mut Reader<'_>,
    alloc: Global,
) -> Result<Vec<(Task, usize)>, StoreFault>
    ensures roots { StoreAgrees (λ rs. rs.items) result reader.new (list_at end (next_root end) reader.old) }
    ensures stored { IfOk result (λ rs. All (λ (r : Task × ℕ). IsStored r.0) rs.items) }
{
    let count = number(end, reader)?;
    let mut roots = Vec::new(alloc);
    for _ in 0..count {
        match one_root(end, reader, alloc, roots.as_slice()) {
            Ok(root) => roots.push(root)?,
            Err(fault) => return Err(fault),
        }
    }
    Ok(roots)
}

// The tasks of roots.
pub(crate) fn tasks_of(alloc: Global, roots: &[(Task, usize)]) -> Result<Vec<Task>, OutOfMemory>
    ensures { IfOk result (λ tasks. tasks.items ≡ specs_tasks_of roots.now) }
{
    let mut tasks = Vec::with_capacity(alloc, roots.len())?;
    for (task, _) in roots {
        tasks.push(task.copy()?)?;
    }
    Ok(tasks)
}

// A record that may stand after those before it. The task that was looked up last, and the one behind it, are expected.
#[tactic(auto, unfolding(crate::specs::inner::Reading::next_row))]
fn one_row(
    end: usize,
    reader: &mut Reader<'_>,
    alloc: Global,
    funcs: &Known,
    lookup: &mut Lookup,
    rows: &RankedRows,
) -> Result<NextRow, StoreFault>
    ensures row { StoreAgrees (λ n. (n.rec.value, n.height)) result reader.new (next_row (known_in funcs.now) end rows.now reader.old) }
    ensures stored { IfOk result (λ n. IsStored n.rec.value.task) }
    ensures bytes { IfOk result (λ n. IsCanonicalTask n.rec.value.task n.bytes.items) }
    ensures absent { IfOk result (λ n. rank_in rows.now n.rec.value.task ≡ None) }
    ensures low { IfOk result (λ n. n.height ≤ length rows.now) }
    ensures needs { IfOk result (λ n. named_by (tasks_among rows.now) n.needs.items ≡ map Some (needs n.rec.value)) }
{
    let at = place(end, reader);
    let mut known = Expected::new(rows.names(), lookup.last);
    match reader.record_among(alloc, &mut known) {
        Ok(rec) => {
            let mut rec = Box::new(alloc, rec)?;
            let mut needs = Vec::new(alloc);
            match rows.height_after(alloc, funcs, lookup, &mut rec, &mut needs)? {
                Some(height) => {
                    let bytes = Vec::from_slice(alloc, lookup.bytes.as_slice())?;
                    Ok(NextRow {
                        rec,
                        bytes,
                        height,
                        needs,
                    })
                }
                None => Err(StoreFault::Order(at)),
            }
        }
        Err(fault) => Err(unread(fault, at)),
    }
}

// One record more than those before it.
fn more_rows(
    end: usize,
    reader: &mut Reader<'_>,
    alloc: Global,
    funcs: &Known,
    lookup: &mut Lookup,
    rows: RankedRows,
) -> Result<RankedRows, StoreFault>
    requires { length rows < 2 ^ 32 }
    ensures { StoreAgrees (λ rs. rs) result reader.new (grown (next_row (known_in funcs.now) end) rows reader.old) }
{
    match one_row(end, reader, alloc, funcs, lookup, &rows) {
        Ok(next) => {
            let more = rows.push(next)?;
            Ok(more)
        }
        Err(fault) => Err(fault),
    }
}

#[tactic(auto, using(crate::proofs::Turns::one_grown))]
pub(crate) fn rows(
    end: usize,
    reader: &mut Reader<'_>,
    alloc: Global,
    funcs: &Known,
) -> Result<RankedRows, StoreFault>
    ensures { StoreAgrees (λ rs. rs) result reader.new (list_at end (next_row (known_in funcs.now) end) reader.old) }
{
    let count = number(end, reader)?;
    let mut rows = RankedRows::new(alloc);
    let mut lookup = Lookup {
        bytes: Vec::new(alloc),
        last: TaskNo(0),
    };
    for _ in 0..count {
        match more_rows(end, reader, alloc, funcs, &mut lookup, rows) {
            Ok(more) => rows = more,
            Err(fault) => return Err(fault),
        }
    }
    Ok(rows)
}

// The offset of the first root without a record.
pub(crate) fn missing(
    alloc: Global,
    rows: &RankedRows,
    roots: &[(Task, usize)],
) -> Result<Option<usize>, OutOfMemory>
    requires { All (λ (r : Task × ℕ). IsStored r.0) roots.now }
    ensures { IfOk result (λ at. at ≡ first_missing rows.now roots.now) }
{
    let mut bytes = Vec::new(alloc);
    for (task, at) in roots {
        if rows.rank(&mut bytes, task)?.is_none() {
            return Ok(Some(*at));
        }
    }
    Ok(None)
}
