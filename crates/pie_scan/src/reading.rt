//! Reading what a manifest says, once from the left. `end` is the length of the body, so that what is left tells
//! the offset.
ghost use Rattle.std.specs.Prelude.{◌≡◌, ◌-◌, length};
ghost use Rattle.pie_record.specs.inner.Agreement.{RowAgrees as PartAgrees};
ghost use Rattle.pie_record.specs.Reading.{path_at, bytes_at, number_at, mark_at};
ghost use Rattle.pie_scan.specs.inner.Agreement.{ManifestAgrees};
ghost use Rattle.pie_scan.specs.Reading.{part_fault, part_at, entry_part, is_last, path_key, entry_key, next_at, list_at};

use crate::{Entry, ManifestFault};
use pie_base::Path;
use pie_record::{Reader, RecordFault};
use std::alloc::Global;

// Of a part that begins at this offset.
fn unread(fault: RecordFault, at: usize) -> ManifestFault
    ensures { result ≡ part_fault at fault }
{
    match fault {
        RecordFault::OutOfMemory => ManifestFault::OutOfMemory,
        _ => ManifestFault::Entry(at),
    }
}

// The offset at which the reader stands.
fn place(end: usize, reader: &Reader<'_>) -> usize
    ensures { result ≡ end - length reader.now }
{
    end.saturating_sub(reader.left())
}

// A SHA-256.
pub(crate) fn hash(end: usize, reader: &mut Reader<'_>) -> Result<[u8; 32], ManifestFault>
    ensures { ManifestAgrees (λ h. h) result reader.new (part_at end (bytes_at 32) reader.old) }
{
    let at = place(end, reader);
    match reader.hash() {
        Ok(hash) => Ok(hash),
        Err(fault) => Err(unread(fault, at)),
    }
}

// How many tops follow.
fn count_tops(end: usize, reader: &mut Reader<'_>) -> Result<usize, ManifestFault>
    ensures { ManifestAgrees (λ n. n) result reader.new (part_at end number_at reader.old) }
{
    let at = place(end, reader);
    match reader.number() {
        Ok(number) => Ok(number),
        Err(fault) => Err(unread(fault, at)),
    }
}

// How many entries follow.
fn count_entries(end: usize, reader: &mut Reader<'_>) -> Result<u64, ManifestFault>
    ensures { ManifestAgrees (λ n. n) result reader.new (part_at end mark_at reader.old) }
{
    let at = place(end, reader);
    match reader.mark() {
        Ok(number) => Ok(number),
        Err(fault) => Err(unread(fault, at)),
    }
}

// Whether a path comes after the last of these, if there is one.
fn top_is_last(tops: &[Path], top: &Path) -> bool
    ensures { result ≡ is_last path_key tops.now top.now }
{
    match tops.last() {
        Some(last) => *last < *top,
        None => true,
    }
}

fn entry_is_last(entries: &[Entry], entry: &Entry) -> bool
    ensures { result ≡ is_last entry_key entries.now entry.now }
{
    match entries.last() {
        Some(last) => last.path < entry.path,
        None => true,
    }
}

// A top that comes after those before it.
#[tactic(auto, unfolding(crate::specs::Reading::next_at))]
fn one_top(
    end: usize,
    reader: &mut Reader<'_>,
    alloc: Global,
    tops: &[Path],
) -> Result<Path, ManifestFault>
    ensures { ManifestAgrees (λ p. p) result reader.new (next_at end path_key path_at tops.now reader.old) }
{
    let at = place(end, reader);
    match reader.path(alloc) {
        Ok(top) => {
            if top_is_last(tops, &top) {
                Ok(top)
            } else {
                Err(ManifestFault::Order(at))
            }
        }
        Err(fault) => Err(unread(fault, at)),
    }
}

#[tactic(auto, using(crate::proofs::Turns::one_more))]
pub(crate) fn tops(
    end: usize,
    reader: &mut Reader<'_>,
    alloc: Global,
) -> Result<Vec<Path>, ManifestFault>
    ensures { ManifestAgrees (λ ps. ps.items) result reader.new (list_at end number_at path_key path_at reader.old) }
{
    let count = count_tops(end, reader)?;
    let mut tops = Vec::new(alloc);
    for _ in 0..count {
        match one_top(end, reader, alloc, tops.as_slice()) {
            Ok(top) => tops.push(top)?,
            Err(fault) => return Err(fault),
        }
    }
    Ok(tops)
}

// An entry, whose mark is 0 under `out/`.
#[tactic(auto, unfolding(crate::specs::Reading::entry_part))]
fn entry(reader: &mut Reader<'_>, alloc: Global) -> Result<Entry, RecordFault>
    ensures { PartAgrees (λ e. e) result reader.new (entry_part reader.old) }
{
    let path = reader.path(alloc)?;
    let mark = reader.mark()?;
    let hash = reader.hash()?;
    if path.under_out() && mark != 0 {
        return Err(RecordFault::BadValue);
    }
    Ok(Entry { path, mark, hash })
}

// An entry that comes after those before it.
#[tactic(auto, unfolding(crate::specs::Reading::next_at))]
fn one_entry(
    end: usize,
    reader: &mut Reader<'_>,
    alloc: Global,
    entries: &[Entry],
) -> Result<Entry, ManifestFault>
    ensures { ManifestAgrees (λ e. e) result reader.new (next_at end entry_key entry_part entries.now reader.old) }
{
    let at = place(end, reader);
    match entry(reader, alloc) {
        Ok(entry) => {
            if entry_is_last(entries, &entry) {
                Ok(entry)
            } else {
                Err(ManifestFault::Order(at))
            }
        }
        Err(fault) => Err(unread(fault, at)),
    }
}

#[tactic(auto, using(crate::proofs::Turns::one_more))]
pub(crate) fn entries(
    end: usize,
    reader: &mut Reader<'_>,
    alloc: Global,
) -> Result<Vec<Entry>, ManifestFault>
    ensures { ManifestAgrees (λ es. es.items) result reader.new (list_at end mark_at entry_key entry_part reader.old) }
{
    let count = count_entries(end, reader)?;
    let mut entries = Vec::new(alloc);
    for _ in 0..count {
        match one_entry(end, reader, alloc, entries.as_slice()) {
            Ok(entry) => entries.push(entry)?,
            Err(fault) => return Err(fault),
        }
    }
    Ok(entries)
}
