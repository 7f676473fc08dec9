//! Reading the entries of a cache file, once from the left. `end` is the length of the body, so that what is left tells the
//! offset.
ghost use Rattle.std.specs.Prelude.{◌≡◌, ◌-◌, [], length, map};
ghost use Rattle.pie_record.specs.inner.Agreement.{RowAgrees as PartAgrees};
ghost use Rattle.pie_store.specs.inner.Offers.{offered};
ghost use Rattle.pie_cache.specs.inner.Agreement.{CacheAgrees};
ghost use Rattle.pie_cache.specs.inner.Reading.{part_fault, part_at, content_at, contents_at, entry_part, some_at};

use crate::CacheFault;
use pie_base::Path;
use pie_record::{Reader, RecordFault};
use pie_stamp::hash_of;
use pie_store::Offer;
use std::alloc::Global;

// Of an entry that begins at this offset.
fn unread(fault: RecordFault, at: usize) -> CacheFault
    ensures { result ≡ part_fault at fault }
{
    match fault {
        RecordFault::OutOfMemory => CacheFault::OutOfMemory,
        _ => CacheFault::Entry(at),
    }
}

// The content of a write that has this hash, behind its length.
#[tactic(auto, unfolding(crate::specs::inner::Reading::content_at))]
fn content(reader: &mut Reader<'_>, alloc: Global, hash: &[u8; 32]) -> Result<Vec<u8>, RecordFault>
    ensures { PartAgrees (λ c. c.items) result reader.new (content_at hash.now reader.old) }
{
    let bytes = reader.counted()?;
    if hash_of(bytes).as_slice() != hash.as_slice() {
        return Err(RecordFault::BadValue);
    }
    let mut content = Vec::new(alloc);
    content.extend_from_slice(bytes)?;
    Ok(content)
}

// The contents of these writes, in their order.
fn contents(
    reader: &mut Reader<'_>,
    alloc: Global,
    writes: &[(Path, [u8; 32])],
) -> Result<Vec<Vec<u8>>, RecordFault>
    ensures { PartAgrees (λ cs. map (λ c. c.items) cs.items) result reader.new (contents_at writes.now [] reader.old) }
{
    let mut contents = Vec::new(alloc);
    for (_, hash) in writes {
        match content(reader, alloc, hash) {
            Ok(content) => contents.push(content)?,
            Err(fault) => return Err(fault),
        }
    }
    Ok(contents)
}

// An entry: a record, and what it wrote.
#[tactic(auto, unfolding(crate::specs::inner::Reading::entry_part))]
fn entry(reader: &mut Reader<'_>, alloc: Global) -> Result<Offer, RecordFault>
    ensures { PartAgrees offered result reader.new (entry_part reader.old) }
{
    let row = reader.record(alloc)?;
    let contents = contents(reader, alloc, row.writes.as_slice())?;
    Ok(Offer { row, contents })
}

// The next entry, or the offset of what isn't one.
fn one_entry(end: usize, reader: &mut Reader<'_>, alloc: Global) -> Result<Offer, CacheFault>
    ensures { CacheAgrees offered result reader.new (part_at end entry_part reader.old) }
{
    let at = end.saturating_sub(reader.left());
    match entry(reader, alloc) {
        Ok(entry) => Ok(entry),
        Err(fault) => Err(unread(fault, at)),
    }
}

/// So many entries.
pub(crate) fn entries(
    end: usize,
    reader: &mut Reader<'_>,
    alloc: Global,
    count: u8,
) -> Result<Vec<Offer>, CacheFault>
    ensures { CacheAgrees (λ es. map offered es.items) result reader.new (some_at end count [] reader.old) }
{
    let mut entries = Vec::new(alloc);
    for _ in 0..count {
        match one_entry(end, reader, alloc) {
            Ok(entry) => entries.push(entry)?,
            Err(fault) => return Err(fault),
        }
    }
    Ok(entries)
}
