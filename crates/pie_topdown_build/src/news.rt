//! The records of tasks that ran, with what they wrote, as later builds may be offered them.
ghost use Rattle.std.specs.Prelude.{◌≡◌, ◌<◌, ◌^◌, ◌++◌, ℕ, List, Some, length, map, cond, All, IfOk, IfSome, OnOk};
ghost use Rattle.std.specs.BTreeMap.{get, get_by_text};
ghost use Rattle.std.specs.BTreeSet.{insert_key};
ghost use Rattle.std.specs.Cmp.Lexicographic.{slice_cmp};
ghost use Rattle.std.specs.List.{filter_map};
ghost use Rattle.std.specs.Option.{option_and_then, option_copied, option_map, option_to_list};
ghost use Rattle.std.specs.Ordering.{nat_cmp};
ghost use Rattle.sha2.specs.Sha256.{sha256};
ghost use Rattle.pie_cache.specs.inner.Texts.{AreContents};
ghost use Rattle.pie_cache.specs.inner.Keeping.{is_at};
ghost use Rattle.pie_record.specs.Canonical.{IsStorable};
ghost use Rattle.pie_results.specs.inner.Files.{contents_in};
ghost use Rattle.pie_store.specs.Pending.{in_order};
ghost use Rattle.pie_value.specs.Canonical.{IsEncodableTask, enc_task};
ghost use Rattle.pie_value.specs.Order.{byte_order};
ghost use Rattle.pie_topdown_build.specs.inner.News.{as_told, bytes_by, bytes_in, contents_of, keys_in, news_in, told_by, told_with, with_hash};
ghost use Rattle.pie_topdown_build.specs.inner.Offered.{IsNew};

use crate::offered::NewOffer;
use pie_base::{OutOfMemory, Path, Text};
use pie_checks::Built;
use pie_old::digests_of;
use pie_record::TaskRecord;
use pie_stamp::hash_of;
use pie_store::Offer;
use pie_value::{Task, encode_task};
use std::alloc::Global;
use std::collections::{BTreeMap, BTreeSet};

/// What is looked up for the records of a build.
#[derive(Drop)]
struct Lookup<'b> {
    alloc: Global,
    /// The canonical bytes of the tasks that ran.
    ran: BTreeSet<Vec<u8>>,
    /// The present digest of each function by its name.
    digests: BTreeMap<String, [u8; 32]>,
    /// The files of the build.
    files: &'b [(Path, Vec<u8>)],
    /// Where each of them stands among these.
    places: BTreeMap<Path, usize>,
}

/// The records of those live tasks that ran, each with the present digest of its function and the contents of its writes. A refused build has none.
pub(crate) fn news_of(
    alloc: Global,
    funcs: &[(Text, [u8; 32])],
    built: &Built,
    ran: &[Task],
) -> Result<Vec<NewOffer>, OutOfMemory>
    requires ran { All IsEncodableTask ran.now }
    requires rows { All IsStorable built.now.rows.items }
    ensures new { IfOk result (λ found. All IsNew found.items) }
    ensures told { IfOk result (λ found. map as_told found.items ≡ news_in funcs.now built.now.rows.items (contents_in built.now.files.items) ran.now) }
{
    let lookup = Lookup {
        alloc,
        ran: bytes_of(alloc, ran)?,
        digests: digests_of(alloc, funcs)?,
        files: built.files.as_slice(),
        places: places_of(alloc, built.files.as_slice())?,
    };
    lookup.all_of(built.rows.as_slice())
}

impl<'b> Lookup<'b> {
    // The same of these records.
    fn all_of(&self, rows: &[TaskRecord]) -> Result<Vec<NewOffer>, OutOfMemory>
        requires { All IsStorable rows.now }
        ensures new { IfOk result (λ found. All IsNew found.items) }
        ensures told { IfOk result (λ found. map as_told found.items ≡ filter_map (told_by self.now) rows.now) }
    {
        let mut found = Vec::new(self.alloc);
        for row in rows {
            self.add(row, &mut found)?;
        }
        Ok(found)
    }

    // Adds the record of a task, if it ran.
    fn add(&self, row: &TaskRecord, found: &mut Vec<NewOffer>) -> Result<(), OutOfMemory>
        requires row { IsStorable row.now }
        requires found { All IsNew found.old.items }
        ensures new { OnOk result (All IsNew found.new.items) }
        ensures told { OnOk result (map as_told found.new.items ≡ map as_told found.old.items ++ option_to_list (told_by self.now row.now)) }
    {
        let bytes = encode_task(self.alloc, &row.task)?;
        if !self.ran.contains(&bytes) {
            return Ok(());
        }
        match self.new_of(row)? {
            Some(new) => {
                found.push(Box::into_inner(new))?;
                Ok(())
            }
            None => Ok(()),
        }
    }

    // The record of a task that ran, with what it wrote. There is none where a function has no digest or a content isn't the one that was recorded,
    // neither of which happens.
    fn new_of(&self, row: &TaskRecord) -> Result<Option<Box<NewOffer>>, OutOfMemory>
        requires { IsStorable row.now }
        ensures new { IfOk result (λ found. IfSome found (λ n. IsNew n.value)) }
        ensures told { IfOk result (λ found. option_map (λ n. as_told n.value) found
            ≡ told_with row.now (get_by_text self.now.digests row.now.task.func) (contents_of (bytes_by self.now.files.now self.now.places) row.now.writes)) }
    {
        let Some(digest) = self.digests.get(row.task.func.as_str()) else {
            return Ok(None);
        };
        let Some(contents) = self.contents_of(row.writes.as_slice())? else {
            return Ok(None);
        };
        let row = row.copy(self.alloc)?;
        let new = NewOffer {
            digest: *digest,
            offer: Offer { row, contents },
        };
        let new = Box::new(self.alloc, new)?;
        Ok(Some(new))
    }

    // The contents of these writes, if each is there.
    #[tactic(auto, using(crate::proofs::Contents::first_none, crate::proofs::Contents::first_more, crate::proofs::Contents::first_all))]
    fn contents_of(&self, writes: &[(Path, [u8; 32])]) -> Result<Option<Vec<Vec<u8>>>, OutOfMemory>
        ensures are { IfOk result (λ found. IfSome found (λ cs. AreContents writes.now (map (λ c. c.items) cs.items))) }
        ensures told { IfOk result (λ found. option_map (λ cs. map (λ c. c.items) cs.items) found
            ≡ contents_of (bytes_by self.now.files.now self.now.places) writes.now) }
    {
        let mut contents = Vec::new(self.alloc);
        for (path, hash) in writes {
            match self.content_of(path, hash)? {
                Some(content) => contents.push(content)?,
                None => return Ok(None),
            }
        }
        Ok(Some(contents))
    }

    // The content of a file, if it has this hash.
    fn content_of(&self, path: &Path, hash: &[u8; 32]) -> Result<Option<Vec<u8>>, OutOfMemory>
        ensures is { IfOk result (λ found. IfSome found (λ c. (sha256 c.items ≡ hash.now) × (length c.items < 2 ^ 32))) }
        ensures told { IfOk result (λ found. option_map (λ c. c.items) found
            ≡ option_and_then (with_hash hash.now) (bytes_by self.now.files.now self.now.places path.now)) }
    {
        match self.file_at(path) {
            Some(content) => {
                if hash_of(content) != *hash || content.len() > u32::MAX as usize {
                    return Ok(None);
                }
                let content = content.to_vec(self.alloc)?;
                Ok(Some(content))
            }
            None => Ok(None),
        }
    }

    // The content at a path.
    fn file_at(&self, path: &Path) -> Option<&[u8]>
        ensures { option_copied result ≡ bytes_by self.now.files.now self.now.places path.now }
    {
        let place = self.places.get(path)?;
        let file = self.files.get(*place)?;
        Some(file.1.as_slice())
    }
}

// Where each file stands: of those at one path, the last.
fn places_of(alloc: Global, files: &[(Path, Vec<u8>)]) -> Result<BTreeMap<Path, usize>, OutOfMemory>
    ensures { IfOk result (λ places. (q : List ℕ) → bytes_by files.now places q ≡ bytes_in (contents_in files.now) q) }
{
    let mut places = BTreeMap::new(alloc);
    for i in 0..files.len() {
        put_place(&mut places, &files[i].0, i)?;
    }
    Ok(places)
}

fn put_place(
    places: &mut BTreeMap<Path, usize>,
    path: &Path,
    place: usize,
) -> Result<(), OutOfMemory>
    ensures { OnOk result ((q : List ℕ) → get (slice_cmp nat_cmp) places.new q ≡ cond (is_at path.now q) (Some place) (get (slice_cmp nat_cmp) places.old q)) }
{
    let _old = places.insert(path.copy()?, place)?;
    Ok(())
}

// The canonical bytes of tasks.
fn bytes_of(alloc: Global, tasks: &[Task]) -> Result<BTreeSet<Vec<u8>>, OutOfMemory>
    requires { All IsEncodableTask tasks.now }
    ensures { IfOk result (λ found. keys_in found.keys ≡ in_order (map enc_task tasks.now)) }
{
    let mut found = BTreeSet::new(alloc);
    for task in tasks {
        put_bytes(alloc, &mut found, task)?;
    }
    Ok(found)
}

fn put_bytes(alloc: Global, found: &mut BTreeSet<Vec<u8>>, task: &Task) -> Result<(), OutOfMemory>
    requires { IsEncodableTask task.now }
    ensures { OnOk result (keys_in found.new.keys ≡ insert_key byte_order (keys_in found.old.keys) (enc_task task.now)) }
{
    let bytes = encode_task(alloc, task)?;
    let _new = found.insert(bytes)?;
    Ok(())
}
