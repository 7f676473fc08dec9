//! Offers for tests: they don't look at the files.
ghost use Rattle.std.specs.Prelude.{◌≡◌, ◌++◌, map, All, IfOk};
ghost use Rattle.pie_store.specs.inner.Offers.{offered, IsOffer};
ghost use Rattle.pie_cache.specs.inner.Reading.{cache_says};
ghost use Rattle.pie_cache.specs.inner.Stored.{or_none};
ghost use Rattle.test_topdown.specs.Swaps.{swapped_by};

use pie_base::OutOfMemory;
use pie_cache::{CacheFault, decode_entries};
use pie_files::{Files, FilesError};
use pie_store::{Offer, Offers};
use pie_value::Task;
use std::alloc::Global;

/// Offers nothing, and counts how often it is asked.
#[derive(Drop)]
pub(crate) struct Counting {
    pub(crate) asked: u32,
}

impl Offers for Counting {
    ghost use Rattle.std.specs.Prelude.{[]};

    ghost told = { λ _ _ _ _. [] };

    ghost looks = { λ _ _ _. [] };

    fn offers<F: Files>(
        &mut self,
        alloc: Global,
        _files: &mut F,
        _task: &Task,
        _digest: &[u8; 32],
    ) -> Result<Vec<Offer>, FilesError> {
        self.asked = self.asked.saturating_add(1);
        Ok(Vec::new(alloc))
    }
}

/// Offers for each task the entries of two cache files, one after the other.
#[derive(Drop)]
pub(crate) struct Texts {
    pub(crate) first: Vec<u8>,
    pub(crate) second: Vec<u8>,
}

impl Offers for Texts {
    ghost use Rattle.std.specs.Prelude.{[], ◌++◌};
    ghost use Rattle.pie_cache.specs.inner.Reading.{cache_says};
    ghost use Rattle.pie_cache.specs.inner.Stored.{or_none};

    ghost told = { λ s _ _ _. or_none (cache_says s.first.items) ++ or_none (cache_says s.second.items) };

    ghost looks = { λ _ _ _. [] };

    fn offers<F: Files>(
        &mut self,
        alloc: Global,
        _files: &mut F,
        _task: &Task,
        _digest: &[u8; 32],
    ) -> Result<Vec<Offer>, FilesError> {
        let all = joined(alloc, self.first.as_slice(), self.second.as_slice())?;
        Ok(all)
    }
}

/// Offers for each task the entries of a cache file, each with this one content.
#[derive(Drop)]
pub(crate) struct Swapped {
    pub(crate) text: Vec<u8>,
    pub(crate) content: Vec<u8>,
}

impl Offers for Swapped {
    ghost use Rattle.std.specs.Prelude.{[], map};
    ghost use Rattle.pie_cache.specs.inner.Reading.{cache_says};
    ghost use Rattle.pie_cache.specs.inner.Stored.{or_none};
    ghost use Rattle.test_topdown.specs.Swaps.{swapped_by};

    ghost told = { λ s _ _ _. map (swapped_by s.content.items) (or_none (cache_says s.text.items)) };

    ghost looks = { λ _ _ _. [] };

    fn offers<F: Files>(
        &mut self,
        alloc: Global,
        _files: &mut F,
        _task: &Task,
        _digest: &[u8; 32],
    ) -> Result<Vec<Offer>, FilesError> {
        let swapped = with_contents(alloc, self.text.as_slice(), self.content.as_slice())?;
        Ok(swapped)
    }
}

// The entries of two cache files, one after the other.
#[tactic(auto, using(crate::proofs::Swapping::joined_offers, crate::proofs::Swapping::joined_rows))]
fn joined(alloc: Global, first: &[u8], second: &[u8]) -> Result<Vec<Offer>, OutOfMemory>
    ensures offers { IfOk result (λ os. map offered os.items ≡ or_none (cache_says first.now) ++ or_none (cache_says second.now)) }
    ensures rows { IfOk result (λ os. All IsOffer os.items) }
{
    let mut all = entries(alloc, first)?;
    let mut more = entries(alloc, second)?;
    all.append(&mut more)?;
    Ok(all)
}

// The entries of a cache file, each with this one content.
fn with_contents(alloc: Global, text: &[u8], content: &[u8]) -> Result<Vec<Offer>, OutOfMemory>
    ensures offers { IfOk result (λ os. map offered os.items ≡ map (swapped_by content.now) (or_none (cache_says text.now))) }
    ensures rows { IfOk result (λ os. All IsOffer os.items) }
{
    let entries = entries(alloc, text)?;
    let swapped = all_swapped(alloc, entries.as_slice(), content)?;
    Ok(swapped)
}

// These entries, each with this one content.
#[tactic(auto, using(crate::proofs::Swapping::swapped_all))]
fn all_swapped(alloc: Global, entries: &[Offer], content: &[u8]) -> Result<Vec<Offer>, OutOfMemory>
    requires { All IsOffer entries.now }
    ensures offers { IfOk result (λ os. map offered os.items ≡ map (swapped_by content.now) (map offered entries.now)) }
    ensures rows { IfOk result (λ os. All IsOffer os.items) }
{
    let mut swapped = Vec::new(alloc);
    for entry in entries {
        swapped.push(with_content(alloc, entry, content)?)?;
    }
    Ok(swapped)
}

// The entry with this one content.
fn with_content(alloc: Global, entry: &Offer, content: &[u8]) -> Result<Offer, OutOfMemory>
    requires { IsOffer entry.now }
    ensures offer { IfOk result (λ o. offered o ≡ swapped_by content.now (offered entry.now)) }
    ensures row { IfOk result IsOffer }
{
    let row = entry.row.copy(alloc)?;
    let content = content.to_vec(alloc)?;
    let mut contents = Vec::new(alloc);
    contents.push(content)?;
    Ok(Offer { row, contents })
}

// The entries of the text of a cache file.
#[tactic(auto, using(pie_cache::proofs::Fetching::entries_offered))]
fn entries(alloc: Global, bytes: &[u8]) -> Result<Vec<Offer>, OutOfMemory>
    ensures offers { IfOk result (λ os. map offered os.items ≡ or_none (cache_says bytes.now)) }
    ensures rows { IfOk result (λ os. All IsOffer os.items) }
{
    match decode_entries(alloc, bytes) {
        Ok(entries) => Ok(entries),
        Err(CacheFault::OutOfMemory) => Err(OutOfMemory),
        Err(_) => Ok(Vec::new(alloc)),
    }
}
