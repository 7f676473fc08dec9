//! Reading a cache file. Rule: docs/FORMATS.md, "The cache".
ghost use Rattle.std.specs.Prelude.{◌≡◌, ◌≤◌, List, length, map, All, IfOk, []};
ghost use Rattle.pie_store.specs.inner.Offers.{Offered, offered};
ghost use Rattle.pie_cache.specs.declared.cache_fault.CacheFault.{CacheFault};
ghost use Rattle.pie_cache.specs.inner.Texts.{IsCount, IsKept, IsCacheText};
ghost use Rattle.pie_cache.specs.inner.Agreement.{AgreesWhole, Refuses};
ghost use Rattle.pie_cache.specs.inner.Faults.{HasFault, RefusesWith, TellsFault};
ghost use Rattle.pie_cache.specs.inner.Reading.{cache_says, body_says, some_at, then_closed, is_count as specs_is_count};

use crate::CacheFault;
use crate::frame::body_of;
use crate::reading::entries;
use pie_record::Reader;
use pie_store::Offer;
use std::alloc::Global;

/// The entries of a cache file, newest first.
pub fn decode_entries(alloc: Global, bytes: &[u8]) -> Result<Vec<Offer>, CacheFault>
    ensures answer { AgreesWhole result (cache_says bytes.now) }
    ensures text { IfOk result (λ es. IsCacheText (map offered es.items) bytes.now) }
    ensures only { IfOk result (λ es. (other : List Offered) → IsCacheText other bytes.now → other ≡ map offered es.items) }
    ensures refused { Refuses result → (other : List Offered) → ¬ (IsCacheText other bytes.now) }
    ensures fault { TellsFault result bytes.now }
    ensures first { (e : CacheFault) → HasFault bytes.now e → RefusesWith result e }
    ensures count { IfOk result (λ es. IsCount (length es.items)) }
    ensures kept { IfOk result (λ es. All (λ e. IsKept (offered e)) es.items) }
{
    said(alloc, bytes)
}

fn said(alloc: Global, bytes: &[u8]) -> Result<Vec<Offer>, CacheFault>
    ensures { AgreesWhole result (cache_says bytes.now) }
{
    let body = body_of(bytes)?;
    body_said(alloc, body)
}

fn body_said(alloc: Global, body: &[u8]) -> Result<Vec<Offer>, CacheFault>
    requires { 6 ≤ length body.now }
    ensures { AgreesWhole result (body_says body.now) }
{
    let count = body[5];
    if !is_count(count) {
        return Err(CacheFault::Count);
    }
    let mut reader = Reader::new(&body[6..]);
    counted(body.len(), &mut reader, alloc, count)
}

fn is_count(count: u8) -> bool
    ensures { result ≡ specs_is_count count }
{
    1 <= count && count <= 4
}

// So many entries, and nothing else.
fn counted(
    end: usize,
    reader: &mut Reader<'_>,
    alloc: Global,
    count: u8,
) -> Result<Vec<Offer>, CacheFault>
    ensures { AgreesWhole result (then_closed (some_at end count [] reader.old)) }
{
    let entries = match entries(end, reader, alloc, count) {
        Ok(entries) => entries,
        Err(fault) => return Err(fault),
    };
    if reader.left() > 0 {
        return Err(CacheFault::Rest);
    }
    Ok(entries)
}
