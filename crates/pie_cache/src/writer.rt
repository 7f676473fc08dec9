//! Writing a cache file. Rule: docs/FORMATS.md, "The cache".
ghost use Rattle.std.specs.Prelude.{◌≡◌, ◌<◌, ◌^◌, ◌++◌, length, map, All, Ok, IfOk, OnOk};
ghost use Rattle.std.specs.List.{flat_map};
ghost use Rattle.pie_value.specs.Canonical.{be32, counted};
ghost use Rattle.pie_record.specs.Canonical.{IsTrueRecord, IsStorable};
ghost use Rattle.pie_store.specs.inner.Offers.{offered};
ghost use Rattle.pie_cache.specs.inner.Texts.{enc_entry, enc_body, IsCount, IsKept, IsEntry, IsCacheText};
ghost use Rattle.pie_cache.specs.inner.Contents.{enc_offer, IsKeptOffer, IsTrueOffer, IsShort};
ghost use Rattle.pie_cache.specs.inner.Reading.{cache_says};

use crate::frame::MAGIC;
use pie_base::OutOfMemory;
use pie_record::put_record;
use pie_stamp::hash_of;
use pie_store::Offer;
use std::alloc::Global;

/// The text of a cache file with these entries, the newest first.
pub fn encode_entries(alloc: Global, entries: &[Offer]) -> Result<Vec<u8>, OutOfMemory>
    requires count { IsCount (length entries.now) }
    requires kept { All (λ e. IsKept (offered e)) entries.now }
    ensures text { IfOk result (λ bytes. IsCacheText (map offered entries.now) bytes.items) }
    ensures read_back { IfOk result (λ bytes. cache_says bytes.items ≡ Ok (map offered entries.now)) }
{
    let mut out = Vec::new(alloc);
    put_body(&mut out, entries)?;
    let digest = hash_of(out.as_slice());
    put_bytes(&mut out, digest.as_slice())?;
    Ok(out)
}

// Each of these appends to what is there.
fn put_body(out: &mut Vec<u8>, entries: &[Offer]) -> Result<(), OutOfMemory>
    requires count { IsCount (length entries.now) }
    requires kept { All IsKeptOffer entries.now }
    ensures written { OnOk result (out.new.items ≡ out.old.items ++ enc_body (map offered entries.now)) }
    ensures parts { OnOk result (All IsTrueOffer entries.now) }
{
    put_bytes(out, MAGIC.as_slice())?;
    put_bytes(out, &[1, entries.len() as u8])?;
    put_all(out, entries)?;
    Ok(())
}

fn put_all(out: &mut Vec<u8>, entries: &[Offer]) -> Result<(), OutOfMemory>
    requires { All IsKeptOffer entries.now }
    ensures written { OnOk result (out.new.items ≡ out.old.items ++ flat_map enc_offer entries.now) }
    ensures parts { OnOk result (All IsTrueOffer entries.now) }
{
    for entry in entries {
        put_entry(out, entry)?;
    }
    Ok(())
}

fn put_entry(out: &mut Vec<u8>, entry: &Offer) -> Result<(), OutOfMemory>
    requires { IsKeptOffer entry.now }
    ensures written { OnOk result (out.new.items ≡ out.old.items ++ enc_offer entry.now) }
    ensures parts { OnOk result (IsTrueOffer entry.now) }
{
    put_record(out, &entry.row)?;
    put_contents(out, entry.contents.as_slice())?;
    Ok(())
}

fn put_contents(out: &mut Vec<u8>, contents: &[Vec<u8>]) -> Result<(), OutOfMemory>
    requires { All IsShort contents.now }
    ensures { OnOk result (out.new.items ≡ out.old.items ++ flat_map (λ c. counted c.items) contents.now) }
{
    for content in contents {
        put_counted(out, content.as_slice())?;
    }
    Ok(())
}

// Bytes behind their length.
fn put_counted(out: &mut Vec<u8>, bytes: &[u8]) -> Result<(), OutOfMemory>
    requires { length bytes.now < 2 ^ 32 }
    ensures { OnOk result (out.new.items ≡ out.old.items ++ counted bytes.now) }
{
    put_len(out, bytes.len())?;
    put_bytes(out, bytes)
}

#[tactic(auto, unfolding(pie_value::specs::Canonical::be32))]
fn put_len(out: &mut Vec<u8>, len: usize) -> Result<(), OutOfMemory>
    requires { len < 2 ^ 32 }
    ensures { OnOk result (out.new.items ≡ out.old.items ++ be32 len) }
{
    put_bytes(out, &(len as u32).to_be_bytes())
}

fn put_bytes(out: &mut Vec<u8>, bytes: &[u8]) -> Result<(), OutOfMemory>
    ensures { OnOk result (out.new.items ≡ out.old.items ++ bytes.now) }
{
    out.extend_from_slice(bytes)?;
    Ok(())
}
