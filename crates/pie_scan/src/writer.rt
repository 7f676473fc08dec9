//! Writing a manifest. Rule: docs/FORMATS.md, "The manifest".
ghost use Rattle.std.specs.Prelude.{◌≡◌, ◌<◌, ◌^◌, ◌++◌, length, All, Ok, IfOk, OnOk};
ghost use Rattle.std.specs.List.{flat_map};
ghost use Rattle.pie_value.specs.Canonical.{be32, counted};
ghost use Rattle.pie_record.specs.Canonical.{be64, listed, IsTruePath};
ghost use Rattle.pie_scan.specs.Texts.{enc_entry, enc_entries, enc_body, IsWritable, IsTrueEntry, IsManifest, IsManifestText};
ghost use Rattle.pie_scan.specs.Reading.{manifest_says};

use crate::frame::MAGIC;
use crate::{Entry, Manifest};
use pie_base::{OutOfMemory, Path};
use pie_stamp::hash_of;
use std::alloc::Global;

/// The text of a manifest.
pub fn write_manifest(alloc: Global, manifest: &Manifest) -> Result<Vec<u8>, OutOfMemory>
    requires { IsWritable manifest.now }
    ensures text { IfOk result (λ bytes. IsManifestText manifest.now bytes.items) }
    ensures read_back { IfOk result (λ bytes. manifest_says bytes.items ≡ Ok manifest.now) }
{
    let mut out = Vec::new(alloc);
    put_body(&mut out, manifest)?;
    let digest = hash_of(out.as_slice());
    put_bytes(&mut out, digest.as_slice())?;
    Ok(out)
}

// Each of these appends to what is there.
fn put_body(out: &mut Vec<u8>, manifest: &Manifest) -> Result<(), OutOfMemory>
    requires { IsWritable manifest.now }
    ensures written { OnOk result (out.new.items ≡ out.old.items ++ enc_body manifest.now) }
    ensures parts { OnOk result (IsManifest manifest.now) }
{
    put_bytes(out, MAGIC.as_slice())?;
    put_bytes(out, &[1])?;
    put_hash(out, &manifest.store)?;
    put_tops(out, manifest.tops.as_slice())?;
    put_entries(out, manifest.entries.as_slice())?;
    Ok(())
}

fn put_tops(out: &mut Vec<u8>, tops: &[Path]) -> Result<(), OutOfMemory>
    requires { length tops.now < 2 ^ 32 }
    ensures written { OnOk result (out.new.items ≡ out.old.items ++ listed counted tops.now) }
    ensures parts { OnOk result (All IsTruePath tops.now) }
{
    put_len(out, tops.len())?;
    put_all_tops(out, tops)
}

fn put_all_tops(out: &mut Vec<u8>, tops: &[Path]) -> Result<(), OutOfMemory>
    ensures written { OnOk result (out.new.items ≡ out.old.items ++ flat_map counted tops.now) }
    ensures parts { OnOk result (All IsTruePath tops.now) }
{
    for top in tops {
        put_path(out, top)?;
    }
    Ok(())
}

fn put_entries(out: &mut Vec<u8>, entries: &[Entry]) -> Result<(), OutOfMemory>
    ensures written { OnOk result (out.new.items ≡ out.old.items ++ enc_entries entries.now) }
    ensures few { OnOk result (length entries.now < 2 ^ 64) }
    ensures parts { OnOk result (All IsTrueEntry entries.now) }
{
    put_number(out, entries.len() as u64)?;
    put_all_entries(out, entries)
}

fn put_all_entries(out: &mut Vec<u8>, entries: &[Entry]) -> Result<(), OutOfMemory>
    ensures written { OnOk result (out.new.items ≡ out.old.items ++ flat_map enc_entry entries.now) }
    ensures parts { OnOk result (All IsTrueEntry entries.now) }
{
    for entry in entries {
        put_entry(out, entry)?;
    }
    Ok(())
}

#[tactic(auto, unfolding(crate::specs::Texts::enc_entry))]
fn put_entry(out: &mut Vec<u8>, entry: &Entry) -> Result<(), OutOfMemory>
    ensures written { OnOk result (out.new.items ≡ out.old.items ++ enc_entry entry.now) }
    ensures parts { OnOk result (IsTrueEntry entry.now) }
{
    put_path(out, &entry.path)?;
    put_number(out, entry.mark)?;
    put_hash(out, &entry.hash)
}

fn put_path(out: &mut Vec<u8>, path: &Path) -> Result<(), OutOfMemory>
    ensures written { OnOk result (out.new.items ≡ out.old.items ++ counted path.now) }
    ensures parts { OnOk result (IsTruePath path.now) }
{
    let bytes = path.as_str().as_bytes();
    put_len(out, bytes.len())?;
    put_bytes(out, bytes)
}

fn put_hash(out: &mut Vec<u8>, hash: &[u8; 32]) -> Result<(), OutOfMemory>
    ensures written { OnOk result (out.new.items ≡ out.old.items ++ hash.now) }
    ensures parts { length hash.now ≡ 32 }
{
    put_bytes(out, hash.as_slice())
}

#[tactic(auto, unfolding(pie_value::specs::Canonical::be32))]
fn put_len(out: &mut Vec<u8>, len: usize) -> Result<(), OutOfMemory>
    requires { len < 2 ^ 32 }
    ensures { OnOk result (out.new.items ≡ out.old.items ++ be32 len) }
{
    put_bytes(out, &(len as u32).to_be_bytes())
}

#[tactic(auto, unfolding(pie_record::specs::Canonical::be64))]
fn put_number(out: &mut Vec<u8>, number: u64) -> Result<(), OutOfMemory>
    ensures { OnOk result (out.new.items ≡ out.old.items ++ be64 number) }
{
    put_bytes(out, &number.to_be_bytes())
}

fn put_bytes(out: &mut Vec<u8>, bytes: &[u8]) -> Result<(), OutOfMemory>
    ensures { OnOk result (out.new.items ≡ out.old.items ++ bytes.now) }
{
    out.extend_from_slice(bytes)?;
    Ok(())
}
