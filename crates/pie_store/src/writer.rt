//! Writing a store. Rule: docs/FORMATS.md, "The store".
ghost use Rattle.std.specs.Prelude.{◌≡◌, ◌<◌, ◌^◌, ◌++◌, length, All, Ok, IfOk, OnOk};
ghost use Rattle.std.specs.List.{flat_map};
ghost use Rattle.pie_value.specs.Canonical.{be32, counted, enc_task, IsEncodableTask};
ghost use Rattle.pie_record.specs.Canonical.{listed, enc_record, IsStorable, IsTrueRecord};
ghost use Rattle.pie_store.specs.Canonical.{enc_func, enc_body, IsStorableStore};
ghost use Rattle.pie_store.specs.Frame.{IsSealed};
ghost use Rattle.pie_store.specs.Ranks.{IsStored};
ghost use Rattle.pie_store.specs.Texts.{IsFunc, IsStore, IsStoreText};
ghost use Rattle.pie_store.specs.inner.Reading.{store_says};

use crate::StoreImage;
use crate::frame::{MAGIC, digest_of};
use pie_base::{OutOfMemory, Text};
use pie_record::{TaskRecord, put_record};
use pie_value::{Task, put_task};
use std::alloc::Global;

/// The text of a store in version 2.
pub fn encode_store(alloc: Global, image: &StoreImage) -> Result<Vec<u8>, OutOfMemory>
    requires { IsStorableStore image.now }
    ensures text { IfOk result (λ bytes. IsStoreText image.now bytes.items) }
    ensures read_back { IfOk result (λ bytes. store_says bytes.items ≡ Ok image.now) }
{
    encode_store_after(alloc, image, &[])
}

/// The same where this is the text of the store before: if the body is that of the text before, its digest is taken over from there.
pub fn encode_store_after(
    alloc: Global,
    image: &StoreImage,
    before: &[u8],
) -> Result<Vec<u8>, OutOfMemory>
    requires storable { IsStorableStore image.now }
    requires before { IsSealed before.now }
    ensures text { IfOk result (λ bytes. IsStoreText image.now bytes.items) }
    ensures read_back { IfOk result (λ bytes. store_says bytes.items ≡ Ok image.now) }
{
    let mut out = Vec::with_capacity(alloc, before.len())?;
    put_body(&mut out, image)?;
    let digest = digest_of(out.as_slice(), before);
    put_bytes(&mut out, digest.as_slice())?;
    Ok(out)
}

// Each of these appends to what is there.
fn put_body(out: &mut Vec<u8>, image: &StoreImage) -> Result<(), OutOfMemory>
    requires { IsStorableStore image.now }
    ensures written { OnOk result (out.new.items ≡ out.old.items ++ enc_body image.now) }
    ensures parts { OnOk result (IsStore image.now) }
{
    put_bytes(out, MAGIC.as_slice())?;
    put_bytes(out, &[image.version])?;
    put_funcs(out, image.funcs.as_slice())?;
    put_tasks(out, image.roots.as_slice())?;
    put_rows(out, image.rows.as_slice())?;
    Ok(())
}

fn put_funcs(out: &mut Vec<u8>, funcs: &[(Text, [u8; 32])]) -> Result<(), OutOfMemory>
    requires few { length funcs.now < 2 ^ 32 }
    requires short { All (λ f. length f.0 < 2 ^ 32) funcs.now }
    ensures written { OnOk result (out.new.items ≡ out.old.items ++ listed enc_func funcs.now) }
    ensures parts { OnOk result (All IsFunc funcs.now) }
{
    put_len(out, funcs.len())?;
    put_all_funcs(out, funcs)
}

fn put_all_funcs(out: &mut Vec<u8>, funcs: &[(Text, [u8; 32])]) -> Result<(), OutOfMemory>
    requires { All (λ f. length f.0 < 2 ^ 32) funcs.now }
    ensures written { OnOk result (out.new.items ≡ out.old.items ++ flat_map enc_func funcs.now) }
    ensures parts { OnOk result (All IsFunc funcs.now) }
{
    for (name, digest) in funcs {
        put_func(out, name, digest)?;
    }
    Ok(())
}

#[tactic(auto, unfolding(crate::specs::Canonical::enc_func))]
fn put_func(out: &mut Vec<u8>, name: &Text, digest: &[u8; 32]) -> Result<(), OutOfMemory>
    requires { length name.now < 2 ^ 32 }
    ensures written { OnOk result (out.new.items ≡ out.old.items ++ enc_func (name.now, digest.now)) }
    ensures parts { OnOk result (IsFunc (name.now, digest.now)) }
{
    let name = name.as_str().as_bytes();
    put_len(out, name.len())?;
    put_bytes(out, name)?;
    put_bytes(out, digest.as_slice())
}

fn put_tasks(out: &mut Vec<u8>, tasks: &[Task]) -> Result<(), OutOfMemory>
    requires few { length tasks.now < 2 ^ 32 }
    requires encodable { All IsEncodableTask tasks.now }
    ensures written { OnOk result (out.new.items ≡ out.old.items ++ listed enc_task tasks.now) }
    ensures parts { OnOk result (All IsStored tasks.now) }
{
    put_len(out, tasks.len())?;
    put_all_tasks(out, tasks)
}

fn put_all_tasks(out: &mut Vec<u8>, tasks: &[Task]) -> Result<(), OutOfMemory>
    requires { All IsEncodableTask tasks.now }
    ensures written { OnOk result (out.new.items ≡ out.old.items ++ flat_map enc_task tasks.now) }
    ensures parts { OnOk result (All IsStored tasks.now) }
{
    for task in tasks {
        put_stored(out, task)?;
    }
    Ok(())
}

fn put_stored(out: &mut Vec<u8>, task: &Task) -> Result<(), OutOfMemory>
    requires { IsEncodableTask task.now }
    ensures written { OnOk result (out.new.items ≡ out.old.items ++ enc_task task.now) }
    ensures parts { OnOk result (IsStored task.now) }
{
    put_task(out, task)
}

fn put_rows(out: &mut Vec<u8>, rows: &[TaskRecord]) -> Result<(), OutOfMemory>
    requires few { length rows.now < 2 ^ 32 }
    requires storable { All IsStorable rows.now }
    ensures written { OnOk result (out.new.items ≡ out.old.items ++ listed enc_record rows.now) }
    ensures parts { OnOk result (All IsTrueRecord rows.now) }
{
    put_len(out, rows.len())?;
    put_all_rows(out, rows)
}

fn put_all_rows(out: &mut Vec<u8>, rows: &[TaskRecord]) -> Result<(), OutOfMemory>
    requires { All IsStorable rows.now }
    ensures written { OnOk result (out.new.items ≡ out.old.items ++ flat_map enc_record rows.now) }
    ensures parts { OnOk result (All IsTrueRecord rows.now) }
{
    for rec in rows {
        put_record(out, rec)?;
    }
    Ok(())
}

#[tactic(auto, unfolding(pie_value::specs::Canonical::be32))]
fn put_len(out: &mut Vec<u8>, len: usize) -> Result<(), OutOfMemory>
    requires { len < 2 ^ 32 }
    ensures { OnOk result (out.new.items ≡ out.old.items ++ be32 len) }
{
    put_bytes(out, &(len as u32).to_be_bytes())
}

fn put_bytes(out: &mut Vec<u8>, bytes: &[u8]) -> Result<(), OutOfMemory>
    ensures { OnOk result (out.new.items ≡ out.old.items ++ bytes.now) }
{
    out.extend_from_slice(bytes)?;
    Ok(())
}
