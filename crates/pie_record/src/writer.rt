//! Writing the canonical bytes of records. Rule: docs/FORMATS.md, "Records".
ghost use Rattle.std.specs.Prelude.{◌≡◌, ◌<◌, ◌^◌, ◌∷◌, [], ◌++◌, length, List, ℕ, Ok, All, IfOk, OnOk};
ghost use Rattle.pie_value.specs.Values.{tree_of};
ghost use Rattle.pie_value.specs.Canonical.{be32, counted, enc, enc_task, IsEncodable, IsEncodableTask, HasTrueLeaves};
ghost use Rattle.pie_record.specs.Canonical.{be64, enc_on, contents, enc_stamp, enc_dep, enc_write, listed, enc_outcome, enc_record};
ghost use Rattle.pie_record.specs.Canonical.{IsStorableOn, IsStorableStamp, IsStorableDep, IsStorableWrite, IsStorableOutcome, IsStorable};
ghost use Rattle.pie_record.specs.Canonical.{IsTrueTask, IsTrueOn, IsTrueStamp, IsTrueDep, IsTrueWrite, IsTrueOutcome, IsTrueRecord, IsCanonicalRecord};
ghost use Rattle.pie_record.specs.Kinds.{kind_byte, tag_byte, tag_of};
ghost use Rattle.pie_record.specs.Reading.{record_at};
ghost use Rattle.std.specs.List.{flat_map};

use crate::tag::{byte_of_kind, byte_of_stamp};
use crate::{Dep, DepOn, Outcome, TaskRecord};
use pie_base::{OutOfMemory, Path};
use pie_value::{Stamp, put_task, put_value};
use std::alloc::Global;

/// The canonical bytes of a record.
#[tactic(auto, using(crate::proofs::RecordCodec::canonical_again))]
pub fn encode_record(alloc: Global, rec: &TaskRecord) -> Result<Vec<u8>, OutOfMemory>
    requires { IsStorable rec.now }
    ensures bytes { IfOk result (λ bytes. bytes.items ≡ enc_record rec.now) }
    ensures canonical { IfOk result (λ bytes. IsCanonicalRecord rec.now bytes.items) }
    ensures read_back { IfOk result (λ bytes. (rest : List ℕ) → record_at (bytes.items ++ rest) ≡ Ok (rec.now, rest)) }
{
    let mut out = Vec::new(alloc);
    put_record(&mut out, rec)?;
    Ok(out)
}

/// Appends the canonical bytes of a record. After an error it isn't said what was appended.
pub fn put_record(out: &mut Vec<u8>, rec: &TaskRecord) -> Result<(), OutOfMemory>
    requires { IsStorable rec.now }
    ensures written { OnOk result (out.new.items ≡ out.old.items ++ enc_record rec.now) }
    ensures parts { OnOk result (IsTrueRecord rec.now) }
{
    put_task(out, &rec.task)?;
    put_deps(out, rec.deps.as_slice())?;
    put_writes(out, rec.writes.as_slice())?;
    put_outcome(out, &rec.outcome)?;
    Ok(())
}

// Each of these appends to what is there.
fn put_on(out: &mut Vec<u8>, what: &DepOn) -> Result<(), OutOfMemory>
    requires { IsStorableOn what.now }
    ensures written { OnOk result (out.new.items ≡ out.old.items ++ enc_on what.now) }
    ensures parts { OnOk result (IsTrueOn what.now) }
{
    match what {
        DepOn::File(path) => put_counted(out, path.as_str().as_bytes()),
        DepOn::Called(task) => put_task(out, task),
    }
}

fn put_contents(out: &mut Vec<u8>, stamp: &Stamp) -> Result<(), OutOfMemory>
    requires { IsStorableStamp stamp.now }
    ensures written { OnOk result (out.new.items ≡ out.old.items ++ contents stamp.now) }
    ensures parts { OnOk result (IsTrueStamp stamp.now) }
{
    match stamp {
        Stamp::Absent | Stamp::Present | Stamp::Done => Ok(()),
        Stamp::Hash(hash) => put_hash(out, hash),
        Stamp::Mark(mark) => put_mark(out, *mark),
        Stamp::Whole(value) => put_value(out, value),
    }
}

fn put_stamp(out: &mut Vec<u8>, stamp: &Stamp) -> Result<(), OutOfMemory>
    requires { IsStorableStamp stamp.now }
    ensures written { OnOk result (out.new.items ≡ out.old.items ++ enc_stamp stamp.now) }
    ensures parts { OnOk result (IsTrueStamp stamp.now) }
{
    put_bytes(out, &[byte_of_stamp(stamp)])?;
    put_contents(out, stamp)
}

#[tactic(auto, unfolding(crate::specs::Canonical::enc_dep))]
fn put_dep(out: &mut Vec<u8>, dep: &Dep) -> Result<(), OutOfMemory>
    requires { IsStorableDep dep.now }
    ensures written { OnOk result (out.new.items ≡ out.old.items ++ enc_dep dep.now) }
    ensures parts { OnOk result (IsTrueDep dep.now) }
{
    put_bytes(out, &[byte_of_kind(dep.kind)])?;
    put_on(out, &dep.what)?;
    put_stamp(out, &dep.stamp)
}

fn put_deps(out: &mut Vec<u8>, deps: &[Dep]) -> Result<(), OutOfMemory>
    requires few { length deps.now < 2 ^ 32 }
    requires storable { All IsStorableDep deps.now }
    ensures written { OnOk result (out.new.items ≡ out.old.items ++ listed enc_dep deps.now) }
    ensures parts { OnOk result (All IsTrueDep deps.now) }
{
    put_len(out, deps.len())?;
    put_all_deps(out, deps)
}

#[tactic(auto, using(crate::proofs::Writing::left_more, crate::proofs::Writing::all_more, crate::proofs::Writing::all_done))]
fn put_all_deps(out: &mut Vec<u8>, deps: &[Dep]) -> Result<(), OutOfMemory>
    requires { All IsStorableDep deps.now }
    ensures written { OnOk result (out.new.items ≡ out.old.items ++ flat_map enc_dep deps.now) }
    ensures parts { OnOk result (All IsTrueDep deps.now) }
{
    for dep in deps {
        put_dep(out, dep)?;
    }
    Ok(())
}

#[tactic(auto, unfolding(crate::specs::Canonical::enc_write))]
fn put_write(out: &mut Vec<u8>, path: &Path, hash: &[u8; 32]) -> Result<(), OutOfMemory>
    ensures written { OnOk result (out.new.items ≡ out.old.items ++ enc_write (path.now, hash.now)) }
    ensures parts { OnOk result (IsTrueWrite (path.now, hash.now)) }
{
    put_counted(out, path.as_str().as_bytes())?;
    put_hash(out, hash)
}

fn put_writes(out: &mut Vec<u8>, writes: &[(Path, [u8; 32])]) -> Result<(), OutOfMemory>
    requires few { length writes.now < 2 ^ 32 }
    ensures written { OnOk result (out.new.items ≡ out.old.items ++ listed enc_write writes.now) }
    ensures parts { OnOk result (All IsTrueWrite writes.now) }
{
    put_len(out, writes.len())?;
    put_all_writes(out, writes)
}

#[tactic(auto, using(crate::proofs::Writing::left_more, crate::proofs::Writing::all_more, crate::proofs::Writing::all_done))]
fn put_all_writes(out: &mut Vec<u8>, writes: &[(Path, [u8; 32])]) -> Result<(), OutOfMemory>
    ensures written { OnOk result (out.new.items ≡ out.old.items ++ flat_map enc_write writes.now) }
    ensures parts { OnOk result (All IsTrueWrite writes.now) }
{
    for (path, hash) in writes {
        put_write(out, path, hash)?;
    }
    Ok(())
}

// An outcome that has an output.
fn put_outcome(out: &mut Vec<u8>, outcome: &Outcome) -> Result<(), OutOfMemory>
    requires { IsStorableOutcome outcome.now }
    ensures written { OnOk result (out.new.items ≡ out.old.items ++ enc_outcome outcome.now) }
    ensures parts { OnOk result (IsTrueOutcome outcome.now) }
{
    match outcome {
        Outcome::Done(value) => put_value(out, value),
        _ => Ok(()),
    }
}

fn put_hash(out: &mut Vec<u8>, hash: &[u8; 32]) -> Result<(), OutOfMemory>
    ensures written { OnOk result (out.new.items ≡ out.old.items ++ hash.now) }
    ensures parts { length hash.now ≡ 32 }
{
    put_bytes(out, hash.as_slice())
}

// Bytes behind their length.
fn put_counted(out: &mut Vec<u8>, bytes: &[u8]) -> Result<(), OutOfMemory>
    requires { length bytes.now < 2 ^ 32 }
    ensures { OnOk result (out.new.items ≡ out.old.items ++ counted bytes.now) }
{
    put_len(out, bytes.len())?;
    put_bytes(out, bytes)
}

#[tactic(auto, unfolding(pie_value::specs::Canonical::be32))]
fn put_len(out: &mut Vec<u8>, len: usize) -> Result<(), OutOfMemory>
    requires { len < 2 ^ 32 }
    ensures { OnOk result (out.new.items ≡ out.old.items ++ be32 len) }
{
    put_bytes(out, &(len as u32).to_be_bytes())
}

#[tactic(auto, unfolding(crate::specs::Canonical::be64))]
fn put_mark(out: &mut Vec<u8>, mark: u64) -> Result<(), OutOfMemory>
    ensures { OnOk result (out.new.items ≡ out.old.items ++ be64 mark) }
{
    put_bytes(out, &mark.to_be_bytes())
}

fn put_bytes(out: &mut Vec<u8>, bytes: &[u8]) -> Result<(), OutOfMemory>
    ensures { OnOk result (out.new.items ≡ out.old.items ++ bytes.now) }
{
    out.extend_from_slice(bytes)?;
    Ok(())
}
