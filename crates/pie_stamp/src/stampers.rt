//! The kinds of stampers.
ghost use Rattle.std.specs.Prelude.{◌≡◌, ℕ, List, IfOk};
ghost use Rattle.sha2.specs.Sha256.{sha256};
ghost use Rattle.pie_value.specs.Values.{tree_of};
ghost use Rattle.pie_value.specs.Canonical.{IsCanonical, IsEncodable};
ghost use Rattle.pie_stamp.specs.Observations.{IsFile, IsOutput, IsEncodableSight, Separate, SeparateByMark, presence_by, told_by, success_by};
ghost use Rattle.pie_stamp.specs.Stamps.{StampsPresence, StampsHash, StampsMark, StampsWhole, StampsDone};
ghost use Rattle.pie_stamp.specs.Faithful.{presence_is_faithful, hash_is_faithful, mark_is_faithful, whole_is_faithful, done_is_faithful};

use crate::{Observed, Stamper, hash_of};
use pie_base::OutOfMemory;
use pie_value::{Stamp, Value, encode};
use std::alloc::Global;

/// Whether a file is there.
#[derive(Clone, Copy)]
pub struct ByPresence;

/// The SHA-256 of a file's bytes, or of the canonical bytes of entries or of an output.
#[derive(Clone, Copy)]
pub struct ByHash;

/// The mark of a file.
#[derive(Clone, Copy)]
pub struct ByMark;

/// The whole output of a task.
#[derive(Clone, Copy)]
pub struct ByWhole;

/// That a task was done.
#[derive(Clone, Copy)]
pub struct ByDone;

impl Stamper for ByPresence {
    ghost takes = { IsFile };

    ghost stamps = { StampsPresence };

    ghost answer = { presence_by };

    ghost separate = { Separate };

    ghost faithful = { presence_is_faithful };

    fn stamp(&self, _alloc: Global, seen: &Observed) -> Result<Stamp, OutOfMemory> {
        match seen {
            Observed::File(Some(_)) => Ok(Stamp::Present),
            _ => Ok(Stamp::Absent),
        }
    }
}

impl Stamper for ByHash {
    ghost takes = { IsEncodableSight };

    ghost stamps = { StampsHash };

    ghost answer = { told_by };

    ghost separate = { Separate };

    ghost faithful = { hash_is_faithful };

    fn stamp(&self, alloc: Global, seen: &Observed) -> Result<Stamp, OutOfMemory> {
        match seen {
            Observed::File(None) => Ok(Stamp::Absent),
            Observed::File(Some(found)) => Ok(Stamp::Hash(hash_of(found.bytes.as_slice()))),
            Observed::Entries(entries) => {
                let list = Value::List(entries.copy()?);
                hash_of_value(alloc, &list)
            }
            Observed::Output(output) => hash_of_value(alloc, output),
        }
    }
}

impl Stamper for ByMark {
    ghost takes = { IsFile };

    ghost stamps = { StampsMark };

    ghost answer = { told_by };

    ghost separate = { SeparateByMark };

    ghost faithful = { mark_is_faithful };

    fn stamp(&self, _alloc: Global, seen: &Observed) -> Result<Stamp, OutOfMemory> {
        match seen {
            Observed::File(Some(found)) => Ok(Stamp::Mark(found.mark)),
            _ => Ok(Stamp::Absent),
        }
    }
}

impl Stamper for ByWhole {
    ghost takes = { IsOutput };

    ghost stamps = { StampsWhole };

    ghost answer = { told_by };

    ghost separate = { Separate };

    ghost faithful = { whole_is_faithful };

    fn stamp(&self, _alloc: Global, seen: &Observed) -> Result<Stamp, OutOfMemory> {
        match seen {
            Observed::Output(output) => Ok(Stamp::Whole(output.copy()?)),
            _ => Ok(Stamp::Absent),
        }
    }
}

impl Stamper for ByDone {
    ghost takes = { IsOutput };

    ghost stamps = { StampsDone };

    ghost answer = { success_by };

    ghost separate = { Separate };

    ghost faithful = { done_is_faithful };

    fn stamp(&self, _alloc: Global, _seen: &Observed) -> Result<Stamp, OutOfMemory> {
        Ok(Stamp::Done)
    }
}

// The hash of a value's canonical bytes.
fn hash_of_value(alloc: Global, value: &Value) -> Result<Stamp, OutOfMemory>
    requires { IsEncodable (tree_of value.now) }
    ensures { IfOk result (λ stamp. (bytes : List ℕ) × IsCanonical (tree_of value.now) bytes × (stamp ≡ Stamp.Hash (sha256 bytes))) }
{
    let bytes = encode(alloc, value)?;
    Ok(Stamp::Hash(hash_of(bytes.as_slice())))
}
