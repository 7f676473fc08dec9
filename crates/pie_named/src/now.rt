//! What observations would be stamped with now.
ghost use Rattle.std.specs.Prelude.{◌≡◌, map, None, IfOk};
ghost use Rattle.pie_value.specs.Tree.{TPath};
ghost use Rattle.pie_files.specs.Reading.{ReadsOnly};
ghost use Rattle.pie_record.specs.declared.dep.DepKind.TheVariants as kinds;
ghost use Rattle.pie_files.specs.declared.files.Call.TheVariants as calls;
ghost use Rattle.pie_named.specs.inner.Stamped.{listing_of};
ghost use Rattle.pie_named.specs.Asking.{AsksOnce};
ghost use Rattle.pie_named.specs.inner.Known.{IsNow};

use crate::stamps::FileStamp;
use pie_base::{OutOfMemory, Path};
use pie_files::{Files, FilesError};
use pie_stamp::hash_of;
use pie_value::{Items, Value, encode};
use std::alloc::Global;

/// Whether a file is there.
#[tactic(auto, using(pie_files::proofs::Reading::reads, crate::proofs::Calls::asks))]
pub(crate) fn presence_now<F: Files>(
    path: &Path,
    files: &mut F,
) -> Result<Option<FileStamp>, FilesError>
    ensures reads { ReadsOnly F.holds F.moment F.left_since F.images F.faults files.old files.new result }
    ensures asks { AsksOnce None (calls.Read path.now) (F.asked files.old) (F.asked files.new) }
    ensures now { IfOk result (IsNow (F.holds files.old) kinds.Exists path.now) }
{
    if files.exists(path)? {
        return Ok(Some(FileStamp::Present));
    }
    Ok(Some(FileStamp::Absent))
}

/// The SHA-256 of a file.
#[tactic(auto, using(pie_files::proofs::Reading::reads, crate::proofs::Calls::asks))]
pub(crate) fn hash_now<F: Files>(
    path: &Path,
    files: &mut F,
) -> Result<Option<FileStamp>, FilesError>
    ensures reads { ReadsOnly F.holds F.moment F.left_since F.images F.faults files.old files.new result }
    ensures asks { AsksOnce None (calls.Read path.now) (F.asked files.old) (F.asked files.new) }
    ensures now { IfOk result (IsNow (F.holds files.old) kinds.ReadHash path.now) }
{
    match files.digest(path)? {
        Some(hash) => Ok(Some(FileStamp::Hash(hash))),
        None => Ok(Some(FileStamp::Absent)),
    }
}

/// The mark of a file. Its bytes aren't asked for.
#[tactic(auto, using(pie_files::proofs::Reading::reads, crate::proofs::Calls::asks))]
pub(crate) fn mark_now<F: Files>(
    path: &Path,
    files: &mut F,
) -> Result<Option<FileStamp>, FilesError>
    ensures reads { ReadsOnly F.holds F.moment F.left_since F.images F.faults files.old files.new result }
    ensures asks { AsksOnce None (calls.Read path.now) (F.asked files.old) (F.asked files.new) }
    ensures now { IfOk result (IsNow (F.holds files.old) kinds.ReadMark path.now) }
{
    match files.mark(path)? {
        Some(mark) => Ok(Some(FileStamp::Mark(mark))),
        None => Ok(Some(FileStamp::Absent)),
    }
}

/// The entries of a directory, if a task can list it.
#[tactic(auto, using(pie_files::proofs::Reading::reads, crate::proofs::Calls::asks))]
pub(crate) fn listing_now<F: Files>(
    alloc: Global,
    dir: &Path,
    files: &mut F,
) -> Result<Option<FileStamp>, FilesError>
    ensures reads { ReadsOnly F.holds F.moment F.left_since F.images F.faults files.old files.new result }
    ensures asks { AsksOnce None (calls.Names dir.now) (F.asked files.old) (F.asked files.new) }
    ensures now { IfOk result (IsNow (F.holds files.old) kinds.List dir.now) }
{
    let paths = files.names(dir)?;
    let stamp = stamp_of(alloc, paths)?;
    Ok(stamp)
}

// The stamp of entries, if they are within the limits of values.
fn stamp_of(alloc: Global, paths: Vec<Path>) -> Result<Option<FileStamp>, OutOfMemory>
    ensures { IfOk result (λ s. s ≡ listing_of paths.items) }
{
    let entries = entries_of(alloc, paths)?;
    let list = Value::List(entries);
    if !list.is_small() {
        return Ok(None);
    }
    let bytes = encode(alloc, &list)?;
    Ok(Some(FileStamp::Hash(hash_of(bytes.as_slice()))))
}

// Paths as values.
fn entries_of(alloc: Global, paths: Vec<Path>) -> Result<Items, OutOfMemory>
    ensures { IfOk result (λ entries. entries ≡ map TPath paths.items) }
{
    let mut entries = Items::new();
    for path in paths {
        entries.push(alloc, Value::Path(path))?;
    }
    Ok(entries)
}
