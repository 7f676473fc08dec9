//! The cause to start afresh, or what the build before left.
ghost use Rattle.std.specs.Prelude.{IfSome, IfOk};
ghost use Rattle.pie_files.specs.Reading.{ReadsOnly};
ghost use Rattle.pie_store.specs.Texts.{IsStoreText};
ghost use Rattle.pie_incremental.specs.Starts.{HasStore, IsReadable, IsWhole, StartsFrom};
ghost use Rattle.pie_named.specs.Asking.{AsksFor};
ghost use Rattle.pie_incremental.specs.inner.Asked.{IsProjectFile};
ghost use Rattle.pie_incremental.specs.inner.Bases.{IsAfterPending, IsFrom};

use crate::{Base, OwnFiles, Start};
use pie_base::{MAX_PENDING_BYTES, OutOfMemory, Path};
use pie_files::{Files, FilesError, Within};
use pie_store::{Cause, StoreFault, StoreImage, decode_store, read_pending};
use std::alloc::Global;

/// What a build of this directory begins from: the first cause to start afresh that holds of `.pie/open`, `.pie/store` and
/// `.pie/pending`, in this order, or else what these say. Rule: docs/BUILDING.md, "Starting afresh".
#[tactic(auto, using(pie_files::proofs::Reading::reads, crate::proofs::Asking::looks_not, crate::proofs::Asking::looks_own))]
pub fn find_start<F: Files>(alloc: Global, files: &mut F) -> Result<Start, FilesError>
    ensures starts { IfSome (F.holds files.old) (λ d. IfOk result (StartsFrom d)) }
    ensures whole { IfOk result IsWhole }
    ensures asks { AsksFor IsProjectFile (F.asked files.old) (F.asked files.new) }
    ensures reads { ReadsOnly F.holds F.moment F.left_since F.images F.faults files.old files.new result }
{
    let marker = Path::known(alloc, ".pie/open")?;
    if files.exists(&marker)? {
        return Ok(Start::Afresh(Cause::Interrupted));
    }
    let place = Path::known(alloc, ".pie/store")?;
    match files.read(&place)? {
        Some(found) => with_store(alloc, files, found.bytes),
        None => Ok(Start::Afresh(Cause::NoStore)),
    }
}

// What a build begins from where these are the bytes of the store, and no marker stands.
#[tactic(auto, using(pie_files::proofs::Reading::reads, crate::proofs::Asking::looks_not))]
fn with_store<F: Files>(alloc: Global, files: &mut F, store: Vec<u8>) -> Result<Start, FilesError>
    requires { IfSome (F.holds files.old) (λ d. HasStore d store.items) }
    ensures starts { IfSome (F.holds files.old) (λ d. IfOk result (StartsFrom d)) }
    ensures whole { IfOk result IsWhole }
    ensures asks { AsksFor IsProjectFile (F.asked files.old) (F.asked files.new) }
    ensures reads { ReadsOnly F.holds F.moment F.left_since F.images F.faults files.old files.new result }
{
    match decode_store(alloc, store.as_slice()) {
        Ok(image) => {
            let image = Box::new(alloc, image)?;
            with_image(alloc, files, store, image)
        }
        Err(StoreFault::OutOfMemory) => Err(FilesError::OutOfMemory),
        Err(fault) => Ok(Start::Afresh(Cause::Damaged(fault))),
    }
}

// What a build begins from where the store says this.
#[tactic(auto, using(pie_files::proofs::Reading::reads, crate::proofs::Asking::own_looks))]
fn with_image<F: Files>(
    alloc: Global,
    files: &mut F,
    store: Vec<u8>,
    image: Box<StoreImage>,
) -> Result<Start, FilesError>
    requires readable { IfSome (F.holds files.old) (λ d. IsReadable d image.value store.items) }
    requires says { IsStoreText image.value store.items }
    ensures starts { IfSome (F.holds files.old) (λ d. IfOk result (StartsFrom d)) }
    ensures whole { IfOk result IsWhole }
    ensures asks { AsksFor IsProjectFile (F.asked files.old) (F.asked files.new) }
    ensures reads { ReadsOnly F.holds F.moment F.left_since F.images F.faults files.old files.new result }
{
    let place = Path::known(alloc, ".pie/pending")?;
    match files.read_within(&place, MAX_PENDING_BYTES)? {
        Within::Absent => {
            let names = Vec::new(alloc);
            let start = from(alloc, image, names, store, None)?;
            Ok(start)
        }
        Within::Long => Ok(Start::Afresh(Cause::BadPending)),
        Within::Whole(found) => {
            let start = with_pending(alloc, image, store, found.bytes)?;
            Ok(start)
        }
    }
}

// The same where these are the bytes of the pending names.
fn with_pending(
    alloc: Global,
    image: Box<StoreImage>,
    store: Vec<u8>,
    pending: Vec<u8>,
) -> Result<Start, OutOfMemory>
    ensures { IfOk result (IsAfterPending image.value store pending) }
{
    match read_pending(alloc, pending.as_slice())? {
        Some(names) => from(alloc, image, names, store, Some(pending)),
        None => Ok(Start::Afresh(Cause::BadPending)),
    }
}

fn from(
    alloc: Global,
    image: Box<StoreImage>,
    names: Vec<Path>,
    store: Vec<u8>,
    pending: Option<Vec<u8>>,
) -> Result<Start, OutOfMemory>
    ensures { IfOk result (IsFrom image.value names store pending) }
{
    let image = Box::into_inner(image);
    let own = OwnFiles { store, pending };
    let base = Box::new(alloc, Base { image, names, own })?;
    Ok(Start::From(base))
}
