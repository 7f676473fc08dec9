//! What a build begins from.
ghost use Rattle.std.specs.Prelude.{◌≡◌, IfOk};
ghost use Rattle.pie_store.specs.Texts.{IsStoreText};
ghost use Rattle.pie_why.specs.Starts.{HasRecords, IsWhole};

use pie_base::{MAX_PENDING_BYTES, OutOfMemory, Path};
use pie_files::{Files, FilesError, Within};
use pie_store::{Cause, StoreFault, StoreImage, decode_store, read_pending};
use std::alloc::Global;

/// What a build begins from.
#[derive(Drop)]
pub enum Start {
    /// It starts afresh, for this cause.
    Afresh(Cause),
    /// It begins from what the build before left.
    From(Box<Left>),
}

/// What the build before left.
#[derive(Drop)]
pub struct Left {
    /// What the store says.
    pub image: StoreImage,
    /// The pending names; none where there is no file of them.
    pub names: Vec<Path>,
}

/// What a build of this directory begins from: the first cause to start afresh that holds of `.pie/open`, `.pie/store` and `.pie/pending`, in this order, or else what
/// these say. Rule: docs/BUILDING.md, "Starting afresh".
pub fn find_start<F: Files>(alloc: Global, files: &mut F) -> Result<Start, FilesError>
    ensures whole { IfOk result IsWhole }
    ensures same { F.holds files.new ≡ F.holds files.old }
{
    let marker = Path::known(alloc, ".pie/open")?;
    if files.exists(&marker)? {
        return Ok(Start::Afresh(Cause::Interrupted));
    }
    let place = Path::known(alloc, ".pie/store")?;
    match files.read(&place)? {
        Some(found) => with_store(alloc, files, found.bytes.as_slice()),
        None => Ok(Start::Afresh(Cause::NoStore)),
    }
}

// What a build begins from where these are the bytes of the store, and no marker stands.
fn with_store<F: Files>(alloc: Global, files: &mut F, store: &[u8]) -> Result<Start, FilesError>
    ensures whole { IfOk result IsWhole }
    ensures same { F.holds files.new ≡ F.holds files.old }
{
    match decode_store(alloc, store) {
        Ok(image) => {
            let image = Box::new(alloc, image)?;
            with_image(alloc, files, store, image)
        }
        Err(StoreFault::OutOfMemory) => Err(FilesError::OutOfMemory),
        Err(fault) => Ok(Start::Afresh(Cause::Damaged(fault))),
    }
}

// What a build begins from where the store says this.
fn with_image<F: Files>(
    alloc: Global,
    files: &mut F,
    store: &[u8],
    image: Box<StoreImage>,
) -> Result<Start, FilesError>
    requires says { IsStoreText image.value store.now }
    ensures whole { IfOk result IsWhole }
    ensures same { F.holds files.new ≡ F.holds files.old }
{
    let place = Path::known(alloc, ".pie/pending")?;
    match files.read_within(&place, MAX_PENDING_BYTES)? {
        Within::Absent => {
            let start = from(alloc, image, Vec::new(alloc))?;
            Ok(start)
        }
        Within::Long => Ok(Start::Afresh(Cause::BadPending)),
        Within::Whole(found) => {
            let start = with_pending(alloc, image, found.bytes.as_slice())?;
            Ok(start)
        }
    }
}

// The same where these are the bytes of the pending names.
fn with_pending(alloc: Global, image: Box<StoreImage>, pending: &[u8]) -> Result<Start, OutOfMemory>
    requires records { HasRecords image.value.rows }
    ensures whole { IfOk result IsWhole }
{
    match read_pending(alloc, pending)? {
        Some(names) => from(alloc, image, names),
        None => Ok(Start::Afresh(Cause::BadPending)),
    }
}

fn from(alloc: Global, image: Box<StoreImage>, names: Vec<Path>) -> Result<Start, OutOfMemory>
    requires records { HasRecords image.value.rows }
    ensures whole { IfOk result IsWhole }
{
    let image = Box::into_inner(image);
    let left = Box::new(alloc, Left { image, names })?;
    Ok(Start::From(left))
}
