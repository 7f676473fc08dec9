//! What a build without a list begins from.
ghost use Rattle.std.specs.Prelude.{IfOk, IfSome};
ghost use Rattle.pie_files.specs.Reading.{ReadsOnly};
ghost use Rattle.pie_topdown_build.specs.inner.Anew.{IsNoBase};
ghost use Rattle.pie_topdown_build.specs.inner.Bases.{IsBase, IsWhole, StartsAt, StartsBy, FailsOnly, StartsOnly};

use pie_base::{OutOfMemory, Path};
use pie_files::{Files, FilesError};
use pie_store::{Cause, Funcs, Rows, StoreFault, StoreImage, decode_store};
use pie_value::Tasks;
use std::alloc::Global;

/// What a build without a list begins from.
#[derive(Drop)]
pub(crate) enum Start {
    /// It starts afresh, for this cause.
    Afresh(Cause),
    From(Box<Base>),
}

/// What the build before left.
#[derive(Drop)]
pub(crate) struct Base {
    /// What the store says.
    pub(crate) image: StoreImage,
    /// The bytes of the store, unless there is nothing to build from.
    pub(crate) store: Option<Vec<u8>>,
}

/// The cause to start afresh, or what the build before left: a marker, no store, or a store that can't be read, in this order. Pending names aren't
/// looked at. Rule: docs/BUILDING.md, "A build without a list".
#[tactic(auto, using(pie_files::proofs::Reading::reads))]
pub(crate) fn find_base<F: Files>(alloc: Global, files: &mut F) -> Result<Start, FilesError>
    ensures starts { IfSome (F.holds files.old) (λ d. IfOk result (StartsAt d)) }
    ensures only { IfSome (F.holds files.old) (λ d. IfOk result (StartsOnly d)) }
    ensures whole { IfOk result IsWhole }
    ensures reads { ReadsOnly F.holds F.moment F.left_since F.images F.faults files.old files.new result }
{
    let marker = Path::known(alloc, ".pie/open")?;
    if files.exists(&marker)? {
        return Ok(Start::Afresh(Cause::Interrupted));
    }
    let place = Path::known(alloc, ".pie/store")?;
    match files.read(&place)? {
        Some(found) => Ok(with_store(alloc, found.bytes)?),
        None => Ok(Start::Afresh(Cause::NoStore)),
    }
}

/// The store of nothing, for a build that has nothing to build from.
#[tactic(auto, using(crate::proofs::Making::empty_base, crate::proofs::Making::no_base_is))]
pub(crate) fn no_base(alloc: Global) -> Result<Box<Base>, OutOfMemory>
    ensures base { IfOk result (λ b. IsBase b.value) }
    ensures none { IfOk result (λ b. IsNoBase b.value) }
{
    let image = StoreImage {
        version: 2,
        pipeline: None,
        funcs: Funcs::new(Vec::new(alloc)),
        roots: Tasks::new(Vec::new(alloc)),
        rows: Rows::new(Vec::new(alloc)),
    };
    let base = Box::new(alloc, Base { image, store: None })?;
    Ok(base)
}

// What a build begins from where these are the bytes of the store.
#[tactic(auto, using(crate::proofs::Making::base_of_text))]
fn with_store(alloc: Global, store: Vec<u8>) -> Result<Start, OutOfMemory>
    ensures starts { IfOk result (StartsBy store) }
    ensures only { IfOk result (FailsOnly store) }
    ensures whole { IfOk result IsWhole }
{
    match decode_store(alloc, store.as_slice()) {
        Ok(image) => {
            let store = Some(store);
            let base = Box::new(alloc, Base { image, store })?;
            Ok(Start::From(base))
        }
        Err(StoreFault::OutOfMemory) => Err(OutOfMemory),
        Err(fault) => Ok(Start::Afresh(Cause::Damaged(fault))),
    }
}
