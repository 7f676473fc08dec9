//! The digests of functions that a store of version 1 stands for.
ghost use Rattle.std.specs.Prelude.{◌≡◌, codes, IfSome, IfOk, OnOk};
ghost use Rattle.pie_files.specs.Reading.{ReadsOnly};
ghost use Rattle.pie_diff.specs.Hashes.{hash_in, is_hash};
ghost use Rattle.pie_named.specs.Asking.{AsksFor};
ghost use Rattle.pie_incremental.specs.inner.Asked.{IsProjectFile};
ghost use Rattle.pie_incremental.specs.inner.Digested.{digested};

use pie_base::{OutOfMemory, Path, Text};
use pie_files::{Files, FilesError};
use pie_store::{Funcs, StoreImage};
use std::alloc::Global;

/// Gives a store of version 1 the present digests, where it is of the pipeline that is there; another one stays as it is.
#[tactic(auto, using(pie_files::proofs::Reading::reads, crate::proofs::Asking::own_looks))]
pub fn put_digests<F: Files>(
    alloc: Global,
    files: &mut F,
    image: &mut StoreImage,
    digests: &[(Text, [u8; 32])],
) -> Result<(), FilesError>
    ensures rows { image.new.rows ≡ image.old.rows }
    ensures put { IfSome (F.holds files.old) (λ d. OnOk result (image.new ≡ digested d digests.now image.old)) }
    ensures asks { AsksFor IsProjectFile (F.asked files.old) (F.asked files.new) }
    ensures reads { ReadsOnly F.holds F.moment F.left_since F.images F.faults files.old files.new result }
{
    let Some(hash) = image.pipeline else {
        return Ok(());
    };
    if !is_there(alloc, files, hash)? {
        return Ok(());
    }
    let copied = copies(alloc, digests)?;
    image.funcs = Funcs::new(copied);
    Ok(())
}

// Whether the pipeline that is there has this SHA-256.
#[tactic(auto, using(pie_files::proofs::Reading::reads, crate::proofs::Asking::own_looks))]
fn is_there<F: Files>(alloc: Global, files: &mut F, hash: [u8; 32]) -> Result<bool, FilesError>
    ensures there { IfSome (F.holds files.old) (λ d. IfOk result (λ there. there ≡ is_hash (hash_in d (codes "pie.pipeline")) hash)) }
    ensures asks { AsksFor IsProjectFile (F.asked files.old) (F.asked files.new) }
    ensures reads { ReadsOnly F.holds F.moment F.left_since F.images F.faults files.old files.new result }
{
    let place = Path::known(alloc, "pie.pipeline")?;
    match files.digest(&place)? {
        Some(there) => Ok(there == hash),
        None => Ok(false),
    }
}

/// Functions with their digests, in a list of their own.
pub(crate) fn copies(
    alloc: Global,
    digests: &[(Text, [u8; 32])],
) -> Result<Vec<(Text, [u8; 32])>, OutOfMemory>
    ensures { IfOk result (λ copied. copied.items ≡ digests.now) }
{
    let mut copied = Vec::new(alloc);
    for (name, digest) in digests {
        copied.push((name.copy()?, *digest))?;
    }
    Ok(copied)
}
