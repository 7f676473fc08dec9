//! The digests of functions that a store of version 1 stands for.
ghost use Rattle.std.specs.Prelude.{◌≡◌, IfOk};

use pie_base::{OutOfMemory, Path, Text};
use pie_files::{Files, FilesError};
use pie_store::{Funcs, StoreImage};
use std::alloc::Global;

/// Gives a store of version 1 the present digests, where it is of the pipeline that is there; another one stays as it is.
pub(crate) fn put_digests<F: Files>(
    alloc: Global,
    files: &mut F,
    image: &mut StoreImage,
    digests: &[(Text, [u8; 32])],
) -> Result<(), FilesError>
    ensures rows { image.new.rows ≡ image.old.rows }
    ensures same { F.holds files.new ≡ F.holds files.old }
{
    let Some(hash) = image.pipeline else {
        return Ok(());
    };
    if !is_there(alloc, files, hash)? {
        return Ok(());
    }
    let copied = copies(alloc, digests)?;
    image.funcs = Funcs::new(copied);
    Ok(())
}

// Whether the pipeline that is there has this SHA-256.
fn is_there<F: Files>(alloc: Global, files: &mut F, hash: [u8; 32]) -> Result<bool, FilesError>
    ensures same { F.holds files.new ≡ F.holds files.old }
{
    let place = Path::known(alloc, "pie.pipeline")?;
    match files.digest(&place)? {
        Some(there) => Ok(there == hash),
        None => Ok(false),
    }
}

// Functions with their digests, in a list of their own.
fn copies(alloc: Global, digests: &[(Text, [u8; 32])]) -> Result<Vec<(Text, [u8; 32])>, OutOfMemory>
    ensures { IfOk result (λ copied. copied.items ≡ digests.now) }
{
    let mut copied = Vec::new(alloc);
    for (name, digest) in digests {
        copied.push((name.copy()?, *digest))?;
    }
    Ok(copied)
}
