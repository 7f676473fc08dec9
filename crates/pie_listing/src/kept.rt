//! The manifest that is kept in the directory.
ghost use Rattle.std.specs.Prelude.{◌≡◌, IfSome, IfOk};
ghost use Rattle.pie_files.specs.Reading.{ReadsOnly};
ghost use Rattle.pie_scan.specs.Texts.{IsManifest};
ghost use Rattle.pie_listing.specs.inner.Steps.{IsKept, IsRead, HasGood, IsGood};

use crate::Reason;
use pie_base::{OutOfMemory, Path};
use pie_files::{Files, FilesError};
use pie_scan::{Manifest, ManifestFault, read_manifest};
use std::alloc::Global;

// A manifest, or why there is none.
#[derive(Drop)]
pub(crate) enum Kept {
    Good(Box<Manifest>),
    Bad(Reason),
}

#[tactic(auto, using(pie_files::proofs::Reading::reads))]
pub(crate) fn find_manifest<F: Files>(alloc: Global, files: &mut F) -> Result<Kept, FilesError>
    ensures kept { IfSome (F.holds files.old) (λ d. IfOk result (λ kept. IsKept d kept)) }
    ensures good { IfOk result HasGood }
    ensures reads { ReadsOnly F.holds F.moment F.left_since F.images F.faults files.old files.new result }
{
    let path = Path::known(alloc, ".pie/manifest")?;
    match files.read(&path)? {
        Some(found) => {
            let kept = read(alloc, found.bytes.as_slice())?;
            Ok(kept)
        }
        None => Ok(Kept::Bad(Reason::NoManifest)),
    }
}

fn read(alloc: Global, bytes: &[u8]) -> Result<Kept, OutOfMemory>
    ensures read { IfOk result (λ kept. IsRead bytes.now kept) }
    ensures good { IfOk result HasGood }
{
    match read_manifest(alloc, bytes) {
        Ok(manifest) => good(alloc, manifest),
        Err(ManifestFault::OutOfMemory) => Err(OutOfMemory),
        Err(fault) => Ok(Kept::Bad(Reason::BadManifest(fault))),
    }
}

fn good(alloc: Global, manifest: Manifest) -> Result<Kept, OutOfMemory>
    ensures { IfOk result (λ kept. IsGood manifest kept) }
{
    let manifest = Box::new(alloc, manifest)?;
    Ok(Kept::Good(manifest))
}
