//! Reading a manifest. Rule: docs/FORMATS.md, "The manifest".
ghost use Rattle.std.specs.Prelude.{◌≡◌, ◌≤◌, length, IfOk};
ghost use Rattle.pie_scan.specs.declared.manifest.Manifest.{Manifest};
ghost use Rattle.pie_scan.specs.declared.manifest_fault.ManifestFault.{ManifestFault};
ghost use Rattle.pie_scan.specs.Texts.{IsManifestText};
ghost use Rattle.pie_scan.specs.inner.Agreement.{AgreesWhole, Refuses};
ghost use Rattle.pie_scan.specs.inner.Faults.{HasFault, RefusesWith, TellsFault};
ghost use Rattle.pie_scan.specs.Reading.{manifest_says, body_says, contents as specs_contents, after_store as specs_after_store, after_tops as specs_after_tops};

use crate::frame::body_of;
use crate::reading::{entries, hash, tops};
use crate::{Entries, Manifest, ManifestFault, Tops};
use pie_record::Reader;
use std::alloc::Global;

/// What a manifest says.
pub fn read_manifest(alloc: Global, bytes: &[u8]) -> Result<Manifest, ManifestFault>
    ensures answer { AgreesWhole result (manifest_says bytes.now) }
    ensures text { IfOk result (λ m. IsManifestText m bytes.now) }
    ensures only { IfOk result (λ m. (n : Manifest) → IsManifestText n bytes.now → n ≡ m) }
    ensures refused { Refuses result → (n : Manifest) → ¬ (IsManifestText n bytes.now) }
    ensures fault { TellsFault result bytes.now }
    ensures first { (e : ManifestFault) → HasFault bytes.now e → RefusesWith result e }
{
    said(alloc, bytes)
}

fn said(alloc: Global, bytes: &[u8]) -> Result<Manifest, ManifestFault>
    ensures { AgreesWhole result (manifest_says bytes.now) }
{
    let body = body_of(bytes)?;
    body_said(alloc, body)
}

fn body_said(alloc: Global, body: &[u8]) -> Result<Manifest, ManifestFault>
    requires { 5 ≤ length body.now }
    ensures { AgreesWhole result (body_says body.now) }
{
    let mut reader = Reader::new(&body[5..]);
    contents(body.len(), &mut reader, alloc)
}

// What stands after the version: the hash of the store, tops and entries.
fn contents(end: usize, reader: &mut Reader<'_>, alloc: Global) -> Result<Manifest, ManifestFault>
    ensures { AgreesWhole result (specs_contents end reader.old) }
{
    match hash(end, reader) {
        Ok(store) => after_store(end, reader, alloc, store),
        Err(fault) => Err(fault),
    }
}

fn after_store(
    end: usize,
    reader: &mut Reader<'_>,
    alloc: Global,
    store: [u8; 32],
) -> Result<Manifest, ManifestFault>
    ensures { AgreesWhole result (specs_after_store end store reader.old) }
{
    match tops(end, reader, alloc) {
        Ok(tops) => after_tops(end, reader, alloc, store, Tops::new(tops)),
        Err(fault) => Err(fault),
    }
}

fn after_tops(
    end: usize,
    reader: &mut Reader<'_>,
    alloc: Global,
    store: [u8; 32],
    tops: Tops,
) -> Result<Manifest, ManifestFault>
    ensures { AgreesWhole result (specs_after_tops end store tops reader.old) }
{
    let entries = match entries(end, reader, alloc) {
        Ok(entries) => Entries::new(entries),
        Err(fault) => return Err(fault),
    };
    if reader.left() > 0 {
        return Err(ManifestFault::Rest);
    }
    Ok(Manifest {
        store,
        tops,
        entries,
    })
}
