//! Reading a store. Rule: docs/FORMATS.md, "The store".
ghost use Rattle.std.specs.Prelude.{◌≡◌, ◌≤◌, length, List, ℕ, None, Some, Ok, Err, All, IfOk, IfErr};
ghost use Rattle.pie_store.specs.declared.image.StoreImage.{StoreImage};
ghost use Rattle.pie_store.specs.Canonical.{IsStorableStore};
ghost use Rattle.pie_store.specs.Texts.{IsStoreText};
ghost use Rattle.pie_store.specs.declared.store_fault.StoreFault.{StoreFault};
ghost use Rattle.pie_store.specs.Faults.{HasFault, RefusesWith, TellsFault};
ghost use Rattle.pie_store.specs.inner.Agreement.{StoreAgrees, AgreesWhole, Refuses};
ghost use Rattle.pie_store.specs.inner.Reading.{store_says, body_says, contents_1, contents_2, tail_of, closed, first_missing};
ghost use Rattle.pie_store.specs.inner.Reading.{tasks_of as specs_tasks_of};
ghost use Rattle.pie_store.specs.Ranks.{IsStored};
ghost use Rattle.pie_store.specs.inner.Known.{known_in};

use crate::frame::body_of;
use crate::known::Known;
use crate::ranked::RankedRows;
use crate::reading::{funcs, missing, place, roots, rows, tasks_of, unread};
use crate::{Funcs, StoreFault, StoreImage};
use pie_base::Text;
use pie_record::Reader;
use pie_value::{Task, Tasks};
use std::alloc::Global;

/// What a store says. Both versions are read.
pub fn decode_store(alloc: Global, bytes: &[u8]) -> Result<StoreImage, StoreFault>
    ensures answer { AgreesWhole result (store_says bytes.now) }
    ensures text { IfOk result (λ image. IsStoreText image bytes.now) }
    ensures only { IfOk result (λ image. (s : StoreImage) → IsStoreText s bytes.now → s ≡ image) }
    ensures refused { Refuses result → (s : StoreImage) → ¬ (IsStoreText s bytes.now) }
    ensures fault { TellsFault result bytes.now }
    ensures first { (e : StoreFault) → HasFault bytes.now e → RefusesWith result e }
    ensures writable { IfOk result (λ image. image.version ≡ 2 → IsStorableStore image) }
{
    image_of(alloc, bytes)
}

fn image_of(alloc: Global, bytes: &[u8]) -> Result<StoreImage, StoreFault>
    ensures { AgreesWhole result (store_says bytes.now) }
{
    let body = body_of(bytes)?;
    body_image(alloc, body)
}

fn body_image(alloc: Global, body: &[u8]) -> Result<StoreImage, StoreFault>
    requires { 5 ≤ length body.now }
    ensures { AgreesWhole result (body_says body.now) }
{
    let mut reader = Reader::new(&body[5..]);
    if body[4] == 1 {
        image_1(alloc, body.len(), &mut reader)
    } else {
        image_2(alloc, body.len(), &mut reader)
    }
}

// What stands after version 1: the digest of the pipeline, roots and records.
fn image_1(alloc: Global, end: usize, reader: &mut Reader<'_>) -> Result<StoreImage, StoreFault>
    ensures { AgreesWhole result (contents_1 end reader.old) }
{
    let at = place(end, reader);
    let digest = match reader.hash() {
        Ok(digest) => digest,
        Err(fault) => return Err(unread(fault, at)),
    };
    let head = Head {
        version: 1,
        pipeline: Some(digest),
        funcs: Vec::new(alloc),
    };
    tail(alloc, end, reader, Known::any(), head)
}

// What stands after version 2: functions, roots and records.
fn image_2(alloc: Global, end: usize, reader: &mut Reader<'_>) -> Result<StoreImage, StoreFault>
    ensures { AgreesWhole result (contents_2 end reader.old) }
{
    let funcs = funcs(end, reader, alloc)?;
    let known = Known::of(alloc, funcs.as_slice())?;
    let head = Head {
        version: 2,
        pipeline: None,
        funcs,
    };
    tail(alloc, end, reader, known, head)
}

// What stands before the roots.
#[derive(Drop)]
struct Head {
    version: u8,
    pipeline: Option<[u8; 32]>,
    funcs: Vec<(Text, [u8; 32])>,
}

// Roots and records to the end.
fn tail(
    alloc: Global,
    end: usize,
    reader: &mut Reader<'_>,
    known: Known,
    head: Head,
) -> Result<StoreImage, StoreFault>
    ensures { AgreesWhole result (tail_of end (known_in known) head.version head.pipeline head.funcs.items reader.old) }
{
    let head = Box::new(alloc, head)?;
    let roots = roots(end, reader, alloc)?;
    let rows = rows(end, reader, alloc, &known)?;
    let tasks = tasks_at_end(alloc, &rows, roots.as_slice(), reader)?;
    let head = Box::into_inner(head);
    Ok(StoreImage {
        version: head.version,
        pipeline: head.pipeline,
        funcs: Funcs::new(head.funcs),
        roots: Tasks::new(tasks),
        rows: rows.into_rows(),
    })
}

// The tasks of the roots, where each has a record and nothing is left.
fn tasks_at_end(
    alloc: Global,
    rows: &RankedRows,
    roots: &[(Task, usize)],
    reader: &Reader<'_>,
) -> Result<Vec<Task>, StoreFault>
    requires { All (λ (r : Task × ℕ). IsStored r.0) roots.now }
    ensures tasks { IfOk result (λ tasks. tasks.items ≡ specs_tasks_of roots.now) }
    ensures whole { IfOk result (λ _. (image : StoreImage) → closed (first_missing rows.now roots.now) reader.now image ≡ Ok image) }
    ensures fault { IfErr result (λ e. (image : StoreImage) → AgreesWhole (Err e) (closed (first_missing rows.now roots.now) reader.now image)) }
{
    if let Some(at) = missing(alloc, rows, roots)? {
        return Err(StoreFault::Order(at));
    }
    if reader.left() > 0 {
        return Err(StoreFault::Rest);
    }
    let tasks = tasks_of(alloc, roots)?;
    Ok(tasks)
}
