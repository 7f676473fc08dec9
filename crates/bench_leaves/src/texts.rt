//! The text of a store of tasks `f(0)`, `f(1)` and so on. The table gives `f` a digest of no meaning.

use crate::job::Shape;
use pie_base::OutOfMemory;
use sha2::{Digest, Sha256};
use std::alloc::Global;

/// Three observations of a task without requires: one each of kinds 1, 2 and 5.
const LOOKS: &[u8] = b"\x00\x00\x00\x03\x01\x00\x00\x00\x05src/a\x01\x02\x00\x00\x00\x05src/b\x00\
    \x05\x00\x00\x00\x03src\x0201234567890123456789012345678901";

pub(crate) fn store_text(alloc: Global, shape: Shape, count: u32) -> Result<Vec<u8>, OutOfMemory> {
    let mut out = Vec::new(alloc);
    put(
        &mut out,
        b"PIES\x02\x00\x00\x00\x01\x00\x00\x00\x01f01234567890123456789012345678901",
    )?;
    put_roots(&mut out, count)?;
    put_number(&mut out, count)?;
    for i in 0..count {
        put_record(&mut out, shape, i, count)?;
    }
    seal(&mut out)?;
    Ok(out)
}

// The last task is the root, if there is one.
fn put_roots(out: &mut Vec<u8>, count: u32) -> Result<(), OutOfMemory> {
    if count == 0 {
        return put_number(out, 0);
    }
    put_number(out, 1)?;
    put_task(out, count - 1)
}

fn put_record(out: &mut Vec<u8>, shape: Shape, i: u32, count: u32) -> Result<(), OutOfMemory> {
    put_task(out, i)?;
    match shape {
        Shape::Chain => put_requires(out, i.saturating_sub(1), i)?,
        Shape::Fan if i.saturating_add(1) == count => put_requires(out, 0, i)?,
        Shape::Fan => put(out, LOOKS)?,
    }
    put(out, b"\x00\x00\x00\x00\x00")
}

// Each of these tasks was run.
fn put_requires(out: &mut Vec<u8>, from: u32, to: u32) -> Result<(), OutOfMemory> {
    put_number(out, to.saturating_sub(from))?;
    for i in from..to {
        put(out, b"\x08")?;
        put_task(out, i)?;
        put(out, b"\x05")?;
    }
    Ok(())
}

fn put_task(out: &mut Vec<u8>, i: u32) -> Result<(), OutOfMemory> {
    put(
        out,
        b"\x00\x00\x00\x01f\x00\x00\x00\x01\x02\x00\x00\x00\x00",
    )?;
    put_number(out, i)
}

fn put_number(out: &mut Vec<u8>, n: u32) -> Result<(), OutOfMemory> {
    put(out, &n.to_be_bytes())
}

fn put(out: &mut Vec<u8>, bytes: &[u8]) -> Result<(), OutOfMemory> {
    out.extend_from_slice(bytes)?;
    Ok(())
}

fn seal(out: &mut Vec<u8>) -> Result<(), OutOfMemory> {
    let mut hasher = Sha256::new();
    hasher.update(out.as_slice());
    let digest = hasher.finalize();
    put(out, digest.as_slice())
}
