//! How large a store is.

use crate::largest::put_largest;
use hex::encode;
use pie_base::{OutOfMemory, Text};
use pie_record::TaskRecord;
use pie_store::StoreImage;
use std::alloc::Global;

/// The version of a store of so many bytes; how many functions, roots, tasks, observations and writes it has; its five largest records, each with its bytes and its task;
/// and its functions in their order, each with its digest in hex before its name. Rule: docs/INSPECT.md.
pub fn sizes(alloc: Global, bytes: usize, image: &StoreImage) -> Result<String, OutOfMemory> {
    let mut told = counts(alloc, bytes, image)?;
    put_largest(alloc, &mut told, image.rows.as_slice())?;
    put_functions(alloc, &mut told, image.funcs.as_slice())?;
    Ok(told)
}

fn put_functions(
    alloc: Global,
    out: &mut String,
    funcs: &[(Text, [u8; 32])],
) -> Result<(), OutOfMemory> {
    for (name, digest) in funcs {
        put_function(alloc, out, name.as_str(), digest)?;
    }
    Ok(())
}

fn put_function(
    alloc: Global,
    out: &mut String,
    name: &str,
    digest: &[u8; 32],
) -> Result<(), OutOfMemory> {
    let digits = encode(alloc, digest.as_slice())?;
    let line = format!(in alloc; "function {digits} {name}\n")?;
    out.push_str(line.as_str())?;
    Ok(())
}

fn counts(alloc: Global, bytes: usize, image: &StoreImage) -> Result<String, OutOfMemory> {
    let rows = image.rows.as_slice();
    let (observed, written) = totals(rows);
    let (version, functions) = (image.version, image.funcs.as_slice().len());
    let (roots, tasks) = (image.roots.as_slice().len(), rows.len());
    let told = format!(in alloc;
        "version {version}\nbytes {bytes}\nfunctions {functions}\nroots {roots}\ntasks {tasks}\nobservations {observed}\nwrites {written}\n"
    )?;
    Ok(told)
}

// How many observations and writes there are.
fn totals(rows: &[TaskRecord]) -> (usize, usize) {
    let mut observed: usize = 0;
    let mut written: usize = 0;
    for rec in rows {
        observed = observed.saturating_add(rec.deps.as_slice().len());
        written = written.saturating_add(rec.writes.as_slice().len());
    }
    (observed, written)
}
