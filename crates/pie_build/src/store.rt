//! The store of an accepted build.
ghost use Rattle.std.specs.Prelude.{IfOk};
ghost use Rattle.pie_build.specs.Stored.{MayStand, IsStoreOf};

use pie_base::{OutOfMemory, Text};
use pie_record::TaskRecord;
use pie_store::{Funcs, Rows, StoreImage, encode_store};
use pie_value::{Task, Tasks};
use std::alloc::Global;

/// The text of a store with these functions, roots and records. Where the number of roots has more than 32 bits,
/// it is out of memory. Rule: docs/FORMATS.md, "The store".
pub(crate) fn store_text(
    alloc: Global,
    funcs: Vec<(Text, [u8; 32])>,
    roots: Vec<Task>,
    rows: Vec<TaskRecord>,
) -> Result<Vec<u8>, OutOfMemory>
    requires { MayStand funcs.items roots.items rows.items }
    ensures { IfOk result (λ text. IsStoreOf funcs.items roots.items rows.items text.items) }
{
    if roots.len() > u32::MAX as usize {
        return Err(OutOfMemory);
    }
    let image = StoreImage {
        version: 2,
        pipeline: None,
        funcs: Funcs::new(funcs),
        roots: Tasks::new(roots),
        rows: Rows::new(rows),
    };
    encode_store(alloc, &image)
}
