//! One measurement: the part is run once, and the count shows that it ran.
ghost use Rattle.std.specs.Prelude.{◌≤◌};

use crate::graphs::{height_count, inserted_count, live_count};
use crate::job::{Shape, Subject};
use crate::texts::store_text;
use pie_base::MAX_TASKS;
use pie_store::{StoreFault, decode_store, encode_store};
use std::alloc::Global;

pub(crate) fn count_of(
    alloc: Global,
    subject: Subject,
    shape: Shape,
    count: u32,
) -> Result<usize, StoreFault>
    requires { count ≤ MAX_TASKS }
{
    match subject {
        Subject::Text => Ok(store_text(alloc, shape, count)?.len()),
        Subject::Decode => decoded(alloc, shape, count),
        Subject::Encode => encoded(alloc, shape, count),
        Subject::Heights => Ok(height_count(alloc, shape, count)?),
        Subject::Live => Ok(live_count(alloc, shape, count)?),
        Subject::Along => Ok(inserted_count(alloc, count, true)?),
        Subject::Against => Ok(inserted_count(alloc, count, false)?),
    }
}

// How many records were read.
fn decoded(alloc: Global, shape: Shape, count: u32) -> Result<usize, StoreFault> {
    let text = store_text(alloc, shape, count)?;
    let image = decode_store(alloc, text.as_slice())?;
    Ok(image.rows.as_slice().len())
}

// How many bytes were written.
fn encoded(alloc: Global, shape: Shape, count: u32) -> Result<usize, StoreFault> {
    let text = store_text(alloc, shape, count)?;
    let image = decode_store(alloc, text.as_slice())?;
    if image.version != 2 {
        return Err(StoreFault::Version);
    }
    let again = encode_store(alloc, &image)?;
    Ok(again.len())
}
