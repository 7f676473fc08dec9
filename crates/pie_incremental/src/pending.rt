//! What becomes of the pending names.
ghost use Rattle.std.specs.Prelude.{◌≡◌, IfOk};
ghost use Rattle.std.specs.Option.{option_copied};
ghost use Rattle.pie_incremental.specs.Names.{kept_names, kept_text as specs_kept_text};
ghost use Rattle.pie_incremental.specs.inner.Changes.{bytes_of, Changes};

use pie_base::{MAX_PENDING_BYTES, OutOfMemory, Path};
use pie_commit::Pending;
use pie_store::pending_text;
use std::alloc::Global;

/// What a refused build makes of the file of pending names, which has these bytes: it keeps the names. Where there are no names there is no
/// file, and where their text is too long the file is made empty, so that the next build starts afresh.
pub fn pending_part(
    alloc: Global,
    names: &[Path],
    before: Option<&[u8]>,
) -> Result<Pending, OutOfMemory>
    ensures { IfOk result (Changes (option_copied before.entry) (kept_names names.now)) }
{
    let wanted = wanted_bytes(alloc, names)?;
    Ok(change_to(before, wanted))
}

/// What is done with the file of pending names, so that it has the bytes that are wanted, or isn't there.
pub(crate) fn change_to(before: Option<&[u8]>, wanted: Option<Vec<u8>>) -> Pending
    ensures { Changes (option_copied before.entry) (bytes_of wanted) result }
{
    match (before, wanted) {
        (None, None) => Pending::Keep,
        (Some(_), None) => Pending::Drop,
        (None, Some(bytes)) => Pending::Put(bytes),
        (Some(old), Some(bytes)) => {
            if old == bytes.as_slice() {
                Pending::Keep
            } else {
                Pending::Put(bytes)
            }
        }
    }
}

// The bytes of the file of pending names with these names.
fn wanted_bytes(alloc: Global, names: &[Path]) -> Result<Option<Vec<u8>>, OutOfMemory>
    ensures { IfOk result (λ wanted. bytes_of wanted ≡ kept_names names.now) }
{
    if names.is_empty() {
        return Ok(None);
    }
    let text = pending_text(alloc, names)?;
    Ok(Some(kept_text(alloc, text)))
}

fn kept_text(alloc: Global, text: Vec<u8>) -> Vec<u8>
    ensures { result.items ≡ specs_kept_text text.items }
{
    if text.len() > MAX_PENDING_BYTES {
        return Vec::new(alloc);
    }
    text
}
