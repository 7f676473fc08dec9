//! Written paths below other written paths.
ghost use Rattle.std.specs.Prelude.{◌≡◌, ◌∷◌, ◌++◌, [], if◌then◌else◌, Some, None, IfOk};
ghost use Rattle.pie_base.specs.Path.{is_below};
ghost use Rattle.pie_checks.specs.Refusals.{FindsNested};
ghost use Rattle.pie_checks.specs.Listings.{IsInOrder, IsListed};
ghost use Rattle.pie_checks.specs.Searches.{IsFirstBelow};

use crate::listing::place;
use pie_base::{OutOfMemory, Path};
use pie_value::Refusal;
use std::alloc::Global;

/// The least written path with another below it, and the least of those below it.
pub(crate) fn nested(alloc: Global, writes: &[(Path, u32)]) -> Result<Option<Refusal>, OutOfMemory>
    requires { IsInOrder writes.now }
    ensures { IfOk result (FindsNested (IsListed writes.now)) }
{
    for entry in writes {
        let path = &entry.0;
        if let Some(below) = first_below(alloc, writes, path)? {
            let copy = path.copy()?;
            return Ok(Some(Refusal::Nested(copy, below)));
        }
    }
    Ok(None)
}

// The first path below this one. All of them begin with it and a slash, so they stand together.
fn first_below(
    alloc: Global,
    writes: &[(Path, u32)],
    path: &Path,
) -> Result<Option<Path>, OutOfMemory>
    requires { IsInOrder writes.now }
    ensures { IfOk result (IsFirstBelow writes.now path.now) }
{
    let key = with_slash(alloc, path)?;
    let at = place(writes, &key);
    if at < writes.len() {
        let below = below_at(&writes[at], path)?;
        Ok(below)
    } else {
        Ok(None)
    }
}

// The path of an entry, if it is below this one.
fn below_at(entry: &(Path, u32), path: &Path) -> Result<Option<Path>, OutOfMemory>
    ensures { IfOk result (λ below. below ≡ (if is_below path.now entry.now.0 then Some entry.now.0 else None)) }
{
    if entry.0.is_below(path) {
        let below = entry.0.copy()?;
        Ok(Some(below))
    } else {
        Ok(None)
    }
}

fn with_slash(alloc: Global, path: &Path) -> Result<Vec<u8>, OutOfMemory>
    ensures { IfOk result (λ bytes. bytes.items ≡ path.now ++ 47 ∷ []) }
{
    let mut bytes = Vec::from_slice(alloc, path.as_str().as_bytes())?;
    bytes.push(b'/')?;
    Ok(bytes)
}
