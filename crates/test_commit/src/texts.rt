//! Paths by their texts.
use pie_base::Path;
use std::alloc::Global;
use std::test::Fail;

/// The path of a text that is one.
pub(crate) fn path(alloc: Global, text: &str) -> Result<Path, Fail> {
    Ok(Path::read(alloc, text).map_err(|_| "path")?)
}
