//! Lists of paths.
ghost use Rattle.std.specs.Prelude.{◌≡◌, ◌++◌, ◌∷◌, [], if◌then◌else◌, map, IfOk, OnOk};
ghost use Rattle.std.specs.List.{filter};
ghost use Rattle.pie_base.specs.Path.{is_out};

use pie_base::{OutOfMemory, Path};
use std::alloc::Global;

/// The paths of some files.
pub fn paths_of(alloc: Global, files: &[(Path, Vec<u8>)]) -> Result<Vec<Path>, OutOfMemory>
    ensures { IfOk result (λ paths. paths.items ≡ map (λ f. f.0) files.now) }
{
    let mut paths = Vec::new(alloc);
    for (path, _) in files {
        paths.push(path.copy()?)?;
    }
    Ok(paths)
}

/// Equal paths, in a list of their own.
pub fn copies(alloc: Global, paths: &[Path]) -> Result<Vec<Path>, OutOfMemory>
    ensures { IfOk result (λ copied. copied.items ≡ paths.now) }
{
    let mut copied = Vec::new(alloc);
    for path in paths {
        copied.push(path.copy()?)?;
    }
    Ok(copied)
}

/// Those of the paths that lie under `out/`.
pub(crate) fn under_out(alloc: Global, paths: &[Path]) -> Result<Vec<Path>, OutOfMemory>
    ensures { IfOk result (λ found. found.items ≡ filter is_out paths.now) }
{
    let mut found = Vec::new(alloc);
    for path in paths {
        note(&mut found, path)?;
    }
    Ok(found)
}

fn note(found: &mut Vec<Path>, path: &Path) -> Result<(), OutOfMemory>
    ensures { let out = is_out path.now in OnOk result (found.new.items ≡ (if out then found.old.items ++ path.now ∷ [] else found.old.items)) }
{
    if path.under_out() {
        found.push(path.copy()?)?;
    }
    Ok(())
}
