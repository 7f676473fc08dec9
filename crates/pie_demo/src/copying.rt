//! A copy of the sources of a project.
ghost use Rattle.std.specs.Prelude.{◌≡◌, codes, IfOk};
ghost use Rattle.std.specs.List.{list_any};
ghost use Rattle.pie_base.specs.Path.{same_text, is_below};
ghost use Rattle.pie_files.specs.Directory.{files_under};
ghost use Rattle.pie_files.specs.inner.SureFiles.{held_by};
ghost use Rattle.pie_demo.specs.Copies.{is_copied, HasPart, GainsPart};

use crate::sources::{found_at, sure};
use pie_base::{OutOfMemory, Path};
use pie_files::{Files, SureFiles};
use std::alloc::Global;

/// New files with the project's own two and all that stand under `src/`, each with its mark.
pub(crate) fn copy_of(alloc: Global, files: &mut SureFiles) -> Result<SureFiles, OutOfMemory>
    ensures part { IfOk result (λ copy. HasPart (held_by files.old) (held_by copy) is_copied) }
    ensures same { held_by files.new ≡ held_by files.old }
{
    let mut copy = SureFiles::new(alloc);
    let pipeline = Path::known(alloc, "pie.pipeline")?;
    copy_file(files, &mut copy, &pipeline)?;
    let roots = Path::known(alloc, "pie.roots")?;
    copy_file(files, &mut copy, &roots)?;
    copy_all(alloc, files, &mut copy)?;
    Ok(copy)
}

// Copies all files under `src/`.
fn copy_all(alloc: Global, files: &mut SureFiles, copy: &mut SureFiles) -> Result<(), OutOfMemory>
    ensures part { GainsPart result (λ q. is_below (codes "src") q) (held_by files.old) (held_by copy.old) (held_by copy.new) }
    ensures same { held_by files.new ≡ held_by files.old }
{
    let top = Path::known(alloc, "src")?;
    let paths = under(files, &top)?;
    copy_each(files, copy, paths.as_slice())
}

// Copies the files at these paths.
fn copy_each(files: &mut SureFiles, copy: &mut SureFiles, paths: &[Path]) -> Result<(), OutOfMemory>
    ensures part { GainsPart result (λ q. list_any (same_text q) paths.now) (held_by files.old) (held_by copy.old) (held_by copy.new) }
    ensures same { held_by files.new ≡ held_by files.old }
{
    for path in paths {
        copy_file(files, copy, path)?;
    }
    Ok(())
}

/// The files under a directory.
pub(crate) fn under(files: &mut SureFiles, top: &Path) -> Result<Vec<Path>, OutOfMemory>
    ensures listed { IfOk result (λ paths. paths.items ≡ files_under (held_by files.old) top.now) }
    ensures same { held_by files.new ≡ held_by files.old }
{
    match files.all_under(top) {
        Ok(paths) => Ok(paths),
        Err(error) => Err(sure(error)),
    }
}

// Copies the file at a path, if there is one, with its mark.
fn copy_file(files: &mut SureFiles, copy: &mut SureFiles, path: &Path) -> Result<(), OutOfMemory>
    ensures part { GainsPart result (λ q. same_text q path.now) (held_by files.old) (held_by copy.old) (held_by copy.new) }
    ensures same { held_by files.new ≡ held_by files.old }
{
    match found_at(files, path)? {
        Some(found) => copy.put(path, found.bytes.as_slice(), found.mark),
        None => Ok(()),
    }
}
