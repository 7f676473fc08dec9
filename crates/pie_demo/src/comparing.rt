//! Whether two projects in memory are equal byte for byte.
ghost use Rattle.std.specs.Prelude.{◌≡◌, ◌↔◌, IsTrue, IfOk};
ghost use Rattle.std.specs.List.{list_all};
ghost use Rattle.std.specs.Option.{option_map};
ghost use Rattle.pie_base.specs.Path.{is_below};
ghost use Rattle.pie_files.specs.inner.SureFiles.{held_by};
ghost use Rattle.pie_demo.specs.Copies.{same_file, same_at, is_compared, AreSameAt};

use crate::copying::under;
use crate::sources::found_at;
use pie_base::{OutOfMemory, Path};
use pie_files::{Found, SureFiles};
use std::alloc::Global;

/// Whether both have the same files with the same bytes under `src/`, `out/` and `.pie/`, and the same two files of the project.
pub(crate) fn are_same(
    alloc: Global,
    one: &mut SureFiles,
    other: &mut SureFiles,
) -> Result<bool, OutOfMemory>
    ensures same { IfOk result (λ b. IsTrue b ↔ AreSameAt is_compared (held_by one.old) (held_by other.old)) }
    ensures one { held_by one.new ≡ held_by one.old }
    ensures other { held_by other.new ≡ held_by other.old }
{
    let pipeline = Path::known(alloc, "pie.pipeline")?;
    let roots = Path::known(alloc, "pie.roots")?;
    let src = Path::known(alloc, "src")?;
    let out = Path::known(alloc, "out")?;
    let own = Path::known(alloc, ".pie")?;
    let same_pipeline = is_same(one, other, &pipeline)?;
    let same_roots = is_same(one, other, &roots)?;
    let same_sources = are_same_under(one, other, &src)?;
    let same_outputs = are_same_under(one, other, &out)?;
    let same_own = are_same_under(one, other, &own)?;
    let same = [
        same_pipeline,
        same_roots,
        same_sources,
        same_outputs,
        same_own,
    ];
    Ok(are_all(&same))
}

// Whether all of these hold.
fn are_all(tests: &[bool]) -> bool
    ensures { result ≡ list_all (λ b. b) tests.now }
{
    tests.iter().all(|test| *test)
}

// Whether both have the same files with the same bytes under a directory.
fn are_same_under(
    one: &mut SureFiles,
    other: &mut SureFiles,
    top: &Path,
) -> Result<bool, OutOfMemory>
    ensures same { IfOk result (λ b. IsTrue b ↔ AreSameAt (is_below top.now) (held_by one.old) (held_by other.old)) }
    ensures one { held_by one.new ≡ held_by one.old }
    ensures other { held_by other.new ≡ held_by other.old }
{
    let paths = under(one, top)?;
    let others = under(other, top)?;
    if paths.as_slice() != others.as_slice() {
        return Ok(false);
    }
    have_same(one, other, paths.as_slice())
}

// Whether both have the same file, or none, at each of these paths.
fn have_same(
    one: &mut SureFiles,
    other: &mut SureFiles,
    paths: &[Path],
) -> Result<bool, OutOfMemory>
    ensures same { IfOk result (λ b. b ≡ list_all (same_at (held_by one.old) (held_by other.old)) paths.now) }
    ensures one { held_by one.new ≡ held_by one.old }
    ensures other { held_by other.new ≡ held_by other.old }
{
    for path in paths {
        if !is_same(one, other, path)? {
            return Ok(false);
        }
    }
    Ok(true)
}

// Whether both have the same file, or none, at a path.
fn is_same(one: &mut SureFiles, other: &mut SureFiles, path: &Path) -> Result<bool, OutOfMemory>
    ensures same { IfOk result (λ b. b ≡ same_at (held_by one.old) (held_by other.old) path.now) }
    ensures one { held_by one.new ≡ held_by one.old }
    ensures other { held_by other.new ≡ held_by other.old }
{
    let found = found_at(one, path)?;
    let others = found_at(other, path)?;
    Ok(are_equal(&found, &others))
}

// Whether two files are the same bytes, or neither is there.
fn are_equal(found: &Option<Found>, others: &Option<Found>) -> bool
    ensures { result ≡ same_file (option_map (λ f. f.bytes.items) found.now) (option_map (λ f. f.bytes.items) others.now) }
{
    match (found, others) {
        (Some(found), Some(others)) => found.bytes.as_slice() == others.bytes.as_slice(),
        (None, None) => true,
        _ => false,
    }
}
