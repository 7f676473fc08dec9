//! The files of a demo before its first round, and the change of each round.
ghost use Rattle.std.specs.Prelude.{◌≡◌, [], ◌∷◌, ◌++◌, ◌%◌, ◌-◌, ◌≤◌, ◌<◌, codes, decimal, IfOk, OnOk};
ghost use Rattle.std.specs.FinMap as fin;
ghost use Rattle.std.specs.Option.{option_map};
ghost use Rattle.pie_files.specs.Directory.{file_at};
ghost use Rattle.pie_files.specs.inner.SureFiles.{held_by};
ghost use Rattle.pie_demo.specs.Draws.{next_state, drawn};
ghost use Rattle.pie_incremental.specs.Own.{bytes_at};
ghost use Rattle.pie_demo.specs.Sources.{item_path, changed_path, changed_text, or_nothing, SetsFile, ChangesFile, HasSources, HasFirst};

use crate::draws::Draws;
use pie_base::{OutOfMemory, Path};
use pie_files::{Files, FilesError, Found, SureFiles};
use std::alloc::Global;

const PIPELINE: &str = "func item(p: path) -> text { trim(get(read(p))) }\n\
func group(d: path) -> text { join_text([require item(p) for p in list(d)], \",\") }\n\
func top() -> unit {\n  \
write(path(\"out/all\"), join_text([require group(d) for d in list(path(\"src\"))], \"\\n\"));\n\
}\n";

/// Writes the sources of this seed and size, and the project's own two files.
#[tactic(auto, using(crate::proofs::Changing::all_put))]
pub(crate) fn put_sources(
    alloc: Global,
    files: &mut SureFiles,
    seed: u64,
    size: u32,
) -> Result<(), OutOfMemory>
    ensures { held_by files.old ≡ fin.empty → OnOk result (HasFirst seed size (held_by files.new)) }
{
    let mut draws = Draws::new(seed);
    for i in 0..size {
        put_item(alloc, files, &mut draws, i)?;
    }
    let pipeline = Path::known(alloc, "pie.pipeline")?;
    put(files, &pipeline, PIPELINE.as_bytes())?;
    let roots = Path::known(alloc, "pie.roots")?;
    put(files, &roots, b"top()\n")
}

// Writes the i-th file with the text that is drawn for it.
fn put_item(
    alloc: Global,
    files: &mut SureFiles,
    draws: &mut Draws,
    i: u32,
) -> Result<(), OutOfMemory>
    ensures state { OnOk result (draws.new.state ≡ next_state draws.old.state) }
    ensures set { OnOk result (SetsFile (item_path i) (codes "v" ++ decimal (drawn draws.old.state % 100)) (held_by files.old) (held_by files.new)) }
{
    let path = item(alloc, i)?;
    let number = draws.below(100);
    let text = format!(in alloc; "v{number}")?;
    put(files, &path, text.as_bytes())
}

/// Changes the file of round `k`, and returns its path: an odd round gives it a new text, an even one adds a space behind.
#[tactic(auto, using(crate::proofs::Changing::round_changes))]
pub(crate) fn change(
    alloc: Global,
    files: &mut SureFiles,
    seed: u64,
    size: u32,
    k: u32,
) -> Result<Path, OutOfMemory>
    requires some { 0 < size }
    requires few { size ≤ 1000 }
    requires first { 0 < k }
    requires last { k ≤ 1000 }
    ensures path { IfOk result (λ path. path ≡ changed_path seed size k) }
    ensures changed { OnOk result (ChangesFile seed size k (held_by files.old) (held_by files.new)) }
    ensures sources { HasSources seed size (k - 1) (held_by files.old) → OnOk result (HasSources seed size k (held_by files.new)) }
{
    let mut draws = Draws::new(seed);
    draws.skip(size + (k - 1));
    let path = item(alloc, draws.below(size))?;
    change_text(alloc, files, &path, k)?;
    Ok(path)
}

// Gives the file of round `k` its new text.
fn change_text(alloc: Global, files: &mut SureFiles, path: &Path, k: u32) -> Result<(), OutOfMemory>
    ensures { OnOk result (SetsFile path.now (changed_text k (or_nothing (bytes_at (held_by files.old) path.now))) (held_by files.old) (held_by files.new)) }
{
    if k % 2 == 1 {
        let text = format!(in alloc; "r{k}")?;
        put(files, path, text.as_bytes())
    } else {
        add_space(alloc, files, path)
    }
}

// Adds a space behind what the file has.
fn add_space(alloc: Global, files: &mut SureFiles, path: &Path) -> Result<(), OutOfMemory>
    ensures { OnOk result (SetsFile path.now (or_nothing (bytes_at (held_by files.old) path.now) ++ 32 ∷ []) (held_by files.old) (held_by files.new)) }
{
    let mut text = bytes_at(alloc, files, path)?;
    text.push(b' ')?;
    put(files, path, text.as_slice())
}

// The bytes of the file at a path; none where there is no file.
fn bytes_at(alloc: Global, files: &mut SureFiles, path: &Path) -> Result<Vec<u8>, OutOfMemory>
    ensures bytes { IfOk result (λ bytes. bytes.items ≡ or_nothing (bytes_at (held_by files.old) path.now)) }
    ensures same { held_by files.new ≡ held_by files.old }
{
    match found_at(files, path)? {
        Some(found) => Ok(found.bytes),
        None => Ok(Vec::new(alloc)),
    }
}

/// The file at a path, if there is one.
pub(crate) fn found_at(files: &mut SureFiles, path: &Path) -> Result<Option<Found>, OutOfMemory>
    ensures found { IfOk result (λ found. option_map (λ f. f.bytes.items) found ≡ bytes_at (held_by files.old) path.now) }
    ensures file { IfOk result (λ found. option_map (λ f. (f.bytes.items, f.mark)) found ≡ file_at (held_by files.old) path.now) }
    ensures same { held_by files.new ≡ held_by files.old }
{
    match files.read(path) {
        Ok(found) => Ok(found),
        Err(error) => Err(sure(error)),
    }
}

/// Makes a file have these bytes.
pub(crate) fn put(files: &mut SureFiles, path: &Path, bytes: &[u8]) -> Result<(), OutOfMemory>
    ensures { OnOk result (SetsFile path.now bytes.now (held_by files.old) (held_by files.new)) }
{
    match files.write(path, bytes) {
        Ok(()) => Ok(()),
        Err(error) => Err(sure(error)),
    }
}

/// Why a call on files in memory fails, which is never the files' fault.
pub(crate) fn sure(_: FilesError) -> OutOfMemory {
    OutOfMemory
}

// The path of the i-th file: ten stand in one directory. Such a text is always a path.
fn item(alloc: Global, i: u32) -> Result<Path, OutOfMemory>
    ensures { IfOk result (λ path. path ≡ item_path i) }
{
    let text = format!(in alloc; "src/{}/{}", i / 10, i)?;
    match Path::read(alloc, text.as_str()) {
        Ok(path) => Ok(path),
        Err(_) => Err(OutOfMemory),
    }
}
