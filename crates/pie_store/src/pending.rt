//! Pending names: the paths that a refused build was told of, kept for the next one.
ghost use Rattle.std.specs.Prelude.{◌≡◌, ◌++◌, ◌&&◌, ◌+◌, ◌<◌, ◌≤◌, ℕ, List, All, cond, take, drop, Some, None, length, IfOk, IfSome, IfNone, OnOk};
ghost use Rattle.std.specs.Prelude.{MatchOption, true, false};
ghost use Rattle.std.specs.List.{position};
ghost use Rattle.std.specs.Str.{is_utf8};
ghost use Rattle.pie_value.specs.Reading.{is_path_text};
ghost use Rattle.pie_store.specs.Pending.{is_newline, in_order, line, lines, path_last as specs_path_last, AreInPathOrder, IsName, IsPending};

use pie_base::{MAX_PENDING_BYTES, OutOfMemory, Path, PathError};
use std::alloc::Global;
use std::collections::BTreeSet;

/// The text of pending names: the distinct paths in path order, each with byte 10 after it.
/// Rule: docs/FORMATS.md, "Pending names".
#[tactic(auto, using(crate::proofs::InOrder::in_path_order))]
pub fn pending_text(alloc: Global, paths: &[Path]) -> Result<Vec<u8>, OutOfMemory>
    ensures bytes { IfOk result (λ bytes. bytes.items ≡ lines (in_order paths.now)) }
    ensures order { IfOk result (λ _. AreInPathOrder (in_order paths.now) paths.now) }
    ensures pending { IfOk result (λ bytes. 0 < length paths.now → length bytes.items ≤ MAX_PENDING_BYTES → IsPending (in_order paths.now) bytes.items) }
{
    let sorted = sorted(alloc, paths)?;
    let mut out = Vec::new(alloc);
    put_lines(&mut out, &sorted)?;
    Ok(out)
}

fn sorted(alloc: Global, paths: &[Path]) -> Result<BTreeSet<Path>, OutOfMemory>
    ensures { IfOk result (λ set. set.keys ≡ in_order paths.now) }
{
    let mut set = BTreeSet::new(alloc);
    for path in paths {
        let copy = path.copy()?;
        set.insert(copy)?;
    }
    Ok(set)
}

fn put_lines(out: &mut Vec<u8>, paths: &BTreeSet<Path>) -> Result<(), OutOfMemory>
    ensures written { OnOk result (out.new.items ≡ out.old.items ++ lines paths.now.keys) }
    ensures names { OnOk result (All IsName paths.now.keys) }
{
    for path in paths {
        put_line(out, path)?;
    }
    Ok(())
}

#[tactic(auto, unfolding(crate::specs::Pending::line))]
fn put_line(out: &mut Vec<u8>, path: &Path) -> Result<(), OutOfMemory>
    ensures written { OnOk result (out.new.items ≡ out.old.items ++ line path.now) }
    ensures name { OnOk result (IsName path.now) }
{
    out.extend_from_slice(path.as_str().as_bytes())?;
    out.push(b'\n')?;
    Ok(())
}

/// The paths of a text of pending names, or `None` where it is none: at least one path, in ascending order,
/// each with byte 10 after it, and at most 16,777,216 bytes.
pub fn read_pending(alloc: Global, bytes: &[u8]) -> Result<Option<Vec<Path>>, OutOfMemory>
    ensures named { IfOk result (λ found. IfSome found (λ paths. IsPending paths.items bytes.now)) }
    ensures only { IfOk result (λ found. IfSome found (λ paths. (names : List (List ℕ)) → IsPending names bytes.now → names ≡ paths.items)) }
    ensures refused { IfOk result (λ found. IfNone found ((names : List (List ℕ)) → ¬ (IsPending names bytes.now))) }
{
    if bytes.is_empty() {
        return Ok(None);
    }
    if bytes.len() > MAX_PENDING_BYTES {
        return Ok(None);
    }
    let mut rest = bytes;
    let mut paths = Vec::new(alloc);
    while let Some(end) = newline_in(rest) {
        let text = before(rest, end);
        let after = behind(rest, end);
        let next = next_path(alloc, paths.as_slice(), text)?;
        match next {
            Some(path) => paths.push(path)?,
            None => return Ok(None),
        }
        rest = after;
    }
    if rest.is_empty() {
        Ok(Some(paths))
    } else {
        Ok(None)
    }
}

fn newline_in(bytes: &[u8]) -> Option<usize>
    ensures first { result ≡ position is_newline bytes.now }
    ensures within { IfSome result (λ end. end < length bytes.now) }
{
    bytes.iter().position(|b| *b == 10)
}

fn before(bytes: &[u8], end: usize) -> &[u8]
    requires { end < length bytes.now }
    ensures { result.now ≡ take end bytes.now }
{
    &bytes[..end]
}

fn behind(bytes: &[u8], end: usize) -> &[u8]
    requires { end < length bytes.now }
    ensures { result.now ≡ drop (end + 1) bytes.now }
{
    &bytes[end + 1..]
}

// The path that a line spells, where it comes after those before it.
fn next_path(alloc: Global, paths: &[Path], text: &[u8]) -> Result<Option<Path>, OutOfMemory>
    ensures { IfOk result (λ path. path ≡ cond (is_path_text text.now && specs_path_last paths.now text.now) (Some text.now) None) }
{
    match path_of(alloc, text)? {
        Some(path) if path_is_last(paths, &path) => Ok(Some(path)),
        _ => Ok(None),
    }
}

#[tactic(auto, using(pie_value::proofs::TextTests::path_taken, pie_value::proofs::TextTests::path_refused))]
fn path_of(alloc: Global, text: &[u8]) -> Result<Option<Path>, OutOfMemory>
    ensures { IfOk result (λ path. path ≡ cond (is_path_text text.now) (Some text.now) None) }
{
    let Some(text) = as_text(text) else {
        return Ok(None);
    };
    match Path::read(alloc, text) {
        Ok(path) => Ok(Some(path)),
        Err(PathError::OutOfMemory) => Err(OutOfMemory),
        Err(_) => Ok(None),
    }
}

// Whether a path comes after the last of these, if there is one.
fn path_is_last(paths: &[Path], path: &Path) -> bool
    ensures { result ≡ specs_path_last paths.now path.now }
{
    match paths.last() {
        Some(last) => *last < *path,
        None => true,
    }
}

// The bytes as a text, where they are UTF-8.
#[tactic(auto, using(pie_value::proofs::TextTests::not_utf8, pie_value::proofs::TextTests::utf8))]
fn as_text(bytes: &[u8]) -> Option<&str>
    ensures { MatchOption result (is_utf8 bytes.now ≡ false) (λ text. (text.now ≡ bytes.now) × (is_utf8 bytes.now ≡ true)) }
{
    match str::from_utf8(bytes) {
        Ok(text) => Some(text),
        Err(_) => None,
    }
}
