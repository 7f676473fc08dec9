//! A path of the project directory: segments parted by `/`.
ghost use Rattle.std.specs.Prelude.{◌≡◌, ◌==◌, ◌<◌, ◌≤◌, IfOk, IsTrue, MatchOption, None, length, take, slice_index};
ghost use Rattle.std.specs.Option.{option_copied};
ghost use Rattle.std.specs.List.{list_all, list_any, position};
ghost use Rattle.std.specs.Cmp.Lexicographic.{slice_cmp};
ghost use Rattle.std.specs.Ordering.{nat_cmp, as_partial_cmp};
ghost use Rattle.std.specs.Cmp.{partial_order_from_own_ties};
ghost use Rattle.std.specs.Cmp.Rules.{comparing};
ghost use Rattle.std.proofs.Common.{rules};
ghost use lib.Pointwise.{pointwise};
ghost use Rattle.pie_base.specs.Path.{is_slash, is_control, segments, is_segment, is_path, first_segment, is_out, is_under_store, is_kept};
ghost use Rattle.pie_base.specs.Path.{is_project_file as specs_is_project_file, is_source, is_below, parent_of, rest_below as specs_rest_below, entry_on_way};
ghost use Rattle.pie_base.specs.Path.{EndsParent, EndsEntry, Reads};

use crate::{MAX_PATH_BYTES, OutOfMemory, Text};
use std::alloc::Global;
use std::cmp::Ordering;
use std::marker::Model;

/// Why a text is no path, in the order in which it is tested.
#[derive(Clone, Copy, Debug, PartialEq, Eq)]
pub enum PathError {
    /// The text is empty.
    Empty,
    /// The text has more than 255 bytes.
    TooLong,
    /// A segment is empty, `.` or `..`, or holds a control character.
    BadSegment,
    OutOfMemory,
}

impl From<OutOfMemory> for PathError {
    ghost use Rattle.pie_base.specs.declared.path.PathError.TheVariants.{OutOfMemory as NoMemory};

    ghost from_gives = { λ _ e. e ≡ NoMemory };

    fn from(_: OutOfMemory) -> Self {
        PathError::OutOfMemory
    }
}

/// A path. Contracts see the list of its bytes. A copy shares the contents.
/// Rule: docs/BUILDING.md, "Paths".
#[derive(Drop)]
pub struct Path {
    text: Text,
}

impl Model for Path {
    ghost use Rattle.std.specs.Prelude.{List, ℕ, IsTrue};
    ghost use Rattle.pie_base.specs.Path.{is_path};

    ghost Value = { List ℕ };

    ghost view = { λ p. p.text };

    ghost invariant = { λ p. IsTrue (is_path p.text) };
}

impl Path {
    /// The path that this text spells.
    pub fn read(alloc: Global, text: &str) -> Result<Path, PathError>
        ensures { Reads result text.now }
    {
        if text.is_empty() {
            return Err(PathError::Empty);
        }
        if text.len() > MAX_PATH_BYTES {
            return Err(PathError::TooLong);
        }
        if !all_segments(text.as_bytes()) {
            return Err(PathError::BadSegment);
        }
        let text = Text::new(alloc, text)?;
        Ok(Path { text })
    }

    /// The path that a text spells which is known to be one.
    pub fn known(alloc: Global, text: &str) -> Result<Path, OutOfMemory>
        requires { IsTrue (is_path text.now) }
        ensures { IfOk result (λ path. path ≡ text.now) }
    {
        let text = Text::new(alloc, text)?;
        Ok(Path { text })
    }

    /// An equal path, which shares the contents.
    pub fn copy(&self) -> Result<Path, OutOfMemory>
        ensures { IfOk result (λ copy. copy ≡ self.now) }
    {
        let text = self.text.copy()?;
        Ok(Path { text })
    }

    pub fn as_str(&self) -> &str
        ensures text { result.now ≡ self.now }
        ensures path { IsTrue (is_path self.now) }
    {
        self.text.as_str()
    }

    fn bytes(&self) -> &[u8]
        ensures { result.now ≡ self.now }
    {
        self.as_str().as_bytes()
    }

    /// Whether the first segment is `out` and there are at least two.
    pub fn under_out(&self) -> bool
        ensures { result ≡ is_out self.now }
    {
        rest_below(b"out", self.bytes()).is_some()
    }

    /// Whether the first segment is `.pie`.
    pub fn under_store(&self) -> bool
        ensures { result ≡ is_under_store self.now }
    {
        first_of(self.bytes()) == b".pie".as_slice()
    }

    /// Whether the path is neither out nor kept: the file of a source.
    pub fn is_source(&self) -> bool
        ensures { result ≡ is_source self.now }
    {
        !self.under_out() && !self.is_kept()
    }

    // Whether the path is `out` alone, or the first segment is `.pie` or a project file.
    fn is_kept(&self) -> bool
        ensures { result ≡ is_kept self.now }
    {
        let text = self.bytes();
        text == b"out".as_slice() || self.under_store() || is_project_file(text)
    }

    /// Whether the path lies below this directory, at any depth.
    pub fn is_below(&self, dir: &Path) -> bool
        ensures { result ≡ is_below dir.now self.now }
    {
        rest_below(dir.bytes(), self.bytes()).is_some()
    }

    /// The path without its last segment, or `None` where it has one segment.
    pub fn parent(&self, alloc: Global) -> Result<Option<Path>, OutOfMemory>
        ensures { IfOk result (λ parent. parent ≡ parent_of self.now) }
    {
        match last_slash(self.bytes()) {
            Some(end) => Ok(Some(self.front(alloc, end)?)),
            None => Ok(None),
        }
    }

    /// The entry of a directory at which or below which the path lies, as `src/a` of `src` for
    /// `src/a/b`, or `None` where it isn't below the directory.
    pub fn entry_of(&self, alloc: Global, dir: &Path) -> Result<Option<Path>, OutOfMemory>
        ensures { IfOk result (λ entry. entry ≡ entry_on_way dir.now self.now) }
    {
        match entry_end(dir.bytes(), self.bytes()) {
            Some(end) => Ok(Some(self.up_to(alloc, end)?)),
            None => Ok(None),
        }
    }

    // The path before the slash at this place, in bytes from 0, or all of it at its end.
    fn up_to(&self, alloc: Global, end: usize) -> Result<Path, OutOfMemory>
        requires inside { end ≤ length self.now }
        requires slash { end < length self.now → slice_index self.now end ≡ 47 }
        ensures { IfOk result (λ front. front ≡ take end self.now) }
    {
        if end < self.bytes().len() {
            self.front(alloc, end)
        } else {
            self.copy()
        }
    }

    // The path before the slash at this place, in bytes from 0.
    fn front(&self, alloc: Global, end: usize) -> Result<Path, OutOfMemory>
        requires inside { end < length self.now }
        requires slash { slice_index self.now end ≡ 47 }
        ensures { IfOk result (λ front. front ≡ take end self.now) }
    {
        let text = self.text.as_str();
        let text = Text::new(alloc, &text[..end])?;
        Ok(Path { text })
    }
}

impl PartialEq for Path {
    ghost eq = { pointwise ◌==◌ };

    ghost laws = { Prim.search (comparing, rules) };

    fn eq(&self, other: &Path) -> bool {
        self.bytes() == other.bytes()
    }
}

impl Eq for Path {
    ghost laws = { Prim.search (comparing, rules) };
}

impl PartialOrd for Path {
    ghost partial_cmp = { as_partial_cmp (slice_cmp nat_cmp) };

    ghost laws = { partial_order_from_own_ties (Prim.search (comparing, rules)) (Prim.search (comparing, rules)) };

    fn partial_cmp(&self, other: &Path) -> Option<Ordering> {
        Some(self.cmp(other))
    }
}

/// By bytes.
impl Ord for Path {
    ghost cmp = { slice_cmp nat_cmp };

    ghost total = { Prim.search (comparing, rules) };

    ghost matches_partial_cmp = { Prim.search (comparing, rules) };

    ghost matches_eq = { Prim.search (comparing, rules) };

    fn cmp(&self, other: &Path) -> Ordering {
        self.bytes().cmp(other.bytes())
    }
}

// Whether each segment of the text is one of a path.
fn all_segments(text: &[u8]) -> bool
    ensures { result ≡ list_all is_segment (segments text.now) }
{
    text.split(|b| *b == b'/').all(|s| segment_is_good(s))
}

fn segment_is_good(segment: &[u8]) -> bool
    ensures { result ≡ is_segment segment.now }
{
    !segment.is_empty()
        && segment != b".".as_slice()
        && segment != b"..".as_slice()
        && !has_control(segment)
}

fn has_control(segment: &[u8]) -> bool
    ensures { result ≡ list_any is_control segment.now }
{
    segment.iter().any(|b| *b < 32 || *b == 127)
}

// Where the first slash stands, in bytes from 0.
fn slash_at(path: &[u8]) -> Option<usize>
    ensures { result ≡ position is_slash path.now }
{
    path.iter().position(|b| *b == b'/')
}

// Whether the first segment is that of a file that describes the project.
fn is_project_file(path: &[u8]) -> bool
    ensures { result ≡ specs_is_project_file path.now }
{
    first_of(path) == b"pie.pipeline".as_slice() || first_of(path) == b"pie.roots".as_slice()
}

// The first segment of a path.
#[tactic(auto, using(crate::proofs::Segments::before_first_at, crate::proofs::Segments::before_first_none))]
fn first_of(path: &[u8]) -> &[u8]
    ensures { result.now ≡ first_segment path.now }
{
    match slash_at(path) {
        Some(end) => &path[..end],
        None => path,
    }
}

// Where the last slash stands, in bytes from 0.
fn last_slash(path: &[u8]) -> Option<usize>
    ensures { MatchOption result (parent_of path.now ≡ None) (λ end. EndsParent path.now end) }
{
    let mut end = path.len();
    while end > 0 {
        end -= 1;
        if path[end] == b'/' {
            return Some(end);
        }
    }
    None
}

// How many bytes of a path below the directory spell the entry on the way.
fn entry_end(dir: &[u8], path: &[u8]) -> Option<usize>
    ensures { MatchOption result (entry_on_way dir.now path.now ≡ None) (λ end. EndsEntry dir.now path.now end) }
{
    let rest = rest_below(dir, path)?;
    match slash_at(rest) {
        Some(end) => Some(dir.len() + 1 + end),
        None => Some(path.len()),
    }
}

// What stands after the directory and a slash.
fn rest_below<'a>(dir: &[u8], path: &'a [u8]) -> Option<&'a [u8]>
    ensures { option_copied result ≡ specs_rest_below dir.now path.now }
{
    let mut dir = dir;
    let mut path = path;
    while let [first, others @ ..] = dir {
        match path {
            [b, rest @ ..] if *b == *first => {
                dir = others;
                path = rest;
            }
            _ => return None,
        }
    }
    match path {
        [b'/', rest @ ..] => Some(rest),
        _ => None,
    }
}
