//! What no clause says, and the calls once with ample memory.
use pie_base::{FaultKind, OutOfMemory, Path, PathError, Status, Text};
use std::alloc::Global;
use std::test::Fail;

#[test]
fn a_text_is_read_as_a_path_or_refused(rt: HostRuntime) -> Result<(), Fail> {
    let alloc = rt.alloc();
    let long = String::from_utf8(vec![in alloc; b'a'; 256]?)?;
    let cases = [
        ("", Some(PathError::Empty)),
        ("a//b", Some(PathError::BadSegment)),
        ("a/b", None),
        ("a/../b", Some(PathError::BadSegment)),
        ("./a", Some(PathError::BadSegment)),
        ("a/", Some(PathError::BadSegment)),
        ("a\tb", Some(PathError::BadSegment)),
        (long.as_str(), Some(PathError::TooLong)),
        (&long.as_str()[..255], None),
    ];
    for (text, wanted) in cases {
        let got = Path::read(alloc, text).err();
        assert!(rt; got == wanted, "{text}: {got:?}");
    }
    Ok(())
}

/// Whether a path lies under `out`, is a source, and is below `src`; its parent and its entry in `src`, empty where there is none.
type Row = (&'static str, bool, bool, bool, &'static str, &'static str);

fn kinds_are(path: &Path, src: &Path, row: &Row) -> bool {
    path.under_out() == row.1 && path.is_source() == row.2 && path.is_below(src) == row.3
}

fn parent_is(alloc: Global, path: &Path, wanted: &str) -> Result<bool, OutOfMemory> {
    let parent = path.parent(alloc)?;
    Ok(parent.as_ref().map_or("", |p| p.as_str()) == wanted)
}

fn entry_is(alloc: Global, path: &Path, dir: &Path, wanted: &str) -> Result<bool, OutOfMemory> {
    let entry = path.entry_of(alloc, dir)?;
    Ok(entry.as_ref().map_or("", |p| p.as_str()) == wanted)
}

fn row_holds(alloc: Global, src: &Path, row: &Row) -> Result<bool, OutOfMemory> {
    let Ok(path) = Path::read(alloc, row.0) else {
        return Ok(false);
    };
    Ok(
        kinds_are(&path, src, row)
            && parent_is(alloc, &path, row.4)?
            && entry_is(alloc, &path, src, row.5)?,
    )
}

#[test]
fn paths_have_kinds_parents_and_entries(rt: HostRuntime) -> Result<(), Fail> {
    let rows = [
        ("out", false, false, false, "", ""),
        ("out/page", true, false, false, "out", ""),
        ("outer/page", false, true, false, "outer", ""),
        (".pie/store", false, false, false, ".pie", ""),
        ("pie.roots", false, false, false, "", ""),
        ("src/a", false, true, true, "src", "src/a"),
        ("src/a/b/c", false, true, true, "src/a/b", "src/a"),
    ];
    let src = Path::read(rt.alloc(), "src").map_err(|_| "src")?;
    for row in rows {
        assert!(rt; row_holds(rt.alloc(), &src, &row)?, "{}", row.0);
    }
    Ok(())
}

fn path_is_copied(alloc: Global) -> Result<bool, Fail> {
    let path = Path::read(alloc, "a/b").map_err(|_| "path")?;
    Ok(path.copy()? == path)
}

fn text_is_copied(text: &Text, wanted: &str) -> Result<bool, Fail> {
    Ok(text.copy()?.as_str() == wanted)
}

fn says(said: &FaultKind, wanted: &str) -> bool {
    matches!(said, FaultKind::Said(text) if text.as_str() == wanted)
}

// What a task said is copied with its text.
fn said_is_copied(text: Text, wanted: &str) -> Result<bool, Fail> {
    let said = FaultKind::Said(text).copy()?;
    Ok(says(&said, wanted))
}

#[test]
fn copies_are_equal_and_codes_count_from_0(rt: HostRuntime) -> Result<(), Fail> {
    let alloc = rt.alloc();
    assert!(rt; path_is_copied(alloc)?, "path");
    assert!(rt; text_is_copied(&Text::new(alloc, "hi")?, "hi")?, "text");
    assert!(rt; said_is_copied(Text::new(alloc, "hi")?, "hi")?, "said");
    assert!(rt; Status::Ok.code() == 0 && Status::Memory.code() == 8);
    Ok(())
}
