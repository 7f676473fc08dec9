//! What builds begin from, and what they keep and put into place.
use pie_base::{OutOfMemory, Path, Text};
use pie_commit::Plan;
use pie_diff::Held;
use pie_files::{Files, MemFiles};
use pie_incremental::{
    Base, OwnFiles, Start, changes_plan, commit_plan, find_start, joined_names, keep_names,
    put_digests,
};
use pie_stamp::hash_of;
use pie_store::{Cause, Funcs, Rows, StoreFault, StoreImage};
use pie_value::Tasks;
use std::alloc::Global;
use std::test::Fail;

fn path(alloc: Global, text: &str) -> Result<Path, Fail> {
    Ok(Path::read(alloc, text).map_err(|_| "path")?)
}

fn paths(alloc: Global, texts: &[&str]) -> Result<Vec<Path>, Fail> {
    let mut paths = Vec::new(alloc);
    for text in texts {
        paths.push(path(alloc, *text)?)?;
    }
    Ok(paths)
}

// A store of version 2 without functions, roots and records.
fn empty_store(alloc: Global) -> Result<Vec<u8>, OutOfMemory> {
    let mut bytes = Vec::from_slice(alloc, b"PIES\x02\0\0\0\0\0\0\0\0\0\0\0\0")?;
    let hash = hash_of(bytes.as_slice());
    bytes.extend_from_slice(&hash)?;
    Ok(bytes)
}

// Files with these bytes of the store and of the pending names, where there are any, and the marker.
fn files(
    alloc: Global,
    marker: bool,
    store: Option<&[u8]>,
    pending: Option<&[u8]>,
) -> Result<MemFiles, Fail> {
    let mut files = MemFiles::new(alloc);
    if marker {
        files.put(&path(alloc, ".pie/open")?, b"", 1)?;
    }
    if let Some(bytes) = store {
        files.put(&path(alloc, ".pie/store")?, bytes, 2)?;
    }
    if let Some(bytes) = pending {
        files.put(&path(alloc, ".pie/pending")?, bytes, 3)?;
    }
    Ok(files)
}

fn cause_text(cause: &Cause) -> &'static str {
    match cause {
        Cause::Interrupted => "interrupted",
        Cause::NoStore => "no store",
        Cause::Damaged(StoreFault::Short) => "short",
        Cause::Damaged(_) => "damaged",
        Cause::BadPending => "bad pending",
        _ => "union",
    }
}

fn base_text(base: &Base) -> &'static str {
    if base.own.pending.is_none() {
        return if base.names.is_empty() {
            "base"
        } else {
            "wrong"
        };
    }
    if base.names.len() == 2 {
        "two names"
    } else {
        "wrong"
    }
}

fn start_text(start: &Start) -> &'static str {
    match start {
        Start::Afresh(cause) => cause_text(cause),
        Start::From(base) => base_text(base),
    }
}

// What a build of these files begins from, told as a text.
fn begun(alloc: Global, files: &mut MemFiles) -> Result<&'static str, Fail> {
    match find_start(alloc, files) {
        Ok(start) => Ok(start_text(&start)),
        Err(_) => Ok("files"),
    }
}

#[test]
fn the_first_cause_to_start_afresh_counts(rt: HostRuntime) -> Result<(), Fail> {
    let alloc = rt.alloc();
    let store = empty_store(alloc)?;
    let good = Some(store.as_slice());
    let bad = Some(b"PIES".as_slice());
    let rows = [
        (true, None, None, "interrupted"),
        (true, good, None, "interrupted"),
        (false, None, Some(b"?".as_slice()), "no store"),
        (false, bad, Some(b"?".as_slice()), "short"),
        (false, good, Some(b"?".as_slice()), "bad pending"),
        (false, good, Some(b"".as_slice()), "bad pending"),
        (false, good, None, "base"),
        (false, good, Some(b"src/a\nsrc/b\n".as_slice()), "two names"),
    ];
    for (marker, store, pending, wanted) in rows {
        let mut files = files(alloc, marker, store, pending)?;
        let said = begun(alloc, &mut files)?;
        assert!(rt; said == wanted);
    }
    Ok(())
}

#[test]
fn names_are_joined_in_path_order_each_once(rt: HostRuntime) -> Result<(), Fail> {
    let alloc = rt.alloc();
    let named = paths(alloc, &["src/c", "src/a", "src/c"])?;
    let pending = paths(alloc, &["src/b", "src/a"])?;
    let joined = joined_names(alloc, named.as_slice(), pending.as_slice())?;
    let wanted = paths(alloc, &["src/a", "src/b", "src/c"])?;
    assert!(rt; joined.as_slice() == wanted.as_slice());
    Ok(())
}

// The text of the pending names, or `-` where there is no file of them.
fn pending_text(alloc: Global, files: &mut MemFiles) -> Result<String, Fail> {
    let place = path(alloc, ".pie/pending")?;
    match files.read(&place) {
        Ok(Some(found)) => Ok(String::from_utf8(found.bytes).map_err(|_| "text")?),
        Ok(None) => Ok(String::from_str(alloc, "-")?),
        Err(_) => Ok(String::from_str(alloc, "files")?),
    }
}

fn keep(
    alloc: Global,
    files: &mut MemFiles,
    names: &[&str],
    before: Option<&[u8]>,
) -> Result<String, Fail> {
    let names = paths(alloc, names)?;
    if keep_names(alloc, files, names.as_slice(), before).is_err() {
        return Err("kept")?;
    }
    pending_text(alloc, files)
}

#[test]
fn a_refused_build_keeps_its_names(rt: HostRuntime) -> Result<(), Fail> {
    let alloc = rt.alloc();
    let mut files = files(alloc, false, None, None)?;
    let said = keep(alloc, &mut files, &[], None)?;
    assert!(rt; said.as_str() == "-" && files.log().len() == 1);
    let said = keep(alloc, &mut files, &["src/b", "src/a"], None)?;
    assert!(rt; said.as_str() == "src/a\nsrc/b\n");
    let calls = files.log().len();
    // The same names once more: the read of this test alone is added.
    let said = keep(
        alloc,
        &mut files,
        &["src/a", "src/b"],
        Some(b"src/a\nsrc/b\n"),
    )?;
    assert!(rt; said.as_str() == "src/a\nsrc/b\n" && files.log().len() == calls.saturating_add(1));
    Ok(())
}

// The plan for the empty store and a held file `out/a`, where `out/b` is made.
fn plan(alloc: Global, text: &[u8]) -> Result<Plan, Fail> {
    let own = OwnFiles {
        store: empty_store(alloc)?,
        pending: Some(Vec::from_slice(alloc, b"src/a\n")?),
    };
    let mut held = Held::new(alloc);
    held.wrote(&path(alloc, "out/a")?, hash_of(b"a"))?;
    let mut contents = Vec::new(alloc);
    let made = path(alloc, "out/b")?;
    let text = Vec::from_slice(alloc, text)?;
    if made.under_out() {
        contents.push((made, Vec::from_slice(alloc, b"b")?))?;
        return Ok(changes_plan(alloc, &own, &held, &[], contents, text)?);
    }
    Err("out")?
}

#[test]
fn an_accepted_build_writes_what_differs(rt: HostRuntime) -> Result<(), Fail> {
    let alloc = rt.alloc();
    let store = empty_store(alloc)?;
    let same = plan(alloc, store.as_slice())?;
    assert!(rt; same.removals.len() == 1 && same.writes.len() == 1 && same.store.is_none());
    let other = plan(alloc, b"other")?;
    assert!(rt; other.store.is_some());
    let mut files = files(alloc, false, None, Some(b"src/a\n"))?;
    if other.is_sound() {
        let done = commit_plan(&mut files, &other).is_ok();
        assert!(rt; done);
    }
    let said = pending_text(alloc, &mut files)?;
    assert!(rt; said.as_str() == "-");
    Ok(())
}

// How many digests a store of version 1 of the pipeline `old` is given, where this pipeline is there.
fn given(alloc: Global, pipeline: &[u8]) -> Result<usize, Fail> {
    let mut files = MemFiles::new(alloc);
    files.put(&path(alloc, "pie.pipeline")?, pipeline, 1)?;
    let mut digests = Vec::new(alloc);
    digests.push((Text::new(alloc, "f")?, hash_of(b"f")))?;
    let mut image = StoreImage {
        version: 1,
        pipeline: Some(hash_of(b"old")),
        funcs: Funcs::new(Vec::new(alloc)),
        roots: Tasks::new(Vec::new(alloc)),
        rows: Rows::new(Vec::new(alloc)),
    };
    if put_digests(alloc, &mut files, &mut image, digests.as_slice()).is_err() {
        return Err("digests")?;
    }
    Ok(image.funcs.as_slice().len())
}

#[test]
fn a_store_of_this_pipeline_gets_its_digests(rt: HostRuntime) -> Result<(), Fail> {
    let alloc = rt.alloc();
    let old = given(alloc, b"old")?;
    let new = given(alloc, b"new")?;
    assert!(rt; old == 1 && new == 0);
    Ok(())
}
