//! The commit over files in memory.
use crate::texts::path;
use pie_base::Path;
use pie_commit::{Pending, Plan, commit};
use pie_files::{Files, Found, MemFiles, Pick};
use std::alloc::Global;
use std::test::Fail;

// A file joins those that are written.
fn push_write(
    alloc: Global,
    writes: &mut Vec<(Path, Vec<u8>)>,
    at: &str,
    bytes: &[u8],
) -> Result<(), Fail> {
    let bytes = bytes.to_vec(alloc)?;
    writes.push((path(alloc, at)?, bytes))?;
    Ok(())
}

// The files `out/a` and `out/b`.
fn writes(alloc: Global) -> Result<Vec<(Path, Vec<u8>)>, Fail> {
    let mut writes = Vec::new(alloc);
    push_write(alloc, &mut writes, "out/a", b"A\nfin")?;
    push_write(alloc, &mut writes, "out/b", b"Bfin")?;
    Ok(writes)
}

// A plan that removes `out/z`, writes `out/a` and `out/b`, drops the pending names, and stores six bytes.
fn plan(alloc: Global) -> Result<Plan, Fail> {
    let removals = vec![in alloc; path(alloc, "out/z")?]?;
    let writes = writes(alloc)?;
    let store = b"stored".to_vec(alloc)?;
    Ok(Plan::new(alloc, removals, writes, Pending::Drop, Some(store))?)
}

fn put(alloc: Global, files: &mut MemFiles, at: &str, bytes: &[u8], mark: u64) -> Result<(), Fail> {
    let at = path(alloc, at)?;
    files.put(&at, bytes, mark)?;
    Ok(())
}

// The files before it.
fn fill(alloc: Global, files: &mut MemFiles) -> Result<(), Fail> {
    put(alloc, files, "out/a", b"x", 70)?;
    put(alloc, files, "out/z", b"z", 71)?;
    put(alloc, files, ".pie/pending", b"a\n", 72)?;
    put(alloc, files, ".pie/store", b"old", 73)
}

fn len_of(found: &Option<Found>) -> Option<usize> {
    match found {
        Some(found) => Some(found.bytes.len()),
        None => None,
    }
}

fn len_at(alloc: Global, files: &mut MemFiles, at: &str) -> Result<Option<usize>, Fail> {
    let at = path(alloc, at)?;
    let found = files.read(&at)?;
    Ok(len_of(&found))
}

// The length of the file at a path, or `-` where there is none.
fn tell_len(alloc: Global, files: &mut MemFiles, at: &str, said: &mut String) -> Result<(), Fail> {
    match len_at(alloc, files, at)? {
        Some(len) => said.push_str(format!(in alloc; "{len} ")?.as_str())?,
        None => said.push_str("- ")?,
    }
    Ok(())
}

// The marker, the three files under `out/`, the pending names and the store.
fn shown(alloc: Global, files: &mut MemFiles) -> Result<String, Fail> {
    let mut said = String::new(alloc);
    for at in [
        ".pie/open",
        "out/a",
        "out/b",
        "out/z",
        ".pie/pending",
        ".pie/store",
    ] {
        tell_len(alloc, files, at, &mut said)?;
    }
    Ok(said)
}

// Commits the plan where it is sound.
fn committed(files: &mut MemFiles, plan: &Plan) -> Result<bool, Fail> {
    if !plan.is_sound() {
        return Err("not sound")?;
    }
    Ok(commit(files, plan).is_ok())
}

// What a crash leaves after a commit whose call with this number fails.
fn stopped(alloc: Global, files: &mut MemFiles, call: u64, pick: Pick) -> Result<String, Fail> {
    fill(alloc, files)?;
    files.fail_at(&[call])?;
    let _done = committed(files, &plan(alloc)?)?;
    shown(alloc, &mut files.crash(pick)?)
}

// Whether the plan is done in ten calls, after the four that put the files.
fn is_done(alloc: Global, files: &mut MemFiles) -> Result<bool, Fail> {
    fill(alloc, files)?;
    let before = files.log().len();
    let done = committed(files, &plan(alloc)?)?;
    Ok(done && before == 4 && files.log().len() == 14)
}

#[test]
fn a_commit_does_its_plan_in_ten_calls(rt: HostRuntime) -> Result<(), Fail> {
    let alloc = rt.alloc();
    let mut files = MemFiles::new(alloc);
    assert!(rt; is_done(alloc, &mut files)?);
    let shown = shown(alloc, &mut files)?;
    assert!(rt; shown.as_str() == "- 5 4 - - 6 ", "{shown}");
    Ok(())
}

// Whether a plan is done without a call.
fn is_done_at_once(alloc: Global, files: &mut MemFiles, plan: &Plan) -> Result<bool, Fail> {
    fill(alloc, files)?;
    let before = files.log().len();
    let done = committed(files, plan)?;
    Ok(done && files.log().len() == before)
}

#[test]
fn an_empty_plan_makes_no_call(rt: HostRuntime) -> Result<(), Fail> {
    let alloc = rt.alloc();
    let plan = Plan::new(alloc, Vec::new(alloc), Vec::new(alloc), Pending::Keep, None)?;
    assert!(rt; is_done_at_once(alloc, &mut MemFiles::new(alloc), &plan)?);
    Ok(())
}

#[test]
fn a_stop_at_each_call_leaves_the_marker_or_a_whole_directory(rt: HostRuntime) -> Result<(), Fail> {
    let alloc = rt.alloc();
    let rows = [
        (1, Pick::All, "- 1 - 1 2 3 "),
        (2, Pick::All, "0 1 - 1 2 3 "),
        (2, Pick::Nothing, "- 1 - 1 2 3 "),
        (3, Pick::Nothing, "0 1 - 1 2 3 "),
        (5, Pick::All, "0 5 - - 2 3 "),
        (5, Pick::Torn, "0 2 - - 2 3 "),
        (5, Pick::Nothing, "0 1 - 1 2 3 "),
        (8, Pick::All, "0 5 4 - - 6 "),
        (8, Pick::Torn, "0 2 2 - - 3 "),
        (9, Pick::Nothing, "0 5 4 - - 6 "),
        (10, Pick::All, "- 5 4 - - 6 "),
        (10, Pick::Nothing, "0 5 4 - - 6 "),
        (11, Pick::Nothing, "- 5 4 - - 6 "),
    ];
    for (call, pick, wanted) in rows {
        let shown = stopped(alloc, &mut MemFiles::new(alloc), call, pick)?;
        assert!(rt; shown.as_str() == wanted, "call {call}: {shown}");
    }
    Ok(())
}
