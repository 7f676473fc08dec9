//! The adapters of the real outside, over new directories.
//! A test is a list of calls, each with the wanted answer; the first that answers otherwise is told.
use pie_base::Path;
use pie_disk::{DirFiles, StdSink, StdSource};
use pie_files::{Files, FilesError, Found, Sink, Source, Within};
use std::alloc::Global;
use std::fs::File;
use std::os::unix::fs::symlink;
use std::test::Fail;
use std::time::{SystemTime, UNIX_EPOCH};
use std::{env, fs};

// A new directory for a test, named by itself and the time.
fn scratch(rt: HostRuntime, test: &str) -> Result<String, Fail> {
    let alloc = rt.alloc();
    let now = SystemTime::now(&rt)?;
    let since = now.duration_since(UNIX_EPOCH).map_err(|_| "clock")?;
    let secs = since.as_secs();
    let nanos = since.subsec_nanos();
    let top = env::temp_dir(&rt)?;
    let top = top.as_path().to_str().ok_or("temp")?;
    let root = format!(in alloc; "{top}/pie_disk_{test}_{secs}_{nanos}")?;
    fs::create_dir_all(&rt, root.as_str())?;
    Ok(root)
}

// Makes files that hold their own names, and the directories above them.
fn make(rt: HostRuntime, root: &str, names: &[&str]) -> Result<(), Fail> {
    for name in names {
        let place = format!(in rt.alloc(); "{root}/{name}")?;
        if let Some((dir, _)) = place.as_str().rsplit_once('/') {
            fs::create_dir_all(&rt, dir)?;
        }
        fs::write(&rt, place.as_str(), *name)?;
    }
    Ok(())
}

fn link(rt: HostRuntime, root: &str, target: &str, name: &str) -> Result<(), Fail> {
    symlink(
        &rt,
        target,
        format!(in rt.alloc(); "{root}/{name}")?.as_str(),
    )?;
    Ok(())
}

fn path(alloc: Global, text: &str) -> Result<Path, Fail> {
    Ok(Path::read(alloc, text).map_err(|_| "path")?)
}

fn stands(rt: HostRuntime, root: &str, name: &str) -> Result<bool, Fail> {
    let place = format!(in rt.alloc(); "{root}/{name}")?;
    Ok(fs::exists(&rt, place.as_str())?)
}

// Whether a file at a place holds this text; the system follows links.
fn holds(rt: HostRuntime, root: &str, name: &str, text: &str) -> Result<bool, Fail> {
    let place = format!(in rt.alloc(); "{root}/{name}")?;
    if !fs::exists(&rt, place.as_str())? {
        return Ok(false);
    }
    Ok(fs::read(&rt, place.as_str())?.as_slice() == text.as_bytes())
}

#[test]
fn the_standard_streams_take_what_is_empty(rt: HostRuntime) {
    let mut input = StdSource::new(rt);
    assert!(rt; input.take(&mut []) == Ok(0));
    let mut out = StdSink::new(rt);
    assert!(rt; out.put(b"") == Ok(0));
    assert!(rt; out.put(b"\n") == Ok(1));
}

/// A call at a name, or a look past the adapter at what the disk has there.
#[derive(Clone, Copy)]
enum Call<'a> {
    Names,
    AllUnder,
    Read,
    Within(usize),
    Exists,
    Digest,
    Mark,
    Write(&'a str),
    Remove,
    Sync,
    Stands,
    Holds(&'a str),
}

fn word(error: &FilesError) -> &'static str {
    match error {
        FilesError::Failed => "failed",
        FilesError::OutOfMemory => "memory",
    }
}

fn done(answer: &Result<(), FilesError>) -> &'static str {
    match answer {
        Ok(()) => "done",
        Err(error) => word(error),
    }
}

fn truth(answer: &Result<bool, FilesError>) -> &'static str {
    match answer {
        Ok(true) => "yes",
        Ok(false) => "no",
        Err(error) => word(error),
    }
}

// What a file holds.
fn contents(answer: &Result<Option<Found>, FilesError>) -> &str {
    match answer {
        Ok(Some(found)) => std::str::from_utf8(found.bytes.as_slice()).unwrap_or("no text"),
        Ok(None) => "none",
        Err(error) => word(error),
    }
}

fn length(answer: &Result<Within, FilesError>) -> &'static str {
    match answer {
        Ok(Within::Whole(_)) => "whole",
        Ok(Within::Absent) => "absent",
        Ok(Within::Long) => "long",
        Err(error) => word(error),
    }
}

fn digest(answer: &Result<Option<[u8; 32]>, FilesError>) -> &'static str {
    match answer {
        Ok(Some([0xba, 0x78, .., 0xad])) => "of abc",
        Ok(Some(_)) => "another",
        Ok(None) => "none",
        Err(error) => word(error),
    }
}

fn mark(answer: &Result<Option<u64>, FilesError>) -> &'static str {
    match answer {
        Ok(Some(0)) => "zero",
        Ok(Some(_)) => "some",
        Ok(None) => "none",
        Err(error) => word(error),
    }
}

fn joined(alloc: Global, paths: &[Path]) -> Result<String, Fail> {
    let mut text = String::new(alloc);
    for path in paths {
        text.push_str(path.as_str())?;
        text.push_str(" ")?;
    }
    Ok(text)
}

fn paths(alloc: Global, answer: &Result<Vec<Path>, FilesError>) -> Result<String, Fail> {
    match answer {
        Ok(paths) => joined(alloc, paths.as_slice()),
        Err(error) => Ok(String::from_str(alloc, word(error))?),
    }
}

fn looked(rt: HostRuntime, root: &str, call: Call, name: &str) -> Result<&'static str, Fail> {
    match call {
        Call::Holds(text) => Ok(truth(&Ok(holds(rt, root, name, text)?))),
        _ => Ok(truth(&Ok(stands(rt, root, name)?))),
    }
}

// The answer to a call, as text.
fn answer(alloc: Global, files: &mut DirFiles, call: Call, path: &Path) -> Result<String, Fail> {
    match call {
        Call::Names => paths(alloc, &files.names(path)),
        Call::AllUnder => paths(alloc, &files.all_under(path)),
        Call::Read => Ok(String::from_str(alloc, contents(&files.read(path)))?),
        _ => Ok(String::from_str(alloc, short(files, call, path))?),
    }
}

fn short(files: &mut DirFiles, call: Call, path: &Path) -> &'static str {
    match call {
        Call::Within(most) => length(&files.read_within(path, most)),
        Call::Exists => truth(&files.exists(path)),
        Call::Digest => digest(&files.digest(path)),
        Call::Mark => mark(&files.mark(path)),
        Call::Write(text) => done(&files.write(path, text.as_bytes())),
        Call::Remove => done(&files.remove(path)),
        _ => done(&files.sync()),
    }
}

fn told(
    rt: HostRuntime,
    root: &str,
    files: &mut DirFiles,
    call: Call,
    name: &str,
) -> Result<String, Fail> {
    match call {
        Call::Stands | Call::Holds(_) => {
            Ok(String::from_str(rt.alloc(), looked(rt, root, call, name)?)?)
        }
        _ => answer(rt.alloc(), files, call, &path(rt.alloc(), name)?),
    }
}

// The first call that doesn't answer what is wanted, and its answer; nothing where all do.
fn wrong(
    rt: HostRuntime,
    root: &str,
    files: &mut DirFiles,
    calls: &[(Call, &str, &str)],
) -> Result<String, Fail> {
    for (number, (call, name, wanted)) in calls.iter().enumerate() {
        let found = told(rt, root, files, *call, name)?;
        if found.as_str() != *wanted {
            return Ok(format!(in rt.alloc(); "call {number} at {name}: {found}")?);
        }
    }
    Ok(String::new(rt.alloc()))
}

// The same over the directory, as one that only looks has it.
fn wrong_in(rt: HostRuntime, root: &str, calls: &[(Call, &str, &str)]) -> Result<String, Fail> {
    wrong(rt, root, &mut DirFiles::under(rt, root)?, calls)
}

// A name that is no segment, and a directory without files.
fn add_oddities(rt: HostRuntime, root: &str) -> Result<(), Fail> {
    let alloc = rt.alloc();
    fs::write(&rt, format!(in alloc; "{root}/a/e\tf")?.as_str(), b"z")?;
    fs::create_dir_all(&rt, format!(in alloc; "{root}/a/g/h")?.as_str())?;
    Ok(())
}

fn list_once(rt: HostRuntime, root: &str, files: &mut DirFiles) -> Result<String, Fail> {
    make(rt, root, &["a/b", "d/e"])?;
    let first = wrong(rt, root, files, &[(Call::Names, "a", "a/b ")])?;
    make(rt, root, &["a/c"])?;
    let again = [
        (Call::Names, "a", "a/b "),
        (Call::Names, "d", "d/e "),
        (Call::Write("x"), "out/f", "done"),
        (Call::Names, "a", "a/b a/c "),
        (Call::Remove, "a/b", "done"),
        (Call::Names, "a", "a/c "),
    ];
    let second = wrong(rt, root, files, again.as_slice())?;
    Ok(format!(in rt.alloc(); "{first}{second}")?)
}

// A directory of more names than the system tells at once, and its listing.
fn make_wide(rt: HostRuntime, root: &str) -> Result<String, Fail> {
    let alloc = rt.alloc();
    let mut wanted = String::new(alloc);
    for n in 100..400 {
        let name = format!(in alloc; "a/b/{n}")?;
        make(rt, root, &[name.as_str()])?;
        wanted.push_str(name.as_str())?;
        wanted.push_str(" ")?;
    }
    Ok(wanted)
}

#[test]
fn a_directory_of_many_names_is_listed_whole(rt: HostRuntime) -> Result<(), Fail> {
    let root = scratch(rt, "wide")?;
    let wanted = make_wide(rt, root.as_str())?;
    let calls = [
        (Call::Names, "a", "a/b "),
        (Call::Names, "a/b", wanted.as_str()),
    ];
    let wrong = wrong_in(rt, root.as_str(), calls.as_slice())?;
    fs::remove_dir_all(&rt, root.as_str())?;
    assert!(rt; wrong.as_str() == "");
    Ok(())
}

// Puts this text into a file, past the adapter.
fn put(rt: HostRuntime, root: &str, name: &str, text: &str) -> Result<(), Fail> {
    fs::write(&rt, format!(in rt.alloc(); "{root}/{name}")?.as_str(), text)?;
    Ok(())
}

// Reads a file that changes after it was listed by this call.
fn read_changed(rt: HostRuntime, root: &str, call: Call) -> Result<String, Fail> {
    make(rt, root, &["a/b"])?;
    let files = &mut DirFiles::under(rt, root)?;
    let listed = wrong(rt, root, files, &[(call, "a", "a/b ")])?;
    put(rt, root, "a/b", "a longer text")?;
    let longer = [
        (Call::Read, "a/b", "a longer text"),
        (Call::Within(12), "a/b", "long"),
        (Call::Within(13), "a/b", "whole"),
    ];
    let longer = wrong(rt, root, files, longer.as_slice())?;
    put(rt, root, "a/b", "x")?;
    let shorter = wrong(rt, root, files, &[(Call::Read, "a/b", "x")])?;
    put(rt, root, "a/b", "abc")?;
    let other = wrong(rt, root, files, &[(Call::Digest, "a/b", "of abc")])?;
    fs::remove_file(&rt, format!(in rt.alloc(); "{root}/a/b")?.as_str())?;
    let gone = wrong(rt, root, files, &[(Call::Read, "a/b", "none")])?;
    Ok(format!(in rt.alloc(); "{listed}{longer}{shorter}{other}{gone}")?)
}

// A directory that was listed gives way to a file.
fn list_replaced(rt: HostRuntime, root: &str, files: &mut DirFiles) -> Result<String, Fail> {
    make(rt, root, &["a/b/c"])?;
    let listed = wrong(rt, root, files, &[(Call::Names, "a", "a/b ")])?;
    fs::remove_dir_all(&rt, format!(in rt.alloc(); "{root}/a/b")?.as_str())?;
    make(rt, root, &["a/b"])?;
    let after = [(Call::Names, "a/b", ""), (Call::Read, "a/b", "a/b")];
    let after = wrong(rt, root, files, after.as_slice())?;
    Ok(format!(in rt.alloc(); "{listed}{after}")?)
}

#[test]
fn a_directory_that_gave_way_to_a_file_lists_nothing(rt: HostRuntime) -> Result<(), Fail> {
    let root = scratch(rt, "replaced")?;
    let mut files = DirFiles::under(rt, root.as_str())?;
    let wrong = list_replaced(rt, root.as_str(), &mut files)?;
    fs::remove_dir_all(&rt, root.as_str())?;
    assert!(rt; wrong.as_str() == "");
    Ok(())
}

#[test]
fn a_file_is_read_whole_that_changes_after_its_directory_was_listed(
    rt: HostRuntime,
) -> Result<(), Fail> {
    let root = scratch(rt, "changed")?;
    let beside = read_changed(rt, root.as_str(), Call::Names)?;
    let below = read_changed(rt, root.as_str(), Call::AllUnder)?;
    fs::remove_dir_all(&rt, root.as_str())?;
    assert!(rt; beside.as_str() == "");
    assert!(rt; below.as_str() == "");
    Ok(())
}

#[test]
fn a_directory_is_listed_once_until_something_is_written(rt: HostRuntime) -> Result<(), Fail> {
    let root = scratch(rt, "once")?;
    let mut files = DirFiles::under(rt, root.as_str())?;
    let wrong = list_once(rt, root.as_str(), &mut files)?;
    fs::remove_dir_all(&rt, root.as_str())?;
    assert!(rt; wrong.as_str() == "");
    Ok(())
}

fn read_as_paths(rt: HostRuntime, root: &str, files: &mut DirFiles) -> Result<String, Fail> {
    let before = [
        (Call::Write("x"), "a/b/c", "done"),
        (Call::Write("y"), "a/d", "done"),
        (Call::Sync, "a", "done"),
    ];
    let after = [
        (Call::Names, "a", "a/b a/d "),
        (Call::AllUnder, "a", "a/b/c a/d "),
        (Call::Names, "a/b/c", ""),
        (Call::Read, "a/b/c", "x"),
        (Call::Read, "a", "none"),
        (Call::Read, "a/b/c/d", "none"),
        (Call::Write("x"), "a/b/c/d", "failed"),
        (Call::Remove, "a/b/c/d", "done"),
        (Call::Remove, "a", "done"),
        (Call::Remove, "a/b/c", "done"),
        (Call::Sync, "a", "done"),
        (Call::Stands, "a/b", "no"),
        (Call::Stands, "a/d", "yes"),
    ];
    let first = wrong(rt, root, files, before.as_slice())?;
    add_oddities(rt, root)?;
    let then = wrong(rt, root, files, after.as_slice())?;
    Ok(format!(in rt.alloc(); "{first}{then}")?)
}

#[test]
fn a_real_directory_reads_as_its_files_with_paths(rt: HostRuntime) -> Result<(), Fail> {
    let root = scratch(rt, "paths")?;
    let at = root.as_str();
    let wrong = read_as_paths(rt, at, &mut DirFiles::under(rt, at)?)?;
    fs::remove_dir_all(&rt, at)?;
    assert!(rt; wrong.is_empty(), "{wrong}");
    Ok(())
}

#[test]
fn a_link_under_out_is_listed_and_not_followed(rt: HostRuntime) -> Result<(), Fail> {
    // A removal below a link removes nothing, and one of the link takes the link.
    let calls = [
        (Call::AllUnder, "out", "out/b out/c out/up "),
        (Call::Read, "out/b", "none"),
        (Call::Exists, "out/up/src/a", "no"),
        (Call::Remove, "out/up/src/a", "done"),
        (Call::Remove, "out/b", "done"),
        (Call::Write("new"), "out/up/src/a", "done"),
        (Call::AllUnder, "out", "out/c out/up/src/a "),
        (Call::Holds("src/a"), "src/a", "yes"),
    ];
    let root = scratch(rt, "links")?;
    let at = root.as_str();
    make(rt, at, &["src/a", "out/c"])?;
    link(rt, at, "..", "out/up")?;
    link(rt, at, "../src/a", "out/b")?;
    let wrong = wrong_in(rt, at, calls.as_slice())?;
    fs::remove_dir_all(&rt, at)?;
    assert!(rt; wrong.is_empty(), "{wrong}");
    Ok(())
}

#[test]
fn a_link_at_out_is_a_fault(rt: HostRuntime) -> Result<(), Fail> {
    let calls = [
        (Call::AllUnder, "out", "failed"),
        (Call::Exists, "out/a", "failed"),
        (Call::Write("new"), "out/a", "failed"),
        (Call::Remove, "out/a", "failed"),
        (Call::Holds("src/a"), "src/a", "yes"),
    ];
    let root = scratch(rt, "top")?;
    let at = root.as_str();
    make(rt, at, &["src/a"])?;
    link(rt, at, "src", "out")?;
    let wrong = wrong_in(rt, at, calls.as_slice())?;
    fs::remove_dir_all(&rt, at)?;
    assert!(rt; wrong.is_empty(), "{wrong}");
    Ok(())
}

// Links to a file, to a directory, to what holds the link, to itself and to nothing.
fn add_links(rt: HostRuntime, root: &str) -> Result<(), Fail> {
    for (target, name) in [
        ("a", "src/file"),
        ("../lib", "src/lib"),
        ("..", "src/up"),
        (".", "src/here"),
        ("round", "src/round"),
        ("nowhere", "src/none"),
    ] {
        link(rt, root, target, name)?;
    }
    Ok(())
}

#[test]
fn links_among_sources_are_followed_and_cycles_end(rt: HostRuntime) -> Result<(), Fail> {
    let calls = [
        (Call::AllUnder, "src", "src/a src/file src/lib/x "),
        (Call::Names, "src", "src/a src/file src/lib "),
        (Call::Read, "src/file", "src/a"),
        (Call::Read, "src/lib/x", "lib/x"),
        (Call::Read, "src/round", "none"),
    ];
    let root = scratch(rt, "sources")?;
    let at = root.as_str();
    make(rt, at, &["src/a", "lib/x"])?;
    add_links(rt, at)?;
    let wrong = wrong_in(rt, at, calls.as_slice())?;
    fs::remove_dir_all(&rt, at)?;
    assert!(rt; wrong.is_empty(), "{wrong}");
    Ok(())
}

// A second name, `kept`, of the file at `out/a`.
fn keep(rt: HostRuntime, root: &str) -> Result<(), Fail> {
    let place = format!(in rt.alloc(); "{root}/out/a")?;
    let kept = format!(in rt.alloc(); "{root}/kept")?;
    fs::hard_link(&rt, place.as_str(), kept.as_str())?;
    Ok(())
}

#[test]
fn a_write_replaces_what_stands_there(rt: HostRuntime) -> Result<(), Fail> {
    // A directory that holds no file gives way, and one that holds some doesn't.
    let calls = [
        (Call::Write("new"), "out/a", "done"),
        (Call::Read, "out/a", "new"),
        (Call::Holds("out/a"), "kept", "yes"),
        (Call::Write("new"), "out/b", "done"),
        (Call::Read, "out/b", "new"),
        (Call::Write("new"), "out/c", "failed"),
        (Call::Holds("out/c/d"), "out/c/d", "yes"),
    ];
    let root = scratch(rt, "writes")?;
    let at = root.as_str();
    make(rt, at, &["out/a", "out/b/x/e\tf", "out/c/d"])?;
    keep(rt, at)?;
    let wrong = wrong_in(rt, at, calls.as_slice())?;
    fs::remove_dir_all(&rt, at)?;
    assert!(rt; wrong.is_empty(), "{wrong}");
    Ok(())
}

// The name of what a build leaves that is stopped while it writes.
const LEFT: &str = "out/\u{7f}new";

// The first build has the directory, and the second hasn't.
fn while_both(
    rt: HostRuntime,
    root: &str,
    first: &mut DirFiles,
    second: &mut DirFiles,
) -> Result<String, Fail> {
    let begins = [
        (Call::Exists, "out/a", "no"),
        (Call::Holds(LEFT), LEFT, "no"),
    ];
    let begun = wrong(rt, root, first, begins.as_slice())?;
    let refused = wrong(
        rt,
        root,
        second,
        &[(Call::Write("second"), "out/a", "failed")],
    )?;
    let written = wrong(rt, root, first, &[(Call::Write("first"), "out/a", "done")])?;
    Ok(format!(in rt.alloc(); "{begun}{refused}{written}")?)
}

// The first build ends, and the second still hasn't the directory.
fn two_builds(rt: HostRuntime, root: &str) -> Result<String, Fail> {
    let mut first = Box::new(rt.alloc(), DirFiles::for_build_under(rt, root)?)?;
    let mut second = Box::new(rt.alloc(), DirFiles::for_build_under(rt, root)?)?;
    let both = while_both(rt, root, &mut first, &mut second)?;
    drop(first);
    let calls = [
        (Call::Remove, "out/a", "failed"),
        (Call::Holds("first"), "out/a", "yes"),
    ];
    let after = wrong(rt, root, &mut second, calls.as_slice())?;
    let third = third_build(rt, root)?;
    Ok(format!(in rt.alloc(); "{both}{after}{third}")?)
}

fn third_build(rt: HostRuntime, root: &str) -> Result<String, Fail> {
    let mut third = DirFiles::for_build_under(rt, root)?;
    wrong(rt, root, &mut third, &[(Call::Remove, "out/a", "done")])
}

#[test]
fn one_build_at_a_time_has_the_directory(rt: HostRuntime) -> Result<(), Fail> {
    let root = scratch(rt, "lock")?;
    let at = root.as_str();
    make(rt, at, &[LEFT])?;
    let wrong = two_builds(rt, at)?;
    fs::remove_dir_all(&rt, at)?;
    assert!(rt; wrong.is_empty(), "{wrong}");
    Ok(())
}

fn make_long(rt: HostRuntime, root: &str) -> Result<(), Fail> {
    let place = format!(in rt.alloc(); "{root}/long")?;
    File::create(&rt, place.as_str())?.set_len(5_000_000_000)?;
    Ok(())
}

#[test]
fn a_long_file_is_told_by_its_size(rt: HostRuntime) -> Result<(), Fail> {
    let calls = [
        (Call::Within(1_048_576), "long", "long"),
        (Call::Within(2), "abc", "long"),
        (Call::Within(3), "abc", "whole"),
        (Call::Read, "long", "failed"),
        (Call::Exists, "long", "yes"),
        (Call::Digest, "abc", "of abc"),
        (Call::Mark, "long", "some"),
        (Call::Mark, "none", "none"),
    ];
    let root = scratch(rt, "long")?;
    let at = root.as_str();
    make(rt, at, &["abc"])?;
    make_long(rt, at)?;
    let wrong = wrong_in(rt, at, calls.as_slice())?;
    fs::remove_dir_all(&rt, at)?;
    assert!(rt; wrong.is_empty(), "{wrong}");
    Ok(())
}
