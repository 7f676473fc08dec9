//! The objects in memory, each call once. What a few calls answer is told as one text, by functions that borrow the files.
use pie_base::Path;
use pie_files::{
    Call, Files, FilesError, Found, Logged, MemFiles, MemSink, MemSource, Pick, Sink, SinkError,
    Source, SourceError, SureFiles, Within,
};
use std::alloc::Global;
use std::test::Fail;

fn path(alloc: Global, text: &str) -> Result<Path, Fail> {
    Ok(Path::read(alloc, text).map_err(|_| "path")?)
}

fn joined(alloc: Global, paths: &[Path]) -> Result<String, Fail> {
    let mut text = String::new(alloc);
    for path in paths {
        text.push_str(path.as_str())?;
        text.push_str(" ")?;
    }
    Ok(text)
}

// The length and the mark of a file, or nothing where there is none.
fn found_text(alloc: Global, found: &Option<Found>) -> Result<String, Fail> {
    match found {
        Some(found) => {
            let len = found.bytes.len();
            let mark = found.mark;
            Ok(format!(in alloc; "{len}:{mark}")?)
        }
        None => Ok(String::new(alloc)),
    }
}

// The length and the mark of the file at a path.
fn shown<F: Files>(alloc: Global, files: &mut F, at: &str) -> Result<String, Fail> {
    let path = path(alloc, at)?;
    let found = files.read(&path)?;
    found_text(alloc, &found)
}

fn written<F: Files>(alloc: Global, files: &mut F, at: &str, bytes: &[u8]) -> Result<(), Fail> {
    let path = path(alloc, at)?;
    files.write(&path, bytes)?;
    Ok(())
}

fn removed<F: Files>(alloc: Global, files: &mut F, at: &str) -> Result<(), Fail> {
    let path = path(alloc, at)?;
    files.remove(&path)?;
    Ok(())
}

// Puts three files below `src`, one of them by a write.
fn fill(alloc: Global, files: &mut SureFiles) -> Result<(), Fail> {
    let far = path(alloc, "src/b/c")?;
    files.put(&far, b"x", 70)?;
    let near = path(alloc, "src/b-d")?;
    files.put(&near, b"yy", 71)?;
    written(alloc, files, "src/a", b"zzz")
}

fn listings(alloc: Global, files: &mut SureFiles) -> Result<String, Fail> {
    fill(alloc, files)?;
    let src = path(alloc, "src")?;
    let names = joined(alloc, &files.names(&src)?)?;
    let all = joined(alloc, &files.all_under(&src)?)?;
    Ok(format!(in alloc; "{names}| {all}")?)
}

#[test]
fn files_in_memory_list_their_entries_in_path_order(rt: HostRuntime) -> Result<(), Fail> {
    let told = listings(rt.alloc(), &mut SureFiles::new(rt.alloc()))?;
    assert!(rt; told.as_str() == "src/a src/b src/b-d | src/a src/b-d src/b/c ");
    Ok(())
}

fn ends_with_a_read(files: &SureFiles) -> bool {
    matches!(files.log().last(), Some(Logged::Asked(Call::Read(_))))
}

fn history(alloc: Global, files: &mut SureFiles) -> Result<String, Fail> {
    fill(alloc, files)?;
    let put = shown(alloc, files, "src/b/c")?;
    let wrote = shown(alloc, files, "src/a")?;
    removed(alloc, files, "src/a")?;
    files.sync()?;
    let gone = shown(alloc, files, "src/a")?;
    let (calls, read) = (files.log().len(), ends_with_a_read(files));
    Ok(format!(in alloc; "{put} {wrote} {gone} {calls} {read}")?)
}

#[test]
fn files_in_memory_hold_and_log(rt: HostRuntime) -> Result<(), Fail> {
    let told = history(rt.alloc(), &mut SureFiles::new(rt.alloc()))?;
    assert!(rt; told.as_str() == "1:70 3:1  8 true");
    Ok(())
}

fn within_text(found: &Within) -> &'static str {
    match found {
        Within::Whole(found) => {
            if found.bytes.as_slice() == b"abc".as_slice() {
                "whole"
            } else {
                "other"
            }
        }
        Within::Absent => "absent",
        Within::Long => "long",
    }
}

// What is found of `src/page`, which holds `abc`, up to so many bytes.
fn within<F: Files>(files: &mut F, page: &Path, most: usize) -> Result<&'static str, FilesError> {
    let found = files.read_within(page, most)?;
    Ok(within_text(&found))
}

fn lengths(alloc: Global, files: &mut SureFiles) -> Result<String, Fail> {
    let page = path(alloc, "src/page")?;
    let other = path(alloc, "src/pag")?;
    files.put(&page, b"abc", 1)?;
    let whole = within(files, &page, 3)?;
    let long = within(files, &page, 2)?;
    let absent = within(files, &other, 3)?;
    let calls = files.log().len();
    Ok(format!(in alloc; "{whole} {long} {absent} {calls}")?)
}

#[test]
fn a_file_is_read_whole_up_to_the_wanted_length(rt: HostRuntime) -> Result<(), Fail> {
    let told = lengths(rt.alloc(), &mut SureFiles::new(rt.alloc()))?;
    assert!(rt; told.as_str() == "whole long absent 4");
    Ok(())
}

fn is_digest_of_abc(digest: &Option<[u8; 32]>) -> bool {
    match digest {
        Some(digest) => digest[..4] == [0xba, 0x78, 0x16, 0xbf] && digest[31] == 0xad,
        None => false,
    }
}

fn looks(alloc: Global, files: &mut SureFiles) -> Result<String, Fail> {
    let page = path(alloc, "src/page")?;
    let other = path(alloc, "src")?;
    files.put(&page, b"abc", 1)?;
    let (there, not) = (files.exists(&page)?, files.exists(&other)?);
    let digest = is_digest_of_abc(&files.digest(&page)?);
    let none = files.digest(&other)?.is_none() && files.mark(&other)?.is_none();
    let mark = files.mark(&page)?.unwrap_or(0);
    let read = ends_with_a_read(files);
    Ok(format!(in alloc; "{there} {not} {digest} {none} {mark} {read}")?)
}

#[test]
fn a_file_is_looked_for_digested_and_marked_without_its_bytes(rt: HostRuntime) -> Result<(), Fail> {
    let told = looks(rt.alloc(), &mut SureFiles::new(rt.alloc()))?;
    assert!(rt; told.as_str() == "true false true true 1 true");
    Ok(())
}

fn failed_looks(alloc: Global, files: &mut MemFiles) -> Result<String, Fail> {
    let page = path(alloc, "src/page")?;
    files.put(&page, b"abc", 1)?;
    files.fail_at(&[1, 2, 3, 4])?;
    let within_failed = within(files, &page, 3) == Err(FilesError::Failed);
    let exists_failed = files.exists(&page) == Err(FilesError::Failed);
    let digest_failed = files.digest(&page) == Err(FilesError::Failed)
        && files.mark(&page) == Err(FilesError::Failed);
    let there = files.exists(&page)?;
    let digest = is_digest_of_abc(&files.digest(&page)?);
    let whole = within(files, &page, 3)?;
    Ok(format!(in alloc;
        "{within_failed} {exists_failed} {digest_failed} {there} {digest} {whole}"
    )?)
}

#[test]
fn each_look_that_is_told_to_fails(rt: HostRuntime) -> Result<(), Fail> {
    let told = failed_looks(rt.alloc(), &mut MemFiles::new(rt.alloc()))?;
    assert!(rt; told.as_str() == "true true true true true whole");
    Ok(())
}

fn failed_write(alloc: Global, files: &mut MemFiles) -> Result<String, Fail> {
    let page = path(alloc, "out/page")?;
    files.fail_at(&[2])?;
    files.write(&page, b"one")?;
    let failed = files.write(&page, b"twoo") == Err(FilesError::Failed);
    let before = shown(alloc, files, "out/page")?;
    files.write(&page, b"three")?;
    let after = shown(alloc, files, "out/page")?;
    let things = files.log().len();
    let told = matches!(
        files.log().get(2),
        Some(Logged::Failed(Call::Write(_, None)))
    );
    Ok(format!(in alloc; "{failed} {before} {after} {things} {told}")?)
}

#[test]
fn a_call_that_is_told_to_fails_and_changes_nothing(rt: HostRuntime) -> Result<(), Fail> {
    let told = failed_write(rt.alloc(), &mut MemFiles::new(rt.alloc()))?;
    assert!(rt; told.as_str() == "true 3:1 5:2 6 true");
    Ok(())
}

// Two files that outlast a crash; then one is written again and the other removed.
fn leave_unsynced(alloc: Global, files: &mut MemFiles) -> Result<(), Fail> {
    written(alloc, files, "out/a", b"old")?;
    written(alloc, files, "out/b", b"other")?;
    files.sync()?;
    written(alloc, files, "out/a", b"newer")?;
    removed(alloc, files, "out/b")?;
    let source = path(alloc, "src/s")?;
    files.put(&source, b"s", 70)?;
    Ok(())
}

// The three files.
fn three(alloc: Global, files: &mut MemFiles) -> Result<String, Fail> {
    let a = shown(alloc, files, "out/a")?;
    let b = shown(alloc, files, "out/b")?;
    let s = shown(alloc, files, "src/s")?;
    Ok(format!(in alloc; "{a} {b} {s}")?)
}

// The three files after a crash.
fn left(alloc: Global, files: &mut MemFiles, pick: Pick) -> Result<String, Fail> {
    leave_unsynced(alloc, files)?;
    three(alloc, &mut files.crash(pick)?)
}

#[test]
fn a_crash_leaves_what_is_picked_since_the_last_sync(rt: HostRuntime) -> Result<(), Fail> {
    let alloc = rt.alloc();
    let all = left(alloc, &mut MemFiles::new(alloc), Pick::All)?;
    let nothing = left(alloc, &mut MemFiles::new(alloc), Pick::Nothing)?;
    let torn = left(alloc, &mut MemFiles::new(alloc), Pick::Torn)?;
    assert!(rt;
        all.as_str() == "5:3  1:70"
            && nothing.as_str() == "3:1 5:2 1:70"
            && torn.as_str() == "2:3  1:70"
    );
    Ok(())
}

// Writes one more file, and has another crash.
fn crash_again(alloc: Global, files: &mut MemFiles) -> Result<String, Fail> {
    written(alloc, files, "out/c", b"c")?;
    let mut again = files.crash(Pick::Nothing)?;
    written_last(alloc, &mut again)
}

fn written_last(alloc: Global, files: &mut MemFiles) -> Result<String, Fail> {
    let a = shown(alloc, files, "out/a")?;
    let c = shown(alloc, files, "out/c")?;
    Ok(format!(in alloc; "{a} {c}")?)
}

fn crashed_twice(alloc: Global, files: &mut MemFiles) -> Result<String, Fail> {
    leave_unsynced(alloc, files)?;
    crash_again(alloc, &mut files.crash(Pick::Torn)?)
}

#[test]
fn what_a_crash_left_is_safe_from_the_next_one(rt: HostRuntime) -> Result<(), Fail> {
    let told = crashed_twice(rt.alloc(), &mut MemFiles::new(rt.alloc()))?;
    assert!(rt; told.as_str() == "2:3 ");
    Ok(())
}

// Takes two bytes at a time, with a failure at the second call.
fn taken(alloc: Global, input: &mut MemSource) -> Result<bool, Fail> {
    input.fail_at(alloc, &[2])?;
    let mut buf = [0u8; 2];
    let first = input.take(&mut buf) == Ok(2) && buf == *b"ab";
    let second = input.take(&mut buf) == Err(SourceError::Failed);
    Ok(first && second && input.take(&mut buf) == Ok(1) && input.take(&mut buf) == Ok(0))
}

// Puts two bytes at a time, with a failure at the second call.
fn put(alloc: Global, out: &mut MemSink) -> Result<bool, Fail> {
    out.fail_at(alloc, &[2])?;
    let first = out.put(b"ab") == Ok(2);
    let second = out.put(b"cd") == Err(SinkError::Failed);
    let third = out.put(b"ef") == Ok(2);
    Ok(first && second && third && out.bytes() == b"abef".as_slice())
}

#[test]
fn streams_in_memory_give_and_take_in_order(rt: HostRuntime) -> Result<(), Fail> {
    let alloc = rt.alloc();
    let taken = taken(alloc, &mut MemSource::new(alloc, b"abc".to_vec(alloc)?))?;
    let put = put(alloc, &mut MemSink::new(alloc))?;
    assert!(rt; taken && put);
    Ok(())
}
