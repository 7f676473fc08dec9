//! Opening the cache and keeping offers in it, over files in memory. Offers are of the task `f()`, which gave a number.
ghost use Rattle.std.specs.Prelude.{All, IfOk, OnOk};
ghost use Rattle.pie_cache.specs.inner.Contents.{IsKeptOffer, IsNews};

use pie_base::{OutOfMemory, Path};
use pie_cache::{Cache, cache_path, decode_entries};
use pie_files::{Call, Files, Found, Logged, MemFiles, Pick};
use pie_record::Outcome;
use pie_stamp::hash_of;
use pie_store::Offer;
use pie_value::Value;
use std::alloc::Global;
use std::test::Fail;

// The cache file of `f()` by the digest of 32 times the byte 0, and by that of 32 times the byte 1.
const FILE: &str = ".pie/cache/74923cb255358ebd2bdacb7bb6b8959d2d300be8176533d4094c6023e6b56ebf";

const OTHER: &str = ".pie/cache/f321cabb8f589f60fde10c814eaf28d9ea8972e8b28969507b4146b69dcc8d27";

const GATE: &str = ".pie/cache/open";

fn path(alloc: Global, text: &str) -> Result<Path, Fail> {
    Ok(Path::read(alloc, text).map_err(|_| "path")?)
}

fn put(alloc: Global, files: &mut MemFiles, at: &str, bytes: &[u8]) -> Result<(), Fail> {
    let at = path(alloc, at)?;
    files.put(&at, bytes, 100)?;
    Ok(())
}

// The text of a cache file whose entries say that `f()` gave these numbers.
fn text(alloc: Global, numbers: &[u8]) -> Result<Vec<u8>, Fail> {
    let mut bytes = b"PIEC\x01".to_vec(alloc)?;
    if numbers.len() > 4 {
        Err("too many")?;
    }
    bytes.push(numbers.len() as u8)?;
    for n in numbers {
        bytes.extend_from_slice(
            b"\x00\x00\x00\x01f\x00\x00\x00\x00\x00\x00\x00\x00\x00\x00\x00\x00",
        )?;
        bytes.extend_from_slice(&[2, 0, 0, 0, 0, 0, 0, 0, *n])?;
    }
    let digest = hash_of(bytes.as_slice());
    bytes.extend_from_slice(digest.as_slice())?;
    Ok(bytes)
}

// The entries of a cache file.
fn entries(alloc: Global, bytes: &[u8]) -> Result<Vec<Offer>, Fail>
    ensures { IfOk result (λ entries. All IsKeptOffer entries.items) }
{
    match decode_entries(alloc, bytes) {
        Ok(entries) => Ok(entries),
        Err(_) => Err("no cache file")?,
    }
}

// These entries with the path of their file by this digest.
fn with_paths(
    alloc: Global,
    entries: Vec<Offer>,
    digest: &[u8; 32],
) -> Result<Vec<(Path, Offer)>, OutOfMemory>
    requires { All IsKeptOffer entries.items }
    ensures { IfOk result (λ fresh. All IsNews fresh.items) }
{
    let mut fresh = Vec::new(alloc);
    for entry in entries {
        push_with_path(alloc, &mut fresh, entry, digest)?;
    }
    Ok(fresh)
}

fn push_with_path(
    alloc: Global,
    fresh: &mut Vec<(Path, Offer)>,
    entry: Offer,
    digest: &[u8; 32],
) -> Result<(), OutOfMemory>
    requires entry { IsKeptOffer entry }
    requires fresh { All IsNews fresh.old.items }
    ensures { OnOk result (All IsNews fresh.new.items) }
{
    let path = cache_path(alloc, &entry.row.task, digest)?;
    fresh.push((path, entry))?;
    Ok(())
}

// Whether a cache is opened, and keeps these numbers of `f()` in this order.
fn keeps(alloc: Global, files: &mut MemFiles, numbers: &[u8], byte: u8) -> Result<bool, Fail> {
    let bytes = text(alloc, numbers)?;
    let entries = entries(alloc, bytes.as_slice())?;
    let fresh = with_paths(alloc, entries, &[byte; 32])?;
    match Cache::open(alloc, files) {
        Ok(mut cache) => Ok(cache.keep(alloc, files, fresh).is_ok()),
        Err(_) => Ok(false),
    }
}

fn tell_number(alloc: Global, entry: &Offer, said: &mut String) -> Result<(), Fail> {
    match &entry.row.outcome {
        Outcome::Done(Value::Int(n)) => said.push_str(format!(in alloc; "{n} ")?.as_str())?,
        _ => said.push_str("? ")?,
    }
    Ok(())
}

fn tell_numbers(alloc: Global, bytes: &[u8], said: &mut String) -> Result<(), Fail> {
    match decode_entries(alloc, bytes) {
        Ok(entries) => {
            for entry in entries.as_slice() {
                tell_number(alloc, entry, said)?;
            }
        }
        Err(_) => said.push_str("torn ")?,
    }
    Ok(())
}

fn found(alloc: Global, files: &mut MemFiles, at: &str) -> Result<Option<Found>, Fail> {
    let at = path(alloc, at)?;
    Ok(files.read(&at).map_err(|_| "read")?)
}

// The numbers that a file of the cache has, `-` where it isn't there, and `torn` where it is no cache file.
fn tell(alloc: Global, files: &mut MemFiles, at: &str, said: &mut String) -> Result<(), Fail> {
    match found(alloc, files, at)? {
        Some(file) => tell_numbers(alloc, file.bytes.as_slice(), said),
        None => Ok(said.push_str("- ")?),
    }
}

// The gate, the numbers of the two files, and another file.
fn shown(alloc: Global, files: &mut MemFiles) -> Result<String, Fail> {
    let mut said = String::new(alloc);
    let gate = found(alloc, files, GATE)?;
    said.push_str(if gate.is_some() { "open " } else { "shut " })?;
    tell(alloc, files, FILE, &mut said)?;
    tell(alloc, files, OTHER, &mut said)?;
    Ok(said)
}

fn line(alloc: Global, word: &str, path: &Path) -> Result<String, Fail> {
    let path = path.as_str();
    Ok(format!(in alloc; "{word} {path}\n")?)
}

fn tell_call(alloc: Global, call: &Logged, said: &mut String) -> Result<(), Fail> {
    let told = match call {
        Logged::Asked(Call::Read(path)) => line(alloc, "read", path)?,
        Logged::Asked(Call::AllUnder(path)) => line(alloc, "all", path)?,
        Logged::Wrote(path, _, _) => line(alloc, "write", path)?,
        Logged::Removed(path) => line(alloc, "remove", path)?,
        Logged::Synced => String::from_str(
            alloc,
            "sync
",
        )?,
        _ => String::from_str(
            alloc,
            "another
",
        )?,
    };
    Ok(said.push_str(told.as_str())?)
}

// The calls after so many.
fn calls(alloc: Global, files: &MemFiles, before: usize) -> Result<String, Fail> {
    let mut said = String::new(alloc);
    for (i, logged) in files.log().iter().enumerate() {
        if i >= before {
            tell_call(alloc, logged, &mut said)?;
        }
    }
    Ok(said)
}

// A cache with the numbers 1 to 5, and a file beside it.
fn filled(alloc: Global) -> Result<MemFiles, Fail> {
    let mut files = MemFiles::new(alloc);
    let bytes = text(alloc, &[5, 4, 3, 2])?;
    put(alloc, &mut files, FILE, bytes.as_slice())?;
    put(alloc, &mut files, ".pie/cachet", b"beside")?;
    Ok(files)
}

const OPENED: &str = "read .pie/cache/open\n";

#[test]
fn a_cache_without_a_gate_is_left_alone(rt: HostRuntime) -> Result<(), Fail> {
    let alloc = rt.alloc();
    let mut files = filled(alloc)?;
    let before = files.log().len();
    assert!(rt; Cache::open(alloc, &mut files).is_ok());
    let calls = calls(alloc, &files, before)?;
    assert!(rt; calls.as_str() == OPENED, "{calls}");
    let shown = shown(alloc, &mut files)?;
    assert!(rt; shown.as_str() == "shut 5 4 3 2 - ", "{shown}");
    Ok(())
}

const CLEARED: &str = "read .pie/cache/open
all .pie/cache
remove .pie/cache/74923cb255358ebd2bdacb7bb6b8959d2d300be8176533d4094c6023e6b56ebf
remove .pie/cache/x/y
sync
remove .pie/cache/open
sync
";

// A cache whose gate stands, with another file.
fn gated(alloc: Global) -> Result<MemFiles, Fail> {
    let mut files = filled(alloc)?;
    put(alloc, &mut files, GATE, b"")?;
    put(alloc, &mut files, ".pie/cache/x/y", b"z")?;
    Ok(files)
}

#[test]
fn a_cache_whose_gate_stands_is_cleared(rt: HostRuntime) -> Result<(), Fail> {
    let alloc = rt.alloc();
    let mut files = gated(alloc)?;
    let before = files.log().len();
    assert!(rt; Cache::open(alloc, &mut files).is_ok());
    let calls = calls(alloc, &files, before)?;
    assert!(rt; calls.as_str() == CLEARED, "{calls}");
    let dir = path(alloc, ".pie/cache")?;
    let left = files.all_under(&dir).map_err(|_| "all_under")?;
    assert!(rt; left.is_empty());
    assert!(rt; found(alloc, &mut files, ".pie/cachet")?.is_some());
    Ok(())
}

const KEPT: &str = "read .pie/cache/open
read .pie/cache/74923cb255358ebd2bdacb7bb6b8959d2d300be8176533d4094c6023e6b56ebf
write .pie/cache/open
sync
write .pie/cache/74923cb255358ebd2bdacb7bb6b8959d2d300be8176533d4094c6023e6b56ebf
sync
remove .pie/cache/open
sync
";

#[test]
fn an_offer_is_kept_while_the_gate_stands(rt: HostRuntime) -> Result<(), Fail> {
    let alloc = rt.alloc();
    let mut files = filled(alloc)?;
    let before = files.log().len();
    assert!(rt; keeps(alloc, &mut files, &[6], 0)?);
    let calls = calls(alloc, &files, before)?;
    assert!(rt; calls.as_str() == KEPT, "{calls}");
    Ok(())
}

// What the cache has after these numbers were kept one after another, by this digest.
fn kept(alloc: Global, numbers: &[u8], byte: u8) -> Result<String, Fail> {
    let mut files = MemFiles::new(alloc);
    for n in numbers {
        if !keeps(alloc, &mut files, &[*n], byte)? {
            return Err("not kept")?;
        }
    }
    shown(alloc, &mut files)
}

#[test]
fn a_file_has_the_newest_four_entries(rt: HostRuntime) -> Result<(), Fail> {
    let alloc = rt.alloc();
    let cases: [(&[u8], u8, &str); 6] = [
        (&[], 0, "shut - - "),
        (&[1], 0, "shut 1 - "),
        (&[1, 2], 0, "shut 2 1 - "),
        (&[1, 2, 3, 4], 0, "shut 4 3 2 1 - "),
        (&[1, 2, 3, 4, 5, 6], 0, "shut 6 5 4 3 - "),
        (&[1, 2], 1, "shut - 2 1 "),
    ];
    for (numbers, byte, wanted) in cases {
        let shown = kept(alloc, numbers, byte)?;
        assert!(rt; shown.as_str() == wanted, "{wanted}: {shown}");
    }
    Ok(())
}

#[test]
fn of_offers_for_one_file_the_last_is_kept(rt: HostRuntime) -> Result<(), Fail> {
    let alloc = rt.alloc();
    let mut files = filled(alloc)?;
    assert!(rt; keeps(alloc, &mut files, &[7, 8, 9], 0)?);
    let shown = shown(alloc, &mut files)?;
    assert!(rt; shown.as_str() == "shut 9 5 4 3 - ", "{shown}");
    Ok(())
}

#[test]
fn a_file_that_is_no_cache_file_gets_the_offer_alone(rt: HostRuntime) -> Result<(), Fail> {
    let alloc = rt.alloc();
    let mut files = MemFiles::new(alloc);
    put(alloc, &mut files, FILE, b"junk")?;
    assert!(rt; keeps(alloc, &mut files, &[1], 0)?);
    let shown = shown(alloc, &mut files)?;
    assert!(rt; shown.as_str() == "shut 1 - ", "{shown}");
    Ok(())
}

#[test]
fn with_nothing_to_keep_there_is_no_call(rt: HostRuntime) -> Result<(), Fail> {
    let alloc = rt.alloc();
    let mut files = filled(alloc)?;
    let before = files.log().len();
    match Cache::open(alloc, &mut files) {
        Ok(mut cache) => {
            assert!(rt; cache.keep(alloc, &mut files, Vec::new(alloc)).is_ok());
        }
        Err(_) => Err("not opened")?,
    }
    let calls = calls(alloc, &files, before)?;
    assert!(rt; calls.as_str() == OPENED, "{calls}");
    Ok(())
}

// What a crash leaves where the call with this number fails while the numbers 6 and 7 are kept.
fn stopped(alloc: Global, call: u64, pick: Pick) -> Result<String, Fail> {
    let mut files = filled(alloc)?;
    files.fail_at(&[call])?;
    let _kept = keeps(alloc, &mut files, &[6], 0)?;
    shown(alloc, &mut files.crash(pick)?)
}

#[test]
fn a_stop_at_each_call_leaves_the_gate_or_a_whole_cache(rt: HostRuntime) -> Result<(), Fail> {
    let alloc = rt.alloc();
    let before = "shut 5 4 3 2 - ";
    let under_way = "open 5 4 3 2 - ";
    let after = "shut 6 5 4 3 - ";
    let cases = [
        (1, Pick::All, before),
        (2, Pick::All, before),
        (3, Pick::Nothing, before),
        (4, Pick::All, under_way),
        (4, Pick::Nothing, before),
        (5, Pick::Nothing, under_way),
        (6, Pick::Nothing, under_way),
        (6, Pick::All, "open 6 5 4 3 - "),
        (6, Pick::Torn, "open torn - "),
        (7, Pick::Nothing, "open 6 5 4 3 - "),
        (8, Pick::Nothing, "open 6 5 4 3 - "),
        (8, Pick::All, after),
        (9, Pick::Nothing, after),
    ];
    for (call, pick, wanted) in cases {
        let shown = stopped(alloc, call, pick)?;
        assert!(rt; shown.as_str() == wanted, "call {call}: {shown}");
    }
    Ok(())
}
