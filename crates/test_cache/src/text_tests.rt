use pie_base::Text;
use pie_cache::{CacheFault, cache_path, decode_entries, encode_entries};
use pie_stamp::hash_of;
use pie_value::{Items, Task};
use std::alloc::Global;
use std::test::Fail;

// The bytes that these digits spell, and their SHA-256.
fn sealed(alloc: Global, digits: &str) -> Result<Vec<u8>, Fail> {
    let mut bytes = hex::decode(alloc, digits)?;
    let digest = hash_of(bytes.as_slice());
    bytes.extend_from_slice(digest.as_slice())?;
    Ok(bytes)
}

// What reading a cache file answers, as text: how many entries it has, or its fault.
fn read(alloc: Global, bytes: &[u8]) -> Result<String, Fail> {
    match decode_entries(alloc, bytes) {
        Ok(entries) => Ok(format!(in alloc; "{}", entries.len())?),
        Err(fault) => Ok(format!(in alloc; "{fault:?}")?),
    }
}

// The digits of a version and of these parts.
fn digits(alloc: Global, parts: &[&str]) -> Result<String, Fail> {
    let mut text = String::from_str(alloc, "5049454301")?;
    for part in parts {
        text.push_str(*part)?;
    }
    Ok(text)
}

// What is answered to a cache file of these parts.
fn answer(alloc: Global, parts: &[&str]) -> Result<String, Fail> {
    let text = digits(alloc, parts)?;
    let bytes = sealed(alloc, text.as_str())?;
    read(alloc, bytes.as_slice())
}

// The record of a task that reads the file `s` of the one byte `1` and writes the same to `out/one`: 102 bytes.
const RECORD: &str = "000000036f6e6500000000\
    00000001020000000173026b86b273ff34fce19d6b804eff5a3f5747ada4eaa22f1d49c01e52ddb7875b4b\
    00000001000000076f75742f6f6e656b86b273ff34fce19d6b804eff5a3f5747ada4eaa22f1d49c01e52ddb7875b4b\
    00";

// What it wrote, and another content.
const ONE: &str = "0000000131";

const TWO: &str = "0000000132";

// The record of a task that observes and writes nothing.
const IDLE: &str = "000000016600000000000000000000000000";

#[test]
fn entries_are_read_or_refused_at_their_place(rt: HostRuntime) -> Result<(), Fail> {
    let cases: [(&[&str], &str); 13] = [
        (&["01", RECORD, ONE], "1"),
        (&["01", IDLE], "1"),
        (&["02", RECORD, ONE, RECORD, ONE], "2"),
        (&["04", IDLE, RECORD, ONE, IDLE, IDLE], "4"),
        (&["00"], "Count"),
        (&["05", IDLE, IDLE, IDLE, IDLE, IDLE], "Count"),
        (&["01"], "Entry(6)"),
        (&["01", RECORD], "Entry(6)"),
        (&["01", RECORD, TWO], "Entry(6)"),
        (&["01", RECORD, "ffffffff31"], "Entry(6)"),
        (&["02", RECORD, ONE], "Entry(113)"),
        (&["02", IDLE, RECORD, TWO], "Entry(24)"),
        (&["01", RECORD, ONE, "00"], "Rest"),
    ];
    for (parts, wanted) in cases {
        let said = answer(rt.alloc(), parts)?;
        assert_eq!(rt; said.as_str(), wanted);
    }
    Ok(())
}

#[test]
fn a_bad_frame_is_refused(rt: HostRuntime) -> Result<(), Fail> {
    let cases = [
        ("504945530101", "Magic"),
        ("504945430201", "Version"),
        ("504945430001", "Version"),
        ("504945430101", "1"),
        ("5049454301ff", "Count"),
    ];
    for (front, wanted) in cases {
        let text = format!(in rt.alloc(); "{front}{IDLE}")?;
        let bytes = sealed(rt.alloc(), text.as_str())?;
        let said = read(rt.alloc(), bytes.as_slice())?;
        assert_eq!(rt; said.as_str(), wanted);
    }
    Ok(())
}

#[test]
fn a_cache_file_that_is_cut_is_refused(rt: HostRuntime) -> Result<(), Fail> {
    let text = digits(rt.alloc(), &["01", RECORD, ONE])?;
    let bytes = sealed(rt.alloc(), text.as_str())?;
    for len in 0..bytes.len() {
        let said = read(rt.alloc(), &bytes[..len])?;
        let wanted = if len < 38 { "Short" } else { "Digest" };
        assert_eq!(rt; said.as_str(), wanted, "at {len}");
    }
    Ok(())
}

// The text of the cache file that these bytes are the text of.
fn again(alloc: Global, bytes: &[u8]) -> Result<Vec<u8>, CacheFault> {
    let entries = decode_entries(alloc, bytes)?;
    let text = encode_entries(alloc, entries.as_slice())?;
    Ok(text)
}

#[test]
fn a_cache_file_that_was_read_is_written_again(rt: HostRuntime) -> Result<(), Fail> {
    let text = digits(rt.alloc(), &["03", RECORD, ONE, IDLE, RECORD, ONE])?;
    let bytes = sealed(rt.alloc(), text.as_str())?;
    match again(rt.alloc(), bytes.as_slice()) {
        Ok(text) => assert!(rt; text.as_slice() == bytes.as_slice()),
        Err(_) => Err("refused")?,
    }
    Ok(())
}

// The path of the cache file of the task `one()` by the digest of so many times this byte.
fn place(alloc: Global, byte: u8) -> Result<String, Fail> {
    let task = Task {
        func: Text::new(alloc, "one")?,
        args: Items::new(),
    };
    if !task.is_small() {
        Err("large")?;
    }
    let path = cache_path(alloc, &task, &[byte; 32])?;
    Ok(String::from_str(alloc, path.as_str())?)
}

#[test]
fn the_path_of_a_cache_file_is_by_the_digest_and_the_task(rt: HostRuntime) -> Result<(), Fail> {
    let cases = [
        (
            0,
            ".pie/cache/edb6f0ec89932030b46e9801c90d8c9a8aac1b6221eaa90e457a442867b2b271",
        ),
        (
            255,
            ".pie/cache/3ceed093d81a0407ccd0f684939555acde0cca64dc817eca801c0236443e98fa",
        ),
    ];
    for (byte, wanted) in cases {
        let said = place(rt.alloc(), byte)?;
        assert_eq!(rt; said.as_str(), wanted);
    }
    Ok(())
}
