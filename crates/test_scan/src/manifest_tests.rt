use pie_scan::{ManifestFault, read_manifest, write_manifest};
use pie_stamp::hash_of;
use std::alloc::Global;
use std::test::Fail;

// The bytes that these digits spell, and their SHA-256.
fn sealed(alloc: Global, digits: &str) -> Result<Vec<u8>, Fail> {
    let mut bytes = hex::decode(alloc, digits)?;
    let digest = hash_of(bytes.as_slice());
    bytes.extend_from_slice(digest.as_slice())?;
    Ok(bytes)
}

// What reading a manifest answers, as text: how many tops and entries it has, or its fault.
fn read(alloc: Global, bytes: &[u8]) -> Result<String, Fail> {
    match counts(alloc, bytes) {
        Ok((tops, entries)) => Ok(format!(in alloc; "{tops} {entries}")?),
        Err(fault) => fault_text(alloc, fault),
    }
}

fn counts(alloc: Global, bytes: &[u8]) -> Result<(usize, usize), ManifestFault> {
    let manifest = read_manifest(alloc, bytes)?;
    let tops = manifest.tops.as_slice().len();
    Ok((tops, manifest.entries.as_slice().len()))
}

fn fault_text(alloc: Global, fault: ManifestFault) -> Result<String, Fail> {
    match fault {
        ManifestFault::Entry(at) => Ok(format!(in alloc; "Entry({at})")?),
        ManifestFault::Order(at) => Ok(format!(in alloc; "Order({at})")?),
        ManifestFault::OutOfMemory => Err("memory")?,
        other => named(alloc, other),
    }
}

fn named(alloc: Global, fault: ManifestFault) -> Result<String, Fail> {
    let name = match fault {
        ManifestFault::Short => "Short",
        ManifestFault::Magic => "Magic",
        ManifestFault::Version => "Version",
        ManifestFault::Digest => "Digest",
        _ => "Rest",
    };
    Ok(String::from_str(alloc, name)?)
}

// The digits of a version, of the hash of a store, and of these parts.
fn digits(alloc: Global, parts: &[&str]) -> Result<String, Fail> {
    let mut text = String::from_str(alloc, "5049454d01")?;
    text.push_str("0000000000000000000000000000000000000000000000000000000000000000")?;
    for part in parts {
        text.push_str(*part)?;
    }
    Ok(text)
}

// What is answered to a manifest of these parts.
fn answer(alloc: Global, parts: &[&str]) -> Result<String, Fail> {
    let text = digits(alloc, parts)?;
    let bytes = sealed(alloc, text.as_str())?;
    read(alloc, bytes.as_slice())
}

// Paths: `a`, `b`, `out/a`.
const A: &str = "0000000161";

const B: &str = "0000000162";

const OUT: &str = "000000056f75742f61";

// Marks, each with a SHA-256: of a file under `out/`, and another.
const ZERO: &str =
    "00000000000000006b86b273ff34fce19d6b804eff5a3f5747ada4eaa22f1d49c01e52ddb7875b4b";

const SEVEN: &str =
    "00000000000000076b86b273ff34fce19d6b804eff5a3f5747ada4eaa22f1d49c01e52ddb7875b4b";

// Numbers of tops, and of entries.
const NO_TOPS: &str = "00000000";

const NONE: &str = "0000000000000000";

const ONE: &str = "0000000000000001";

const TWO: &str = "0000000000000002";

#[test]
fn tops_are_read_or_refused_at_their_place(rt: HostRuntime) -> Result<(), Fail> {
    let cases: [(&[&str], &str); 8] = [
        (&[NO_TOPS, NONE], "0 0"),
        (&["00000002", A, B, NONE], "2 0"),
        (&["00000002", B, A, NONE], "Order(46)"),
        (&["00000002", A, A, NONE], "Order(46)"),
        (&["00000001", "00000002", "2f61", NONE], "Entry(41)"),
        (&["00000001", "00000001", "ff", NONE], "Entry(41)"),
        (&["ffffffff", A, NONE], "Entry(46)"),
        (&["00000001", OUT, NONE], "1 0"),
    ];
    for (parts, wanted) in cases {
        let said = answer(rt.alloc(), parts)?;
        assert_eq!(rt; said.as_str(), wanted);
    }
    Ok(())
}

#[test]
fn entries_are_read_or_refused_at_their_place(rt: HostRuntime) -> Result<(), Fail> {
    let cases: [(&[&str], &str); 12] = [
        (&[NO_TOPS, ONE, A, SEVEN], "0 1"),
        (&[NO_TOPS, TWO, A, SEVEN, B, ZERO], "0 2"),
        (&[NO_TOPS, TWO, B, ZERO, A, SEVEN], "Order(94)"),
        (&[NO_TOPS, TWO, A, SEVEN, A, SEVEN], "Order(94)"),
        (&[NO_TOPS, TWO, A, SEVEN], "Entry(94)"),
        (&[NO_TOPS, TWO, A, SEVEN, OUT, ZERO], "0 2"),
        (&[NO_TOPS, ONE, OUT, ZERO], "0 1"),
        (&[NO_TOPS, ONE, OUT, SEVEN], "Entry(49)"),
        (&[NO_TOPS, TWO, OUT, ZERO, OUT, SEVEN], "Entry(98)"),
        (&[NO_TOPS, "ffffffffffffffff", A, SEVEN], "Entry(94)"),
        (&[NO_TOPS, ONE, A, SEVEN, "00"], "Rest"),
        (&[NO_TOPS, "00000000000000"], "Short"),
    ];
    for (parts, wanted) in cases {
        let said = answer(rt.alloc(), parts)?;
        assert_eq!(rt; said.as_str(), wanted);
    }
    Ok(())
}

#[test]
fn a_bad_frame_is_refused(rt: HostRuntime) -> Result<(), Fail> {
    let more =
        "0000000000000000000000000000000000000000000000000000000000000000000000000000000000000000";
    let cases = [
        ("5049455301", "Magic"),
        ("5049454d02", "Version"),
        ("5049454d00", "Version"),
        ("5049454d01", "0 0"),
    ];
    for (front, wanted) in cases {
        let text = format!(in rt.alloc(); "{front}{more}")?;
        let bytes = sealed(rt.alloc(), text.as_str())?;
        let said = read(rt.alloc(), bytes.as_slice())?;
        assert_eq!(rt; said.as_str(), wanted);
    }
    Ok(())
}

#[test]
fn the_least_manifest_has_81_bytes(rt: HostRuntime) -> Result<(), Fail> {
    let text = digits(rt.alloc(), &[NO_TOPS, NONE])?;
    let bytes = sealed(rt.alloc(), text.as_str())?;
    assert_eq!(rt; bytes.len(), 81);
    Ok(())
}

#[test]
fn a_manifest_that_is_cut_is_refused(rt: HostRuntime) -> Result<(), Fail> {
    let text = digits(rt.alloc(), &[NO_TOPS, ONE, A, SEVEN])?;
    let bytes = sealed(rt.alloc(), text.as_str())?;
    for len in 0..bytes.len() {
        let said = read(rt.alloc(), &bytes[..len])?;
        let wanted = if len < 81 { "Short" } else { "Digest" };
        assert_eq!(rt; said.as_str(), wanted, "at {len}");
    }
    Ok(())
}

// The text of the manifest that these bytes are the text of.
fn again(alloc: Global, bytes: &[u8]) -> Result<Vec<u8>, ManifestFault> {
    let manifest = read_manifest(alloc, bytes)?;
    let text = write_manifest(alloc, &manifest)?;
    Ok(text)
}

#[test]
fn a_manifest_that_was_read_is_written_again(rt: HostRuntime) -> Result<(), Fail> {
    let text = digits(rt.alloc(), &["00000002", A, B, TWO, A, SEVEN, OUT, ZERO])?;
    let bytes = sealed(rt.alloc(), text.as_str())?;
    match again(rt.alloc(), bytes.as_slice()) {
        Ok(text) => assert!(rt; text.as_slice() == bytes.as_slice()),
        Err(_) => Err("refused")?,
    }
    Ok(())
}
