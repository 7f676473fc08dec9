//! Each kind of answer to each kind of question.
use crate::growing_tests::Length;
use crate::tests::{MOST, Sample, many, told, told_length, value};
use pie_base::{Path, Text};
use pie_operators::{Observation, Question, is_content, may_observe, taken};
use pie_value::{Answer, Blob, By, Event, How, Items, Task, Value};
use std::alloc::Global;
use std::process::Abort;
use std::test::Fail;

fn observe(alloc: Global, what: Observation) -> Result<Question, Fail> {
    Ok(Question::Observe(what, Path::read(alloc, "a")?))
}

fn require(alloc: Global, how: How) -> Result<Question, Fail> {
    let task = Task {
        func: Text::new(alloc, "f")?,
        args: Items::new(),
    };
    Ok(Question::Require(task, how))
}

// A question by its name.
fn question(alloc: Global, name: &str) -> Result<Question, Fail> {
    match name {
        "exists" => observe(alloc, Observation::Exists),
        "hash" => observe(alloc, Observation::Read(By::Hash)),
        "mark" => observe(alloc, Observation::Read(By::Mark)),
        "raw" => observe(alloc, Observation::Read(By::Raw)),
        "digest" => observe(alloc, Observation::Digest),
        "list" => observe(alloc, Observation::List),
        "write" => {
            let path = Path::read(alloc, "a")?;
            Ok(Question::Write(path, Blob::new(Vec::new(alloc))))
        }
        "whole" => require(alloc, How::Whole),
        "hashed" => require(alloc, How::Hashed),
        _ => require(alloc, How::Ran),
    }
}

fn entries(alloc: Global) -> Result<Items, Fail> {
    let mut entries = Items::new();
    entries.push(alloc, value(alloc, Sample::Path("a/b"))?)?;
    Ok(entries)
}

// An answer by its name.
fn answer(alloc: Global, name: &str) -> Result<Answer, Fail> {
    match name {
        "flag" => Ok(Answer::Flag(true)),
        "file" => Ok(Answer::Bytes(Some(Blob::new(b"ab".as_slice().to_vec(alloc)?)))),
        "no file" => Ok(Answer::Bytes(None)),
        "digest" => Ok(Answer::Digest(Some([171; 32]))),
        "no digest" => Ok(Answer::Digest(None)),
        "entries" => Ok(Answer::Entries(entries(alloc)?)),
        "wrote" => Ok(Answer::Wrote),
        "output" => Ok(Answer::Output(Value::Int(5))),
        "ran" => Ok(Answer::Ran),
        _ => Ok(Answer::Clash),
    }
}

// What an answer to a question gives, both by their names.
fn given(alloc: Global, asked: &str, answered: &str) -> Result<String, Fail> {
    let question = Box::new(alloc, question(alloc, asked)?)?;
    let answer = answer(alloc, answered)?;
    told(alloc, &taken(alloc, &question, answer))
}

const DIGITS: &str = "\"abababababababababababababababababababababababababababababababab\"";

// A question, an answer that fits it, and what it gives.
const FITTING: &[(&str, &str, &str)] = &[
    ("exists", "flag", "true"),
    ("exists", "clash", "Clash"),
    ("hash", "file", "\"ab\""),
    ("hash", "no file", "null"),
    ("hash", "clash", "Clash"),
    ("mark", "file", "\"ab\""),
    ("mark", "no file", "null"),
    ("mark", "clash", "Clash"),
    ("raw", "file", "bytes(\"6162\")"),
    ("raw", "no file", "null"),
    ("raw", "clash", "Clash"),
    ("digest", "digest", DIGITS),
    ("digest", "no digest", "null"),
    ("digest", "clash", "Clash"),
    ("list", "entries", "[path(\"a/b\")]"),
    ("write", "wrote", "unit"),
    ("whole", "output", "5"),
    ("hashed", "output", "5"),
    ("ran", "ran", "unit"),
];

#[test]
fn an_answer_fits_its_question(rt: HostRuntime) -> Result<(), Fail> {
    for (asked, answered, wanted) in FITTING {
        let found = given(rt.alloc(), asked, answered)?;
        assert!(rt; found.as_str() == *wanted, "{asked}: {answered}: {found}");
    }
    Ok(())
}

const ANSWERS: &[&str] = &[
    "flag",
    "file",
    "no file",
    "digest",
    "no digest",
    "entries",
    "wrote",
    "output",
    "ran",
    "clash",
];

// How many of the answers fit a question.
fn fitting(alloc: Global, asked: &str) -> Result<u32, Fail> {
    let mut count: u32 = 0;
    for answered in ANSWERS {
        let found = given(alloc, asked, answered)?;
        if found.as_str() != "Unknown" {
            count = count.saturating_add(1);
        }
    }
    Ok(count)
}

// A question, and how many of the answers fit it.
const COUNTS: &[(&str, u32)] = &[
    ("exists", 2),
    ("hash", 3),
    ("mark", 3),
    ("raw", 3),
    ("digest", 3),
    ("list", 1),
    ("write", 1),
    ("whole", 1),
    ("hashed", 1),
    ("ran", 1),
];

#[test]
fn an_answer_of_another_kind_is_unknown(rt: HostRuntime) -> Result<(), Fail> {
    for (asked, wanted) in COUNTS {
        let found = fitting(rt.alloc(), asked)?;
        assert!(rt; found == *wanted, "{asked}: {found}");
    }
    Ok(())
}

// How long a value is that the bytes of a file give to one who reads it.
fn length_read(alloc: Global, by: By, bytes: Vec<u8>) -> Result<Length, Fail> {
    let question = observe(alloc, Observation::Read(by))?;
    let answer = Answer::Bytes(Some(Blob::new(bytes)));
    Ok(told_length(&taken(alloc, &question, answer)))
}

// Bytes that are read so give a value of this length.
fn is_read(
    rt: &impl Abort,
    alloc: Global,
    by: By,
    bytes: &[u8],
    wanted: Length,
) -> Result<(), Fail> {
    let found = length_read(alloc, by, bytes.to_vec(alloc)?)?;
    assert!(rt; found == wanted, "{by:?}: {found:?}");
    Ok(())
}

#[test]
fn a_text_is_utf8(rt: HostRuntime) -> Result<(), Fail> {
    let alloc = rt.alloc();
    is_read(&rt, alloc, By::Hash, b"\xc3\xa9", Ok(2))?;
    is_read(&rt, alloc, By::Hash, b"", Ok(0))?;
    is_read(&rt, alloc, By::Hash, b"a\xff", Err("NotText"))?;
    is_read(&rt, alloc, By::Mark, b"\xc3", Err("NotText"))?;
    is_read(&rt, alloc, By::Raw, b"a\xff", Ok(2))
}

// So many bytes that are read so give a value of this length.
fn many_are_read(
    rt: &impl Abort,
    alloc: Global,
    by: By,
    count: usize,
    wanted: Length,
) -> Result<(), Fail> {
    let found = length_read(alloc, by, many(alloc, count)?)?;
    assert!(rt; found == wanted, "{by:?}: {found:?}");
    Ok(())
}

// What is no text and too long is big.
fn other_than_text(alloc: Global) -> Result<Length, Fail> {
    let mut other = many(alloc, MOST)?;
    other.push(255)?;
    length_read(alloc, By::Hash, other)
}

#[test]
fn a_value_of_bytes_is_within_the_limit(rt: HostRuntime) -> Result<(), Fail> {
    let alloc = rt.alloc();
    for by in [By::Hash, By::Mark, By::Raw] {
        many_are_read(&rt, alloc, by, MOST, Ok(MOST))?;
        many_are_read(&rt, alloc, by, MOST + 1, Err("Big"))?;
    }
    let found = other_than_text(alloc)?;
    assert!(rt; found == Err("Big"), "what is no text: {found:?}");
    Ok(())
}

// Whether each observation of a path but listing is allowed and is of what it contains.
fn is_open(path: &Path) -> bool {
    let mut all = true;
    for what in [
        Observation::Exists,
        Observation::Read(By::Raw),
        Observation::Digest,
    ] {
        all = all && may_observe(what, path) && is_content(what);
    }
    all
}

// Whether a path may be listed, and whether it is open to each other observation.
fn allowed(alloc: Global, text: &str) -> Result<(bool, bool), Fail> {
    let path = Path::read(alloc, text)?;
    Ok((may_observe(Observation::List, &path), is_open(&path)))
}

// A path, and whether it may be listed.
const LISTED: &[(&str, bool)] = &[
    ("src", true),
    ("outer/a", true),
    ("out", false),
    ("out/a", false),
    (".pie/store", false),
    ("pie.roots", false),
];

#[test]
fn sources_alone_are_listed(rt: HostRuntime) -> Result<(), Fail> {
    for (text, wanted) in LISTED {
        let (listed, open) = allowed(rt.alloc(), text)?;
        assert!(rt; listed == *wanted && open, "{text}: {listed} {open}");
    }
    assert!(rt; !is_content(Observation::List));
    Ok(())
}

// How the file `a` is read by an event.
fn read_by(event: &Event) -> Option<By> {
    match event {
        Event::Read(path, by) if path.as_str() == "a" => Some(*by),
        _ => None,
    }
}

fn event_of(alloc: Global, asked: &str) -> Result<Option<By>, Fail> {
    let question = question(alloc, asked)?;
    Ok(read_by(&question.into_event()))
}

// A question, and how the event reads the file.
const READ: &[(&str, By)] = &[("hash", By::Hash), ("mark", By::Mark), ("raw", By::Hash)];

#[test]
fn bytes_that_become_a_value_are_observed_by_their_hash(rt: HostRuntime) -> Result<(), Fail> {
    for (asked, wanted) in READ {
        let found = event_of(rt.alloc(), asked)?;
        assert!(rt; found == Some(*wanted), "{asked}: {found:?}");
    }
    Ok(())
}
