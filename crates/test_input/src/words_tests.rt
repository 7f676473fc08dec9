//! The words of command lines.
use pie_words::{Command, WordsFault, read_words};
use std::alloc::Global;
use std::test::Fail;

// What is read of these words.
fn read(alloc: Global, words: &[&str]) -> Result<Result<Command, WordsFault>, Fail> {
    let mut list = Vec::new(alloc);
    for word in words {
        list.push(String::from_str(alloc, word)?)?;
    }
    Ok(read_words(alloc, list.as_slice()))
}

#[test]
fn each_command_is_read(rt: HostRuntime) -> Result<(), Fail> {
    let alloc = rt.alloc();
    let cases: [(&[&str], Command); 12] = [
        (&["check"], Command::Check),
        (&["fresh"], Command::Fresh(false)),
        (&["fresh", "--json"], Command::Fresh(true)),
        (&["build"], Command::Build(false)),
        (&["build", "--json"], Command::Build(true)),
        (&["replay"], Command::Replay(false)),
        (&["replay", "--json"], Command::Replay(true)),
        (&["topdown"], Command::Topdown(false)),
        (&["topdown", "--json"], Command::Topdown(true)),
        (&["scan"], Command::Scan),
        (&["auto"], Command::Auto),
        (&["cached"], Command::Cached),
    ];
    for (words, wanted) in cases {
        let answer = read(alloc, words)?;
        assert_eq!(rt; answer, Ok(wanted));
    }
    Ok(())
}

#[test]
fn a_demo_has_a_seed_and_a_size(rt: HostRuntime) -> Result<(), Fail> {
    let alloc = rt.alloc();
    let cases: [(&str, &str, u64, u32); 4] = [
        ("7", "25", 7, 25),
        ("0", "1", 0, 1),
        ("18446744073709551615", "1000", 18446744073709551615, 1000),
        ("10", "10", 10, 10),
    ];
    for (seed, size, x, n) in cases {
        let answer = read(alloc, &["demo", seed, size])?;
        assert_eq!(rt; answer, Ok(Command::Demo(x, n)));
    }
    Ok(())
}

#[test]
fn other_numbers_of_a_demo_are_refused(rt: HostRuntime) -> Result<(), Fail> {
    let alloc = rt.alloc();
    let cases: [(&str, &str); 10] = [
        ("07", "25"),
        ("7", "025"),
        ("+7", "25"),
        ("7", "+25"),
        ("-7", "25"),
        ("18446744073709551616", "25"),
        ("7", "0"),
        ("7", "1001"),
        ("", "25"),
        ("7", "0x19"),
    ];
    for (seed, size) in cases {
        let answer = read(alloc, &["demo", seed, size])?;
        assert_eq!(rt; answer, Err(WordsFault::Usage));
    }
    Ok(())
}

#[test]
fn other_words_are_refused(rt: HostRuntime) -> Result<(), Fail> {
    let alloc = rt.alloc();
    let cases: [&[&str]; 18] = [
        &[],
        &[""],
        &["frob"],
        &["Check"],
        &["check", "--json"],
        &["--json", "fresh"],
        &["fresh", "--json", "--json"],
        &["fresh", ""],
        &["build", "--jso"],
        &["replay", "1"],
        &["scan", "--json"],
        &["auto", "--json"],
        &["cached", "--json"],
        &["--help"],
        &["demo"],
        &["demo", "7"],
        &["demo", "7", "25", "1"],
        &["check", "7", "25"],
    ];
    for words in cases {
        let answer = read(alloc, words)?;
        assert_eq!(rt; answer, Err(WordsFault::Usage));
    }
    Ok(())
}
