//! Runs of `build` whose change list is refused, or whose input fails.
use crate::tests::{prints_with, project, run_with_input};
use pie_base::Status;
use pie_files::MemSource;
use std::alloc::Global;
use std::process::Abort;
use std::test::Fail;

// A command with this input asks for no file, ends with this status and prints this text.
fn refuses(
    rt: &impl Abort,
    alloc: Global,
    words: &[&str],
    input: &mut MemSource,
    wanted: Status,
    printed: &str,
) -> Result<(), Fail> {
    let mut files = project(alloc, &[("pie.pipeline", ""), ("pie.roots", "")])?;
    let asked = files.log().len();
    prints_with(rt, alloc, words, &mut files, input, wanted, printed)?;
    assert!(rt; files.log().len() == asked, "{printed}");
    Ok(())
}

// A build with these bytes as its input.
pub(crate) fn refuses_bytes(
    rt: &impl Abort,
    alloc: Global,
    words: &[&str],
    bytes: &[u8],
    printed: &str,
) -> Result<(), Fail> {
    let mut input = MemSource::new(alloc, bytes.to_vec(alloc)?);
    refuses(rt, alloc, words, &mut input, Status::BadInput, printed)
}

#[test]
fn a_change_list_is_refused_at_its_first_bad_line(rt: HostRuntime) -> Result<(), Fail> {
    let alloc = rt.alloc();
    let cases: [(&[u8], &str); 4] = [
        (b"/a\n", "bad input: line 1: BadPath\n"),
        (b"src/a\n\nsrc/../b\n/c", "bad input: line 3: BadPath\n"),
        (b"src/a\n\xff\n", "bad input: line 2: NotText\n"),
        (b"build\n|a//b", "bad input: line 2: BadPath\n"),
    ];
    for (bytes, printed) in cases {
        refuses_bytes(&rt, alloc, &["build"], bytes, printed)?;
        refuses_bytes(&rt, alloc, &["build", "--json"], bytes, printed)?;
    }
    let mut input = MemSource::new(alloc, vec![in alloc; b'\n'; 16_777_217]?);
    let printed = "bad input: too long\n";
    refuses(
        &rt,
        alloc,
        &["build"],
        &mut input,
        Status::BadInput,
        printed,
    )
}

// An input of `/a` whose call of this number fails.
fn failing(alloc: Global, call: u64) -> Result<MemSource, Fail> {
    let mut input = MemSource::new(alloc, b"/a\n".to_vec(alloc)?);
    input.fail_at(alloc, &[call])?;
    Ok(input)
}

#[test]
fn an_input_that_fails_ends_with_its_status(rt: HostRuntime) -> Result<(), Fail> {
    let alloc = rt.alloc();
    let printed = "input fault\n";
    for call in [1, 2] {
        let mut input = failing(alloc, call)?;
        refuses(&rt, alloc, &["build"], &mut input, Status::Input, printed)?;
    }
    Ok(())
}

// How a command on an empty project ends whose input would fail.
fn status_of(alloc: Global, words: &[&str]) -> Result<Status, Fail> {
    let mut files = project(alloc, &[("pie.pipeline", ""), ("pie.roots", "")])?;
    let (status, _) = run_with_input(alloc, words, &mut files, &mut failing(alloc, 1)?)?;
    Ok(status)
}

#[test]
fn other_commands_leave_the_input_alone(rt: HostRuntime) -> Result<(), Fail> {
    for words in [["check"].as_slice(), ["fresh"].as_slice()] {
        let status = status_of(rt.alloc(), words)?;
        assert_eq!(rt; status, Status::Ok);
    }
    Ok(())
}
