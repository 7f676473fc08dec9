//! Change lists and scripts, read off an input in memory.
use pie_base::Path;
use pie_files::MemSource;
use pie_input::{LinesError, read_names, read_steps};
use pie_script::{InputFault, Step};
use std::alloc::Global;
use std::test::Fail;

// An input of these bytes, some calls on which fail.
fn source(alloc: Global, bytes: Vec<u8>, failing: &[u64]) -> Result<MemSource, Fail> {
    let mut input = MemSource::new(alloc, bytes);
    input.fail_at(alloc, failing)?;
    Ok(input)
}

fn error_of<T: Drop>(read: Result<T, LinesError>) -> Option<LinesError> {
    match read {
        Ok(_) => None,
        Err(error) => Some(error),
    }
}

// Why an input of these bytes, some calls on which fail, is no change list.
fn error_in(alloc: Global, bytes: Vec<u8>, failing: &[u64]) -> Result<Option<LinesError>, Fail> {
    let mut input = source(alloc, bytes, failing)?;
    Ok(error_of(read_names(alloc, &mut input)))
}

// So many lines `a`, each with an empty one behind it, and the line `src/b`.
fn many_lines(alloc: Global, many: u32) -> Result<Vec<u8>, Fail> {
    let mut bytes = Vec::new(alloc);
    for _ in 0..many {
        bytes.extend_from_slice(b"a\n\n")?;
    }
    bytes.extend_from_slice(b"src/b")?;
    Ok(bytes)
}

fn names_are(read: &Result<Vec<Path>, LinesError>, many: usize, last: &str) -> bool {
    match read {
        Ok(names) => names.len() == many && names.last().is_some_and(|p| p.as_str() == last),
        Err(_) => false,
    }
}

#[test]
fn a_change_list_of_many_pieces_is_read_whole(rt: HostRuntime) -> Result<(), Fail> {
    let alloc = rt.alloc();
    let mut input = source(alloc, many_lines(alloc, 70_000)?, &[])?;
    assert!(rt; names_are(&read_names(alloc, &mut input), 70_001, "src/b"));
    Ok(())
}

#[test]
fn a_bad_line_is_told_by_its_number(rt: HostRuntime) -> Result<(), Fail> {
    let alloc = rt.alloc();
    let cases: [(&[u8], Option<InputFault>); 4] = [
        (b"", None),
        (b"a\n\n/b\n", Some(InputFault::BadPath(3))),
        (b"a\n\xff\n/b\n", Some(InputFault::NotText(2))),
        (b"a//b", Some(InputFault::BadPath(1))),
    ];
    for (bytes, wanted) in cases {
        let found = error_in(alloc, bytes.to_vec(alloc)?, &[])?;
        assert_eq!(rt; found, wanted.map(LinesError::Bad));
    }
    Ok(())
}

#[test]
fn an_input_beyond_the_limit_is_refused(rt: HostRuntime) -> Result<(), Fail> {
    let alloc = rt.alloc();
    let cases = [
        (16_777_216, None),
        (16_777_217, Some(LinesError::Bad(InputFault::TooLong))),
    ];
    for (many, wanted) in cases {
        let found = error_in(alloc, vec![in alloc; b'\n'; many]?, &[])?;
        assert_eq!(rt; found, wanted, "{many} lines");
    }
    Ok(())
}

#[test]
fn a_failing_input_is_told(rt: HostRuntime) -> Result<(), Fail> {
    let alloc = rt.alloc();
    let cases = [
        (1, Some(LinesError::Failed)),
        (2, Some(LinesError::Failed)),
        (3, None),
    ];
    for (call, wanted) in cases {
        let found = error_in(alloc, b"a\n".to_vec(alloc)?, &[call])?;
        assert_eq!(rt; found, wanted, "call {call}");
    }
    Ok(())
}

fn is_put(step: &Step, name: &str, wanted: &str) -> bool {
    match step {
        Step::Put(path, bytes) => path.as_str() == name && bytes.as_slice() == wanted.as_bytes(),
        _ => false,
    }
}

// Four steps, the first of which puts `src/a`.
fn four_steps(read: &Result<Vec<Step>, LinesError>) -> bool {
    match read {
        Ok(steps) => steps.len() == 4 && is_put(&steps[0], "src/a", "x\ny"),
        Err(_) => false,
    }
}

#[test]
fn the_steps_of_a_script_are_read(rt: HostRuntime) -> Result<(), Fail> {
    let alloc = rt.alloc();
    let text = b"put src/a\n|x\n>y\n\nbuild\nchange src/a\ndel b";
    let mut input = source(alloc, text.to_vec(alloc)?, &[])?;
    assert!(rt; four_steps(&read_steps(alloc, &mut input)));
    Ok(())
}

// Why an input of these bytes is no script.
fn script_error(alloc: Global, bytes: &[u8]) -> Result<Option<LinesError>, Fail> {
    let mut input = source(alloc, bytes.to_vec(alloc)?, &[])?;
    Ok(error_of(read_steps(alloc, &mut input)))
}

#[test]
fn a_bad_line_of_a_script_is_told(rt: HostRuntime) -> Result<(), Fail> {
    let alloc = rt.alloc();
    let cases: [(&[u8], InputFault); 4] = [
        (b"frob", InputFault::BadWord(1)),
        (b"build\n|x\n", InputFault::BadWord(2)),
        (b"put .pie/store\n", InputFault::BadPath(1)),
        (b"build\n\ndel \xff", InputFault::NotText(3)),
    ];
    for (bytes, wanted) in cases {
        let found = script_error(alloc, bytes)?;
        assert_eq!(rt; found, Some(LinesError::Bad(wanted)));
    }
    Ok(())
}
