//! Scripts and change lists that stand in memory.
use pie_base::Path;
use pie_script::{InputFault, Step, read_changes, read_script};
use std::test::Fail;

fn fault_of<T: Drop>(read: Result<T, InputFault>) -> Option<InputFault> {
    match read {
        Ok(_) => None,
        Err(fault) => Some(fault),
    }
}

// Two paths, `a` and `b`.
fn two_paths(read: &Result<Vec<Path>, InputFault>) -> bool {
    match read {
        Ok(paths) => {
            paths.len() == 2
                && paths.first().is_some_and(|p| p.as_str() == "a")
                && paths.last().is_some_and(|p| p.as_str() == "b")
        }
        Err(_) => false,
    }
}

#[test]
fn change_lists_name_a_path_a_line(rt: HostRuntime) -> Result<(), Fail> {
    let alloc = rt.alloc();
    assert!(&rt; two_paths(&read_changes(alloc, b"a\n\nb")));
    let cases: [(&[u8], Option<InputFault>); 3] = [
        (b"a\n/b", Some(InputFault::BadPath(2))),
        (b"\xff", Some(InputFault::NotText(1))),
        (b"", None),
    ];
    for (bytes, wanted) in cases {
        assert_eq!(&rt; fault_of(read_changes(alloc, bytes)), wanted);
    }
    Ok(())
}

// The file `a` gets two lines.
fn puts_a(step: Option<&Step>) -> bool {
    match step {
        Some(Step::Put(path, bytes)) => {
            path.as_str() == "a" && bytes.as_slice() == b"x\ny".as_slice()
        }
        _ => false,
    }
}

// Four steps, the first of which puts `a`.
fn four_steps(read: &Result<Vec<Step>, InputFault>) -> bool {
    match read {
        Ok(steps) => steps.len() == 4 && puts_a(steps.first()),
        Err(_) => false,
    }
}

#[test]
fn scripts_are_read_line_by_line(rt: HostRuntime) -> Result<(), Fail> {
    let alloc = rt.alloc();
    let text = b"put a\n|x\n>y\ndel b\nchange c\nbuild\n";
    assert!(&rt; four_steps(&read_script(alloc, text)));
    let cases: [(&[u8], InputFault); 3] = [
        (b"frob", InputFault::BadWord(1)),
        (b"build\n|x", InputFault::BadWord(2)),
        (b"put out", InputFault::BadPath(1)),
    ];
    for (bytes, wanted) in cases {
        assert_eq!(&rt; fault_of(read_script(alloc, bytes)), Some(wanted));
    }
    Ok(())
}
