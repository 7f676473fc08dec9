use pie_base::Path;
use pie_store::{pending_text, read_pending};
use std::alloc::Global;
use std::test::Fail;

// What reading pending names answers, as text: the number of paths, or that it is none.
fn pending(alloc: Global, text: &str) -> Result<String, Fail> {
    match read_pending(alloc, text.as_bytes())? {
        Some(paths) => Ok(format!(in alloc; "{}", paths.len())?),
        None => Ok(format!(in alloc; "none")?),
    }
}

#[test]
fn pending_names_are_ascending_lines(rt: HostRuntime) -> Result<(), Fail> {
    let cases = [
        ("inc/foot\nsrc/a\n", "2"),
        (".pie/x\nout\n", "2"),
        ("", "none"),
        ("\n", "none"),
        ("src/a", "none"),
        ("src/a\n/b\n", "none"),
        ("src/a\ninc/foot\n", "none"),
        ("src/a\nsrc/a\n", "none"),
    ];
    for (text, wanted) in cases {
        let answer = pending(rt.alloc(), text)?;
        assert_eq!(rt; answer.as_str(), wanted, "at {text}");
    }
    Ok(())
}

#[test]
fn pending_names_are_written_sorted_and_once(rt: HostRuntime) -> Result<(), Fail> {
    let alloc = rt.alloc();
    let mut paths = Vec::new(alloc);
    for name in ["src/a", "inc/foot", "src/a"] {
        paths.push(Path::read(alloc, name)?)?;
    }
    let text = pending_text(alloc, paths.as_slice())?;
    assert!(rt; text.as_slice() == b"inc/foot\nsrc/a\n".as_slice());
    Ok(())
}

// The text of the pending names that this text has, or nothing where it is no such text.
fn rewritten(alloc: Global, text: &[u8]) -> Result<Vec<u8>, Fail> {
    match read_pending(alloc, text)? {
        Some(names) => Ok(pending_text(alloc, names.as_slice())?),
        None => Ok(Vec::new(alloc)),
    }
}

#[test]
fn a_text_of_pending_names_is_read_back(rt: HostRuntime) -> Result<(), Fail> {
    let alloc = rt.alloc();
    let mut paths = Vec::new(alloc);
    for name in ["src/a/b", "src/a-b", "out", "src/a/b"] {
        paths.push(Path::read(alloc, name)?)?;
    }
    let text = pending_text(alloc, paths.as_slice())?;
    assert!(rt; text.as_slice() == b"out\nsrc/a-b\nsrc/a/b\n".as_slice());
    let again = rewritten(alloc, text.as_slice())?;
    assert!(rt; again.as_slice() == text.as_slice());
    Ok(())
}
