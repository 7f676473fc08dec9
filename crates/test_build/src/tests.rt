//! Whole builds over files in memory.
use pie_base::Path;
use pie_build::rebuild;
use pie_files::{Files, Found, MemFiles, SureFiles};
use pie_project::BuildError;
use pie_report::Report;
use pie_value::Verdict;
use pie_vm::Runs;
use std::alloc::Global;
use std::process::Abort;
use std::test::Fail;

const PIPELINE: &str =
    "func main() -> unit { write(path(\"out/page\"), require foot() + \"!\"); } func foot() -> text { get(read(path(\"src/foot\"))) }";

pub(crate) fn path(alloc: Global, text: &str) -> Result<Path, Fail> {
    Ok(Path::read(alloc, text).map_err(|_| "path")?)
}

// Files are put.
pub(crate) fn fill(
    alloc: Global,
    files: &mut SureFiles,
    held: &[(&str, &str)],
) -> Result<(), Fail> {
    for (name, bytes) in held {
        put(alloc, files, *name, bytes.as_bytes())?;
    }
    Ok(())
}

fn put(alloc: Global, files: &mut SureFiles, name: &str, bytes: &[u8]) -> Result<(), Fail> {
    let path = path(alloc, name)?;
    files.put(&path, bytes, 1)?;
    Ok(())
}

// What stands at a path.
fn found<F: Files>(alloc: Global, files: &mut F, name: &str) -> Result<Option<Found>, Fail> {
    let path = path(alloc, name)?;
    Ok(files.read(&path).map_err(|_| "read")?)
}

// Whether a file holds these bytes.
fn holds<F: Files>(alloc: Global, files: &mut F, name: &str, bytes: &str) -> Result<bool, Fail> {
    let found = found(alloc, files, name)?;
    Ok(found.is_some_and(|f| f.bytes.as_slice() == bytes.as_bytes()))
}

// Whether there is no file.
pub(crate) fn lacks<F: Files>(alloc: Global, files: &mut F, name: &str) -> Result<bool, Fail> {
    Ok(found(alloc, files, name)?.is_none())
}

fn is_told(rt: &impl Abort, report: &Report) {
    assert!(rt; matches!(report.verdict, Verdict::Accepted));
    assert!(rt; report.ran.len() == 2);
    assert!(rt; report.wrote.len() == 1);
    assert!(rt; report.removed.len() == 1);
    assert!(rt; report.live == 2);
    assert!(rt; report.outputs.len() == 1);
}

fn is_accepted(rt: &impl Abort, built: &Result<Report, BuildError>) {
    match built {
        Ok(report) => is_told(rt, report),
        Err(_) => assert!(rt; false, "a build"),
    }
}

fn is_refused(built: &Result<Report, BuildError>) -> bool {
    match built {
        Ok(report) => matches!(report.verdict, Verdict::Refused(_)),
        Err(_) => false,
    }
}

fn built<F: Files>(alloc: Global, files: &mut F) -> Result<Report, BuildError> {
    rebuild(alloc, files, &mut Runs::new(alloc))
}

fn is_put_into_place(rt: &impl Abort, alloc: Global, files: &mut SureFiles) -> Result<(), Fail> {
    fill(
        alloc,
        files,
        &[
            ("pie.pipeline", PIPELINE),
            ("pie.roots", "main()"),
            ("src/foot", "end"),
            ("out/z", "junk"),
            (".pie/open", ""),
        ],
    )?;
    is_accepted(rt, &built(alloc, files));
    assert!(rt; holds(alloc, files, "out/page", "end!")?);
    assert!(rt; lacks(alloc, files, "out/z")?);
    assert!(rt; lacks(alloc, files, ".pie/open")?);
    Ok(())
}

#[test]
fn an_accepted_build_is_put_into_place(rt: HostRuntime) -> Result<(), Fail> {
    is_put_into_place(&rt, rt.alloc(), &mut SureFiles::new(rt.alloc()))
}

fn changes_nothing(rt: &impl Abort, alloc: Global, files: &mut SureFiles) -> Result<(), Fail> {
    fill(
        alloc,
        files,
        &[
            ("pie.pipeline", PIPELINE),
            ("pie.roots", "main()"),
            ("out/z", "junk"),
        ],
    )?;
    assert!(rt; is_refused(&built(alloc, files)));
    assert!(rt; holds(alloc, files, "out/z", "junk")?);
    Ok(())
}

#[test]
fn a_refused_build_changes_nothing(rt: HostRuntime) -> Result<(), Fail> {
    changes_nothing(&rt, rt.alloc(), &mut SureFiles::new(rt.alloc()))
}

fn put_with_mark(
    alloc: Global,
    files: &mut MemFiles,
    name: &str,
    bytes: &[u8],
    mark: u64,
) -> Result<(), Fail> {
    let path = path(alloc, name)?;
    files.put(&path, bytes, mark)?;
    Ok(())
}

// A project whose third call on the files fails.
fn failing(alloc: Global, files: &mut MemFiles) -> Result<(), Fail> {
    put_with_mark(alloc, files, "pie.pipeline", PIPELINE.as_bytes(), 1)?;
    put_with_mark(alloc, files, "pie.roots", b"main()", 2)?;
    put_with_mark(alloc, files, "src/foot", b"end", 3)?;
    Ok(files.fail_at(&[3])?)
}

#[test]
fn a_call_that_fails_is_told(rt: HostRuntime) -> Result<(), Fail> {
    let alloc = rt.alloc();
    let mut files = MemFiles::new(alloc);
    failing(alloc, &mut files)?;
    let failed = matches!(built(alloc, &mut files), Err(BuildError::Files));
    assert!(rt; failed);
    Ok(())
}
