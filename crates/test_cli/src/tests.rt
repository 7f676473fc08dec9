//! Whole runs over memory.
use pie_base::{Path, Status};
use pie_cli::run;
use pie_files::{Files, Found, MemFiles, MemSink, MemSource, SureFiles};
use std::alloc::Global;
use std::process::Abort;
use std::test::Fail;

const PIPELINE: &str =
    "func main() -> unit { write(path(\"out/page\"), get(read(path(\"src/page\"))) + \"!\"); }";

const BUILT: &str = "accepted\nran main()\nwrote out/page\nlive 1\noutput main() = unit\n";

fn words_of(alloc: Global, words: &[&str]) -> Result<Vec<String>, Fail> {
    let mut list = Vec::new(alloc);
    for word in words {
        list.push(String::from_str(alloc, word)?)?;
    }
    Ok(list)
}

fn text_of(alloc: Global, out: &MemSink) -> Result<String, Fail> {
    Ok(String::from_utf8(out.bytes().to_vec(alloc)?)?)
}

// What a run with these words and this input ends with, and what it prints.
pub(crate) fn run_with_input<F: Files>(
    alloc: Global,
    words: &[&str],
    files: &mut F,
    input: &mut MemSource,
) -> Result<(Status, String), Fail> {
    let list = words_of(alloc, words)?;
    let mut out = MemSink::new(alloc);
    let status = run(alloc, &list, files, input, &mut out);
    Ok((status, text_of(alloc, &out)?))
}

// The same with an empty input.
pub(crate) fn run_words<F: Files>(
    alloc: Global,
    words: &[&str],
    files: &mut F,
) -> Result<(Status, String), Fail> {
    run_with_input(
        alloc,
        words,
        files,
        &mut MemSource::new(alloc, Vec::new(alloc)),
    )
}

// A run with these words and this input ends with this status and prints this text.
pub(crate) fn prints_with<F: Files>(
    rt: &impl Abort,
    alloc: Global,
    words: &[&str],
    files: &mut F,
    input: &mut MemSource,
    wanted: Status,
    printed: &str,
) -> Result<(), Fail> {
    let (status, text) = run_with_input(alloc, words, files, input)?;
    assert!(rt; status == wanted, "{printed}: {text}");
    assert!(rt; text.as_str() == printed, "{printed}: {text}");
    Ok(())
}

// The same with an empty input.
pub(crate) fn prints<F: Files>(
    rt: &impl Abort,
    alloc: Global,
    words: &[&str],
    files: &mut F,
    wanted: Status,
    printed: &str,
) -> Result<(), Fail> {
    let mut input = MemSource::new(alloc, Vec::new(alloc));
    prints_with(rt, alloc, words, files, &mut input, wanted, printed)
}

fn path(alloc: Global, text: &str) -> Result<Path, Fail> {
    Ok(Path::read(alloc, text).map_err(|_| "path")?)
}

fn put(alloc: Global, files: &mut SureFiles, name: &str, bytes: &str) -> Result<(), Fail> {
    let path = path(alloc, name)?;
    files.put(&path, bytes.as_bytes(), 100)?;
    Ok(())
}

fn fill(alloc: Global, files: &mut SureFiles, held: &[(&str, &str)]) -> Result<(), Fail> {
    for (name, bytes) in held {
        put(alloc, files, *name, *bytes)?;
    }
    Ok(())
}

// A project of these files.
pub(crate) fn project(alloc: Global, held: &[(&str, &str)]) -> Result<SureFiles, Fail> {
    let mut files = SureFiles::new(alloc);
    fill(alloc, &mut files, held)?;
    Ok(files)
}

fn found<F: Files>(alloc: Global, files: &mut F, name: &str) -> Result<Option<Found>, Fail> {
    let path = path(alloc, name)?;
    Ok(files.read(&path).map_err(|_| "read")?)
}

pub(crate) fn holds<F: Files>(
    alloc: Global,
    files: &mut F,
    name: &str,
    bytes: &str,
) -> Result<bool, Fail> {
    let found = found(alloc, files, name)?;
    Ok(found.is_some_and(|f| f.bytes.as_slice() == bytes.as_bytes()))
}

fn builds_page(rt: &impl Abort, alloc: Global, files: &mut SureFiles) -> Result<(), Fail> {
    prints(rt, alloc, &["fresh"], files, Status::Ok, BUILT)?;
    assert!(rt; holds(alloc, files, "out/page", "hi!")?);
    Ok(())
}

fn builds_page_twice(rt: &impl Abort, alloc: Global, files: &mut SureFiles) -> Result<(), Fail> {
    builds_page(rt, alloc, files)?;
    builds_page(rt, alloc, files)
}

#[test]
fn a_first_project_is_built_twice_alike(rt: HostRuntime) -> Result<(), Fail> {
    let alloc = rt.alloc();
    let held = [
        ("pie.pipeline", PIPELINE),
        ("pie.roots", "main()"),
        ("src/page", "hi"),
    ];
    builds_page_twice(&rt, alloc, &mut project(alloc, &held)?)
}

const STRAY_REMOVED: &str =
    "accepted\nran main()\nwrote out/page\nremoved out/z\nlive 1\noutput main() = unit\n";

fn removes_stray(rt: &impl Abort, alloc: Global, files: &mut SureFiles) -> Result<(), Fail> {
    prints(rt, alloc, &["fresh"], files, Status::Ok, STRAY_REMOVED)?;
    assert!(rt; holds(alloc, files, "out/page", "!")?);
    assert!(rt; holds(alloc, files, "outer", "stays")?);
    assert!(rt; found(alloc, files, "out/z")?.is_none());
    Ok(())
}

#[test]
fn a_stray_file_is_removed_and_told(rt: HostRuntime) -> Result<(), Fail> {
    let alloc = rt.alloc();
    let held = [
        ("pie.pipeline", PIPELINE),
        ("pie.roots", "main()\n"),
        ("src/page", ""),
        ("out/z", "junk"),
        ("outer", "stays"),
    ];
    removes_stray(&rt, alloc, &mut project(alloc, &held)?)
}

// A run on a pipeline with these roots: the status, and what is printed.
fn built(
    rt: &impl Abort,
    alloc: Global,
    words: &[&str],
    pipeline: &str,
    roots: &str,
    wanted: Status,
    printed: &str,
) -> Result<(), Fail> {
    let mut files = project(alloc, &[("pie.pipeline", pipeline), ("pie.roots", roots)])?;
    prints(rt, alloc, words, &mut files, wanted, printed)
}

#[test]
fn each_build_is_told_with_its_status(rt: HostRuntime) -> Result<(), Fail> {
    let alloc = rt.alloc();
    let writer =
        "func w(n: int) -> unit { write(path(\"out/a\"), to_text(n)); } func main() -> unit { run w(1); run w(2); }";
    let cases = [
        (
            PIPELINE,
            "main()",
            Status::Refused,
            "refused fault main(): Null\nran main()\n",
        ),
        (
            "func main() -> int { 1 / 0 }",
            "main()",
            Status::Refused,
            "refused fault main(): Zero\nran main()\n",
        ),
        (
            writer,
            "main()",
            Status::Refused,
            "refused overlap out/a: w(1), w(2)\nran w(1)\nran w(2)\nran main()\n",
        ),
        (
            "func main() -> int { 7 }",
            "main()\nmain()",
            Status::Ok,
            "accepted\nran main()\nlive 1\noutput main() = 7\noutput main() = 7\n",
        ),
        ("", "", Status::Ok, "accepted\nlive 0\n"),
        (
            "func main() -> int { \"a\" }",
            "main()",
            Status::Pipeline,
            "bad pipeline: at 21: Mismatch\n",
        ),
        (PIPELINE, "nope()", Status::Pipeline, "bad roots: line 1\n"),
    ];
    for (pipeline, root, wanted, printed) in cases {
        built(&rt, alloc, &["fresh"], pipeline, root, wanted, printed)?;
    }
    Ok(())
}

#[test]
fn a_report_is_one_line_with_json(rt: HostRuntime) -> Result<(), Fail> {
    let alloc = rt.alloc();
    let words = ["fresh", "--json"];
    let printed =
        "{\"fresh\":null,\"live\":1,\"outputs\":[[\"main()\",\"7\"]],\"ran\":[\"main()\"],\"removed\":[],\"verdict\":\"accepted\",\"wrote\":[]}\n";
    built(
        &rt,
        alloc,
        &words,
        "func main() -> int { 7 }",
        "main()",
        Status::Ok,
        printed,
    )?;
    let printed = "bad roots: line 1\n";
    built(
        &rt,
        alloc,
        &words,
        PIPELINE,
        "nope()",
        Status::Pipeline,
        printed,
    )
}

#[test]
fn a_check_tells_the_counts_or_the_first_refusal(rt: HostRuntime) -> Result<(), Fail> {
    let alloc = rt.alloc();
    let two = "func f(n: int) -> int { n } func g() -> bytes? { read_bytes(path(\"a\")) }";
    let cases = [
        (
            two,
            "f(1)\nf(2)\ng()",
            Status::Ok,
            "ok 2 functions, 3 roots\n",
        ),
        ("", "", Status::Ok, "ok 0 functions, 0 roots\n"),
        (PIPELINE, "main()", Status::Ok, "ok 1 functions, 1 roots\n"),
        (two, "f()", Status::Pipeline, "bad roots: line 1\n"),
        (two, "\nf(-0)", Status::Pipeline, "bad roots: line 2\n"),
        ("\"", "", Status::Pipeline, "bad pipeline: at 0: OpenText\n"),
        (
            "func",
            "",
            Status::Pipeline,
            "bad pipeline: at 4: Expected\n",
        ),
        (
            "func main() -> int { \"a\" }",
            "",
            Status::Pipeline,
            "bad pipeline: at 21: Mismatch\n",
        ),
    ];
    for (pipeline, roots, wanted, printed) in cases {
        built(&rt, alloc, &["check"], pipeline, roots, wanted, printed)?;
    }
    let mut files = project(alloc, &[("pie.pipeline", "")])?;
    let absent = "bad roots: absent\n";
    prints(&rt, alloc, &["check"], &mut files, Status::Pipeline, absent)
}

fn prints_the_usage_line(rt: &impl Abort, alloc: Global, words: &[&str]) -> Result<(), Fail> {
    let usage =
        "usage: pie check, fresh [--json], build [--json], replay [--json], demo SEED SIZE, topdown [--json], scan, auto, cached\n";
    let mut files = SureFiles::new(alloc);
    prints(rt, alloc, words, &mut files, Status::Usage, usage)?;
    assert!(rt; files.log().is_empty());
    Ok(())
}

#[test]
fn other_words_print_the_usage_line(rt: HostRuntime) -> Result<(), Fail> {
    let alloc = rt.alloc();
    prints_the_usage_line(&rt, alloc, &["frob", "x"])?;
    prints_the_usage_line(&rt, alloc, &["fresh", "fresh"])?;
    prints_the_usage_line(&rt, alloc, &["check", "--json"])?;
    prints_the_usage_line(&rt, alloc, &[])
}

fn put_marked(
    alloc: Global,
    files: &mut MemFiles,
    name: &str,
    bytes: &str,
    mark: u64,
) -> Result<(), Fail> {
    let path = path(alloc, name)?;
    files.put(&path, bytes.as_bytes(), mark)?;
    Ok(())
}

fn fill_page(alloc: Global, files: &mut MemFiles) -> Result<(), Fail> {
    put_marked(alloc, files, "pie.pipeline", PIPELINE, 100)?;
    put_marked(alloc, files, "pie.roots", "main()", 101)?;
    put_marked(alloc, files, "src/page", "hi", 102)?;
    put_marked(alloc, files, "out/z", "junk", 103)
}

// Whether a build ends as one on which a call on the files failed. It prints so just then.
fn is_failed(
    rt: &impl Abort,
    alloc: Global,
    files: &mut MemFiles,
    call: u64,
) -> Result<bool, Fail> {
    let (status, text) = run_words(alloc, &["fresh"], files)?;
    assert!(rt;
        (text.as_str() == "files fault\n") == (status == Status::Files),
        "call {call}: {text}"
    );
    Ok(status == Status::Files)
}

// A build whose call of this number on the files fails: whether one did. What stands outside `out/` is as before.
fn fails_at(rt: &impl Abort, alloc: Global, files: &mut MemFiles, call: u64) -> Result<bool, Fail> {
    fill_page(alloc, files)?;
    files.fail_at(&[call])?;
    let failed = is_failed(rt, alloc, files, call)?;
    files.fail_at(&[])?;
    assert!(rt; holds(alloc, files, "src/page", "hi")?);
    Ok(failed)
}

#[test]
fn each_call_on_the_files_that_fails_ends_the_run(rt: HostRuntime) -> Result<(), Fail> {
    let alloc = rt.alloc();
    for call in 1..=8u64 {
        assert!(rt;
            fails_at(&rt, alloc, &mut MemFiles::new(alloc), call)?,
            "call {call}"
        );
    }
    assert!(rt; !fails_at(&rt, alloc, &mut MemFiles::new(alloc), 100)?);
    Ok(())
}

// How a build ends whose output is this.
fn status_over(alloc: Global, files: &mut SureFiles, out: &mut MemSink) -> Result<Status, Fail> {
    let words = words_of(alloc, &["fresh"])?;
    let mut input = MemSource::new(alloc, Vec::new(alloc));
    Ok(run(alloc, &words, files, &mut input, out))
}

fn prints_nothing(
    rt: &impl Abort,
    alloc: Global,
    files: &mut SureFiles,
    out: &mut MemSink,
) -> Result<(), Fail> {
    out.fail_at(alloc, &[1])?;
    let status = status_over(alloc, files, out)?;
    assert_eq!(rt; status, Status::Output);
    assert!(rt; out.bytes().is_empty());
    assert!(rt; holds(alloc, files, "out/page", "hi!")?);
    Ok(())
}

#[test]
fn an_output_that_fails_ends_with_its_status(rt: HostRuntime) -> Result<(), Fail> {
    let alloc = rt.alloc();
    let held = [
        ("pie.pipeline", PIPELINE),
        ("pie.roots", "main()"),
        ("src/page", "hi"),
    ];
    let mut files = project(alloc, &held)?;
    prints_nothing(&rt, alloc, &mut files, &mut MemSink::new(alloc))
}
