//! Whole builds of projects in memory.
use pie_base::{FaultKind, Path};
use pie_checks::Built;
use pie_codegen::compile;
use pie_files::{Files, FilesError, MemFiles, SureFiles};
use pie_fresh::fresh;
use pie_lexer::lex;
use pie_parser::parse;
use pie_roots::read_roots;
use pie_types::{Typed, check};
use pie_value::{Refusal, Task, Verdict, show, show_task};
use pie_vm::Runs;
use std::alloc::Global;
use std::process::Abort;
use std::test::Fail;

// A project, and the result of its build.
struct Case {
    pipeline: &'static str,
    roots: &'static str,
    files: &'static [(&'static str, &'static str)],
    wanted: &'static str,
}

fn put_all(alloc: Global, files: &mut SureFiles, given: &[(&str, &str)]) -> Result<(), Fail> {
    for (path, text) in given {
        put(alloc, files, path, text.as_bytes())?;
    }
    Ok(())
}

fn put(alloc: Global, files: &mut SureFiles, path: &str, bytes: &[u8]) -> Result<(), Fail> {
    let path = Path::read(alloc, path).map_err(|_| "path")?;
    files.put(&path, bytes, 7)?;
    Ok(())
}

// A pipeline with its types.
fn typed(alloc: Global, pipeline: &str) -> Result<Typed, Fail> {
    let tokens = lex(alloc, pipeline).map_err(|_| "lex")?;
    let tree = parse(alloc, tokens.as_slice()).map_err(|_| "parse")?;
    Ok(check(alloc, tree).map_err(|_| "check")?)
}

fn build_typed<F: Files>(
    alloc: Global,
    typed: &Typed,
    roots: &[Task],
    files: &mut F,
    runs: &mut Runs,
) -> Result<Result<Built, FilesError>, Fail> {
    let code = compile(alloc, typed).map_err(|_| "compile")?;
    Ok(fresh(alloc, typed, code.as_slice(), roots, files, runs))
}

// The build of a project over some files.
fn build<F: Files>(
    alloc: Global,
    pipeline: &str,
    roots: &str,
    files: &mut F,
    runs: &mut Runs,
) -> Result<Result<Built, FilesError>, Fail> {
    let typed = typed(alloc, pipeline)?;
    let roots = read_roots(alloc, &typed, roots.as_bytes()).map_err(|_| "roots")?;
    build_typed(alloc, &typed, roots.as_slice(), files, runs)
}

// What a build answers, as text, and which tasks ran.
fn told(alloc: Global, built: &Result<Built, FilesError>, ran: &[Task]) -> Result<String, Fail> {
    let mut text = String::new(alloc);
    match built {
        Ok(built) => put_built(alloc, &mut text, built)?,
        Err(FilesError::Failed) => text.push_str("failed")?,
        Err(FilesError::OutOfMemory) => text.push_str("memory")?,
    }
    text.push_str(" / ran")?;
    put_tasks(alloc, &mut text, ran)?;
    Ok(text)
}

// The result of a build of a project over some files, as text.
fn said<F: Files>(
    alloc: Global,
    pipeline: &str,
    roots: &str,
    files: &mut F,
) -> Result<String, Fail> {
    let mut runs = Runs::new(alloc);
    let built = build(alloc, pipeline, roots, files, &mut runs)?;
    told(alloc, &built, runs.tasks())
}

// The same has to be this text.
fn says<F: Files>(
    rt: &impl Abort,
    alloc: Global,
    pipeline: &str,
    roots: &str,
    files: &mut F,
    wanted: &str,
) -> Result<(), Fail> {
    let text = said(alloc, pipeline, roots, files)?;
    assert!(rt; text.as_str() == wanted, "{pipeline}: {text}");
    Ok(())
}

// A build of a project over files that get those of the case.
fn holds(rt: &impl Abort, alloc: Global, case: &Case, files: &mut SureFiles) -> Result<(), Fail> {
    put_all(alloc, files, case.files)?;
    says(rt, alloc, case.pipeline, case.roots, files, case.wanted)
}

fn put_built(alloc: Global, text: &mut String, built: &Built) -> Result<(), Fail> {
    put_verdict(alloc, text, &built.verdict)?;
    put_rows(alloc, text, built)?;
    put_files(text, built)?;
    put_outputs(alloc, text, built)
}

fn put_rows(alloc: Global, text: &mut String, built: &Built) -> Result<(), Fail> {
    for row in &built.rows {
        text.push_str(" ")?;
        put_task(alloc, text, &row.task)?;
    }
    Ok(())
}

fn put_files(text: &mut String, built: &Built) -> Result<(), Fail> {
    for (path, content) in &built.files {
        text.push_str(" / ")?;
        text.push_str(path.as_str())?;
        text.push_str(" ")?;
        text.push_str(std::str::from_utf8(content.as_slice()).unwrap_or("bytes"))?;
    }
    Ok(())
}

fn put_outputs(alloc: Global, text: &mut String, built: &Built) -> Result<(), Fail> {
    for (task, output) in &built.outputs {
        text.push_str(" / ")?;
        put_task(alloc, text, task)?;
        text.push_str(" = ")?;
        text.push_str(show(alloc, output)?.as_str())?;
    }
    Ok(())
}

fn put_verdict(alloc: Global, text: &mut String, verdict: &Verdict) -> Result<(), Fail> {
    match verdict {
        Verdict::Accepted => Ok(text.push_str("accepted")?),
        Verdict::Refused(refusal) => put_refusal(alloc, text, refusal),
    }
}

fn put_refusal(alloc: Global, text: &mut String, refusal: &Refusal) -> Result<(), Fail> {
    match refusal {
        Refusal::Fault(fault) => {
            text.push_str("fault ")?;
            put_task(alloc, text, &fault.task)?;
            text.push_str(": ")?;
            text.push_str(name_of(&fault.kind))?;
            Ok(())
        }
        Refusal::Cycle(tasks) => {
            text.push_str("cycle")?;
            put_tasks(alloc, text, tasks.as_slice())
        }
        Refusal::Many => Ok(text.push_str("many")?),
        Refusal::Overlap(path, a, b) => put_pair(alloc, text, "overlap ", path, a, b),
        Refusal::Nested(path, other) => {
            text.push_str("nested ")?;
            text.push_str(path.as_str())?;
            text.push_str(" ")?;
            Ok(text.push_str(other.as_str())?)
        }
        Refusal::Hidden(path, a, b) => put_pair(alloc, text, "hidden ", path, a, b),
    }
}

fn put_pair(
    alloc: Global,
    text: &mut String,
    word: &str,
    path: &Path,
    a: &Task,
    b: &Task,
) -> Result<(), Fail> {
    text.push_str(word)?;
    text.push_str(path.as_str())?;
    text.push_str(" ")?;
    put_task(alloc, text, a)?;
    text.push_str(" ")?;
    put_task(alloc, text, b)
}

fn put_task(alloc: Global, text: &mut String, task: &Task) -> Result<(), Fail> {
    let shown = show_task(alloc, task)?;
    text.push_str(shown.as_str())?;
    Ok(())
}

fn put_tasks(alloc: Global, text: &mut String, tasks: &[Task]) -> Result<(), Fail> {
    for task in tasks {
        text.push_str(" ")?;
        put_task(alloc, text, task)?;
    }
    Ok(())
}

fn name_of(kind: &FaultKind) -> &'static str {
    match kind {
        FaultKind::NotText => "NotText",
        FaultKind::Clash => "Clash",
        FaultKind::Budget => "Budget",
        FaultKind::Big => "Big",
        FaultKind::Zero => "Zero",
        FaultKind::Null => "Null",
        FaultKind::Unknown => "Unknown",
        FaultKind::WroteTwice => "WroteTwice",
        FaultKind::ReadThenWrite => "ReadThenWrite",
        FaultKind::BadList => "BadList",
        _ => "another",
    }
}

const SITE: &str =
    "func page(src: path) -> path {\n  val body = get(read(src));\n  val foot = require footer();\n  val target = join(path(\"out\"), \
        name(src));\n  write(target, body + foot);\n  target\n}\nfunc footer() -> text { trim(get(read(path(\"inc/foot\")))) }\nfunc site() \
        -> int { len([require page(p) for p in list(path(\"src\"))]) }\n";

const ACCEPTED: [Case; 7] = [
    Case {
        pipeline: SITE,
        roots: "site()",
        files: &[
            ("src/a", "A\n"),
            ("src/b", "B\n"),
            ("src/c", "C\n"),
            ("inc/foot", "end\n"),
        ],
        wanted: "accepted footer() page(path(\"src/a\")) page(path(\"src/b\")) page(path(\"src/c\")) site() / out/a A\nend / out/b B\nend / \
            out/c C\nend / site() = 3 / ran site() page(path(\"src/a\")) footer() page(path(\"src/b\")) page(path(\"src/c\"))",
    },
    Case {
        pipeline: "func main() -> text { sha256(\"abc\") }",
        roots: "main()\nmain()",
        files: &[],
        wanted: "accepted main() / main() = \"ba7816bf8f01cfea414140de5dae2223b00361a396177a9cb410ff61f20015ad\" / main() = \
            \"ba7816bf8f01cfea414140de5dae2223b00361a396177a9cb410ff61f20015ad\" / ran main()",
    },
    Case {
        pipeline: "func main() -> text { get(read(path(\"s\"))) }",
        roots: "main()",
        files: &[("s", "1")],
        wanted: "accepted main() / main() = \"1\" / ran main()",
    },
    Case {
        pipeline: "func m(b: bytes) -> int { len(b) }",
        roots: "m(bytes(\"00ff\"))",
        files: &[],
        wanted: "accepted m(bytes(\"00ff\")) / m(bytes(\"00ff\")) = 2 / ran m(bytes(\"00ff\"))",
    },
    Case {
        pipeline: "func x() -> unit { write(path(\"out/p\"), \"P\"); } func y() -> int { if exists(path(\"flag\")) { run x(); }; 1 } func \
            t() -> text { run y(); if exists(path(\"out/p\")) { \"seen\" } else { \"none\" } }",
        roots: "t()",
        files: &[("flag", "")],
        wanted: "accepted x() y() t() / out/p P / t() = \"seen\" / ran t() y() x()",
    },
    Case {
        pipeline: "func x() -> unit { write(path(\"out/p\"), \"P\"); } func t() -> [text] { run x(); [get(read(path(\"out/p\"))), \
            get(digest(path(\"out/p\"))), require y() by hash] } func y() -> text { write(path(\"out/q\"), \"Q\"); get(read(path(\"out/q\"))) }",
        roots: "y()\n\nt()\n",
        files: &[],
        wanted: "accepted x() y() t() / out/p P / out/q Q / y() = \"Q\" / t() = [\"P\", \
            \"5c62e091b8c0565f1bafad0dad5934276143ae2ccef7a5381e8ada5b1a8d26d2\", \"Q\"] / ran y() t() x()",
    },
    Case {
        pipeline: "func main() -> [bool] { [exists(path(\"out\")), exists(path(\"pie.roots\")), exists(path(\"s\")), exists(path(\"d\"))] }",
        roots: "main()",
        files: &[("s", ""), ("d/e", ""), ("pie.roots", "x"), ("out", "x")],
        wanted: "accepted main() / main() = [false, false, true, false] / ran main()",
    },
];

#[test]
fn roots_are_evaluated_in_order(rt: HostRuntime) -> Result<(), Fail> {
    let alloc = rt.alloc();
    for case in &ACCEPTED {
        holds(&rt, alloc, case, &mut SureFiles::new(alloc))?;
    }
    Ok(())
}

const REFUSED: [Case; 14] = [
    Case {
        pipeline: "func p() -> int { require q() } func q() -> int { require r() } func r() -> int { require p() }",
        roots: "p()",
        files: &[],
        wanted: "cycle p() q() r() / ran p() q() r()",
    },
    Case {
        pipeline: "func a() -> int { require p() } func p() -> int { require q() } func q() -> int { require p() }",
        roots: "a()",
        files: &[],
        wanted: "cycle p() q() / ran a() p() q()",
    },
    Case {
        pipeline: "func w(n: int) -> unit { write(path(\"out/a\"), to_text(n)); } func main() -> unit { run w(1); run w(2); }",
        roots: "main()",
        files: &[],
        wanted: "overlap out/a w(1) w(2) / ran main() w(1) w(2)",
    },
    Case {
        pipeline: "func w(n: int) -> unit { write(path(\"out/a\"), to_text(n)); } func v() -> unit { write(path(\"out/a/b\"), \"\"); } func \
            main() -> unit { run w(1); run v(); }",
        roots: "main()",
        files: &[],
        wanted: "nested out/a out/a/b / ran main() w(1) v()",
    },
    Case {
        pipeline: "func w() -> unit { write(path(\"out/p\"), \"x\"); } func r() -> bool { val e = exists(path(\"out/p\")); run w(); e }",
        roots: "r()",
        files: &[],
        wanted: "hidden out/p r() w() / ran r() w()",
    },
    Case {
        pipeline: "func main() -> int { 1 / 0 } func next() -> int { 1 }",
        roots: "main()\nnext()",
        files: &[],
        wanted: "fault main(): Zero / ran main()",
    },
    Case {
        pipeline: "func w(n: int) -> unit { write(path(\"out/a\"), to_text(n)); } func t() -> text? { run w(1); run w(2); read(path(\"out/a\")) }",
        roots: "t()",
        files: &[],
        wanted: "fault t(): Clash / ran t() w(1) w(2)",
    },
    Case {
        pipeline: "func main() -> unit { write(path(\"out/page\"), get(read(path(\"src/page\"))) + \"!\"); }",
        roots: "main()",
        files: &[],
        wanted: "fault main(): Null / ran main()",
    },
    Case {
        pipeline: "func main() -> int { require f() } func f() -> int { require g() } func g() -> int { get(parse_int(get(read(path(\"s\"))))) }",
        roots: "main()",
        files: &[("s", "x")],
        wanted: "fault g(): Null / ran main() f() g()",
    },
    Case {
        pipeline: "func main() -> unit { write(path(\"out/a\"), \"1\"); write(path(\"out/a\"), \"1\"); }",
        roots: "main()",
        files: &[],
        wanted: "fault main(): WroteTwice / ran main()",
    },
    Case {
        pipeline: "func main() -> unit { if !exists(path(\"out/a\")) { write(path(\"out/a\"), \"1\"); } }",
        roots: "main()",
        files: &[],
        wanted: "fault main(): ReadThenWrite / ran main()",
    },
    Case {
        pipeline: "func main() -> int { len(list(path(\"out\"))) }",
        roots: "main()",
        files: &[("s", "x")],
        wanted: "fault main(): BadList / ran main()",
    },
    Case {
        pipeline: "func main() -> unit { write(path(\"out/a\"), \"1\"); write(path(\"out/b\"), get(read(path(\"out/a\")))); }",
        roots: "main()\nmain()",
        files: &[],
        wanted: "accepted main() / out/a 1 / out/b 1 / main() = unit / main() = unit / ran main()",
    },
    Case {
        pipeline: "func leaf(p: path) -> text { get(read(p)) } func mid() -> text { require leaf(path(\"x\")) + require leaf(path(\"y\")) } \
            func top() -> text { if exists(path(\"flag\")) { require mid() } else { \"-\" } }",
        roots: "top()\nmid()",
        files: &[("x", "3"), ("y", "4"), ("flag", "")],
        wanted: "accepted leaf(path(\"x\")) leaf(path(\"y\")) mid() top() / top() = \"34\" / mid() = \"34\" / ran top() mid() \
            leaf(path(\"x\")) leaf(path(\"y\"))",
    },
];

#[test]
fn a_refused_build_makes_nothing(rt: HostRuntime) -> Result<(), Fail> {
    let alloc = rt.alloc();
    for case in &REFUSED {
        holds(&rt, alloc, case, &mut SureFiles::new(alloc))?;
    }
    Ok(())
}

// Pipelines over a file `f` that is no text, each with the result of its build.
const OVER_BYTES: [(&str, &str); 3] = [
    (
        "func main() -> int { write(path(\"out/f\"), get(read_bytes(path(\"f\")))); len(get(read_bytes(path(\"f\")))) }",
        "accepted main() / out/f bytes / main() = 2 / ran main()",
    ),
    (
        "func main() -> text? { from_bytes(get(read_bytes(path(\"f\")))) }",
        "accepted main() / main() = null / ran main()",
    ),
    (
        "func main() -> text? { read(path(\"f\")) }",
        "fault main(): NotText / ran main()",
    ),
];

#[test]
fn bytes_that_are_no_text_are_written_and_read(rt: HostRuntime) -> Result<(), Fail> {
    let alloc = rt.alloc();
    let mut files = SureFiles::new(alloc);
    put(alloc, &mut files, "f", &[255, 0])?;
    for (pipeline, wanted) in OVER_BYTES {
        says(&rt, alloc, pipeline, "main()", &mut files, wanted)?;
    }
    Ok(())
}

const CHAIN: &str =
    "func f(n: int) -> int { if n == 0 { 0 } else { require f(n - 1) + 1 } } func top() -> int { len([require f(300) for i in range(0, 3)]) }";

fn has_rows(built: &Result<Built, FilesError>, many: usize) -> bool {
    match built {
        Ok(built) => built.rows.len() == many,
        Err(_) => false,
    }
}

#[test]
fn a_long_chain_and_a_task_that_many_require(rt: HostRuntime) -> Result<(), Fail> {
    let alloc = rt.alloc();
    let mut files = SureFiles::new(alloc);
    let mut runs = Runs::new(alloc);
    let built = build(alloc, CHAIN, "top()\nf(300)", &mut files, &mut runs)?;
    assert!(&rt; runs.count() == 302 && has_rows(&built, 302));
    Ok(())
}

// A build whose first call on the files fails.
fn failing(alloc: Global, files: &mut MemFiles) -> Result<String, Fail> {
    let path = Path::read(alloc, "s").map_err(|_| "path")?;
    files.put(&path, b"1", 7)?;
    files.fail_at(&[1])?;
    let pipeline = "func main() -> text { get(read(path(\"s\"))) }";
    said(alloc, pipeline, "main()", files)
}

#[test]
fn a_call_that_fails_ends_the_build(rt: HostRuntime) -> Result<(), Fail> {
    let text = failing(rt.alloc(), &mut MemFiles::new(rt.alloc()))?;
    assert!(&rt; text.as_str() == "failed / ran main()");
    Ok(())
}

// Pipelines over a source `s` of 1,048,572 bytes, each with the result of its build.
const OVER_LONG: [(&str, &str); 4] = [
    (
        "func main() -> unit { read(path(\"s\")); }",
        "fault main(): Big / ran main()",
    ),
    (
        "func main() -> unit { read_bytes(path(\"s\")); }",
        "fault main(): Big / ran main()",
    ),
    (
        "func main() -> unit { read(path(\"s\") by mark); }",
        "fault main(): Big / ran main()",
    ),
    (
        "func main() -> [bool] { [exists(path(\"s\")), is_null(digest(path(\"s\")))] }",
        "accepted main() / main() = [true, false] / ran main()",
    ),
];

// Over a source of so many bytes these pipelines have these results.
fn over_source(
    rt: &impl Abort,
    alloc: Global,
    len: usize,
    cases: &[(&str, &str)],
) -> Result<(), Fail> {
    let mut files = SureFiles::new(alloc);
    put_long(alloc, &mut files, len)?;
    for (pipeline, wanted) in cases {
        says(rt, alloc, *pipeline, "main()", &mut files, *wanted)?;
    }
    Ok(())
}

fn put_long(alloc: Global, files: &mut SureFiles, len: usize) -> Result<(), Fail> {
    let content = vec![in alloc; b'x'; len]?;
    put(alloc, files, "s", content.as_slice())
}

#[test]
fn a_source_that_is_too_long_to_be_a_value_is_big(rt: HostRuntime) -> Result<(), Fail> {
    let alloc = rt.alloc();
    let reads =
        "func main() -> int { len(get(read(path(\"s\")))) + len(get(read_bytes(path(\"s\")))) }";
    let wanted = "accepted main() / main() = 2097142 / ran main()";
    over_source(&rt, alloc, 1_048_571, &[(reads, wanted)])?;
    over_source(&rt, alloc, 1_048_572, OVER_LONG.as_slice())
}
