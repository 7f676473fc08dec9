//! Projects of directories in memory.
use pie_base::Path;
use pie_files::{Files, MemFiles, SureFiles};
use pie_lexer::LexError;
use pie_parser::ParseError;
use pie_project::{BuildError, PipelineFault, Project, RootsReason, check_project, read_project};
use pie_types::TypeKind;
use std::alloc::Global;
use std::test::Fail;

const SITE: &str = "func page(src: path) -> path {
  val body = get(read(src));
  val foot = require footer();
  val target = join(path(\"out\"), name(src));
  write(target, body + foot);
  target
}
func footer() -> text { trim(get(read(path(\"inc/foot\")))) }
func site() -> int { len([require page(p) for p in list(path(\"src\"))]) }
";

fn path(alloc: Global, text: &str) -> Result<Path, Fail> {
    Ok(Path::read(alloc, text).map_err(|_| "path")?)
}

// A directory gets this pipeline and these roots.
fn fill(alloc: Global, files: &mut SureFiles, pipeline: &[u8], roots: &[u8]) -> Result<(), Fail> {
    files.put(&path(alloc, "pie.pipeline")?, pipeline, 100)?;
    files.put(&path(alloc, "pie.roots")?, roots, 101)?;
    Ok(())
}

fn text(alloc: Global, text: &str) -> Result<String, Fail> {
    Ok(String::from_str(alloc, text)?)
}

// What a check answers, as text.
fn said<F: Files>(alloc: Global, files: &mut F) -> Result<String, Fail> {
    match check_project(alloc, files) {
        Ok((functions, roots)) => Ok(format!(in alloc; "{functions} {roots}")?),
        Err(error) => of_error(alloc, &error),
    }
}

fn of_error(alloc: Global, error: &BuildError) -> Result<String, Fail> {
    match error {
        BuildError::Pipeline(fault) => of_pipeline(alloc, fault),
        BuildError::Roots(reason) => of_roots(alloc, *reason),
        BuildError::Files => text(alloc, "files"),
        BuildError::OutOfMemory => text(alloc, "memory"),
    }
}

fn of_pipeline(alloc: Global, fault: &PipelineFault) -> Result<String, Fail> {
    match fault {
        PipelineFault::Absent => text(alloc, "pipeline absent"),
        PipelineFault::TooLong => text(alloc, "pipeline too long"),
        PipelineFault::NotText => text(alloc, "pipeline not text"),
        PipelineFault::Lex(error) => of_lexer(alloc, *error),
        PipelineFault::Parse(error) => of_parser(alloc, *error),
        PipelineFault::Types(fault) => placed(alloc, kind_name(&fault.kind), fault.at as u64),
    }
}

// A name and a place.
fn placed(alloc: Global, name: &str, at: u64) -> Result<String, Fail> {
    Ok(format!(in alloc; "{name} {at}")?)
}

fn of_lexer(alloc: Global, error: LexError) -> Result<String, Fail> {
    match error {
        LexError::BadChar(at) => placed(alloc, "BadChar", at as u64),
        _ => text(alloc, "lexer"),
    }
}

fn of_parser(alloc: Global, error: ParseError) -> Result<String, Fail> {
    match error {
        ParseError::Expected(at) => placed(alloc, "Expected", at as u64),
        ParseError::TooDeep(at) => placed(alloc, "TooDeep", at as u64),
        ParseError::OutOfMemory => text(alloc, "memory"),
    }
}

fn of_roots(alloc: Global, reason: RootsReason) -> Result<String, Fail> {
    match reason {
        RootsReason::Absent => text(alloc, "roots absent"),
        RootsReason::TooLong => text(alloc, "roots too long"),
        RootsReason::NotText => text(alloc, "roots not text"),
        RootsReason::Line(line) => placed(alloc, "line", line as u64),
    }
}

fn kind_name(kind: &TypeKind) -> &'static str {
    match kind {
        TypeKind::UnknownName => "UnknownName",
        TypeKind::UnknownFunction => "UnknownFunction",
        TypeKind::Mismatch(_, _) => "Mismatch",
        TypeKind::Arity => "Arity",
        TypeKind::Duplicate => "Duplicate",
        TypeKind::TooManyNames => "TooManyNames",
    }
}

// What a check answers of a directory that gets this pipeline and these roots.
fn said_in(
    alloc: Global,
    files: &mut SureFiles,
    pipeline: &[u8],
    roots: &[u8],
) -> Result<String, Fail> {
    fill(alloc, files, pipeline, roots)?;
    said(alloc, files)
}

fn said_of(alloc: Global, pipeline: &[u8], roots: &[u8]) -> Result<String, Fail> {
    said_in(alloc, &mut SureFiles::new(alloc), pipeline, roots)
}

#[test]
fn a_project_is_counted_or_refused_at_its_first_fault(rt: HostRuntime) -> Result<(), Fail> {
    let cases = [
        (SITE, "site()\n", "3 1"),
        (SITE, "", "3 0"),
        (
            SITE,
            "// roots\n\nsite()\r\npage(path(\"src/a\"))\nsite()",
            "3 3",
        ),
        ("", "", "0 0"),
        (SITE, "nope()", "line 1"),
        (SITE, "\n// a\nsite()\npage(\"src/a\")\nnope()", "line 4"),
        (SITE, "site() site()", "line 1"),
        ("func main() -> int { \"a\" }", "nope()", "Mismatch 21"),
        ("func f( $", "", "BadChar 8"),
        ("func f() -> int { 1 + }", "", "Expected 22"),
        (
            "func m(b: bytes) -> int { len(b) }",
            "m(bytes(\"00ff\"))",
            "1 1",
        ),
    ];
    let alloc = rt.alloc();
    for (pipeline, roots, wanted) in cases {
        let found = said_of(alloc, pipeline.as_bytes(), roots.as_bytes())?;
        assert!(rt; found.as_str() == wanted, "{pipeline}: {roots}: {found}");
    }
    Ok(())
}

#[test]
fn absent_long_and_broken_files_are_told(rt: HostRuntime) -> Result<(), Fail> {
    let alloc = rt.alloc();
    let longest = vec![in alloc; b' '; 1_048_576]?;
    let too_long = vec![in alloc; b' '; 1_048_577]?;
    let none: &[u8] = b"";
    let rows: [(&[u8], &[u8], &str); 5] = [
        (&longest, &longest, "0 0"),
        (none, &too_long, "roots too long"),
        (&too_long, b"nope()", "pipeline too long"),
        (b"\xff", b"\xff", "pipeline not text"),
        (none, b"\xff", "roots not text"),
    ];
    for (pipeline, roots, wanted) in rows {
        let found = said_of(alloc, pipeline, roots)?;
        assert!(rt; found.as_str() == wanted, "{found}");
    }
    let found = said(alloc, &mut SureFiles::new(alloc))?;
    assert!(rt; found.as_str() == "pipeline absent", "{found}");
    Ok(())
}

// What a check answers of an empty pipeline where the call with this number fails.
fn said_failing(alloc: Global, files: &mut MemFiles, call: u64) -> Result<String, Fail> {
    files.put(&path(alloc, "pie.pipeline")?, b"", 100)?;
    files.fail_at(&[call])?;
    said(alloc, files)
}

#[test]
fn a_call_that_fails_is_told(rt: HostRuntime) -> Result<(), Fail> {
    let alloc = rt.alloc();
    for call in 1..=3u64 {
        let found = said_failing(alloc, &mut MemFiles::new(alloc), call)?;
        let wanted = if call < 3 { "files" } else { "roots absent" };
        assert!(rt; found.as_str() == wanted, "call {call}: {found}");
    }
    Ok(())
}

// The SHA-256 of `func one ( ) -> int { 1 }`.
const ONE: &[u8] =
    b"\xa5\x44\xae\xef\xe7\x55\xc5\x55\x25\x84\x83\x97\x79\x02\xc7\x56\x5f\x3c\x9f\x84\xf5\xc0\xf8\xf6\x4b\x0c\x44\xdc\xa0\xed\xb9\xb1";

// Two functions are digested, the first of them is `one`, with this digest, and the other is `three`.
fn digests_are(found: &Project, one: &[u8]) -> bool {
    match found.digests.as_slice() {
        [(first, digest), (second, _)] => {
            first.as_str() == "one" && digest.as_slice() == one && second.as_str() == "three"
        }
        _ => false,
    }
}

#[test]
fn a_project_keeps_the_digests_of_its_functions(rt: HostRuntime) -> Result<(), Fail> {
    let alloc = rt.alloc();
    let pipeline = "func three() -> int { 3 }\nfunc one( ) -> int { 1 } // the first by name";
    let mut files = SureFiles::new(alloc);
    fill(alloc, &mut files, pipeline.as_bytes(), b"")?;
    match read_project(alloc, &mut files) {
        Ok(found) => assert!(rt; digests_are(&found, ONE)),
        Err(_) => return Err(Fail::from("a project")),
    }
    Ok(())
}
