//! Whole clean builds over memory: what each prints, and the status that it ends with.
use crate::tests::{holds, prints, project};
use pie_base::Status;
use pie_files::SureFiles;
use std::alloc::Global;
use std::process::Abort;
use std::test::Fail;

const SITE: &str = "func page(src: path) -> path {
  val body = get(read(src));
  val foot = require footer();
  val target = join(path(\"out\"), name(src));
  write(target, body + foot);
  target
}
func footer() -> text { trim(get(read(path(\"inc/foot\")))) }
func site() -> int { len([require page(p) for p in list(path(\"src\"))]) }
";

const SITE_BUILT: &str = "accepted
ran page(path(\"src/a\"))
ran page(path(\"src/b\"))
ran page(path(\"src/c\"))
ran site()
ran footer()
wrote out/a
wrote out/b
wrote out/c
live 5
output site() = 3
";

const WRITER: &str = "func w(n: int) -> unit { write(path(\"out/a\"), to_text(n)); }\n";

// A build of these files ends with this status and prints this text.
fn evaluates_to(
    rt: &impl Abort,
    alloc: Global,
    held: &[(&str, &str)],
    wanted: Status,
    printed: &str,
) -> Result<(), Fail> {
    let mut files = project(alloc, held)?;
    prints(rt, alloc, &["fresh"], &mut files, wanted, printed)
}

// A build of this pipeline with this root.
fn builds(
    rt: &impl Abort,
    alloc: Global,
    pipeline: &str,
    roots: &str,
    wanted: Status,
    printed: &str,
) -> Result<(), Fail> {
    evaluates_to(
        rt,
        alloc,
        &[("pie.pipeline", pipeline), ("pie.roots", roots)],
        wanted,
        printed,
    )
}

// A build of this pipeline and a text with this root.
fn builds_with(
    rt: &impl Abort,
    alloc: Global,
    writer: &str,
    pipeline: &str,
    roots: &str,
    printed: &str,
) -> Result<(), Fail> {
    let mut whole = String::from_str(alloc, writer)?;
    whole.push_str(pipeline)?;
    builds(rt, alloc, whole.as_str(), roots, Status::Refused, printed)
}

fn builds_site(rt: &impl Abort, alloc: Global, files: &mut SureFiles) -> Result<(), Fail> {
    prints(rt, alloc, &["fresh"], files, Status::Ok, SITE_BUILT)?;
    assert!(rt; holds(alloc, files, "out/a", "A\nend")?);
    assert!(rt; holds(alloc, files, "out/b", "B\nend")?);
    assert!(rt; holds(alloc, files, "out/c", "C\nend")?);
    Ok(())
}

#[test]
fn a_site_is_built(rt: HostRuntime) -> Result<(), Fail> {
    let alloc = rt.alloc();
    let held = [
        ("pie.pipeline", SITE),
        ("pie.roots", "site()\n"),
        ("src/a", "A\n"),
        ("src/b", "B\n"),
        ("src/c", "C\n"),
        ("inc/foot", "end\n"),
    ];
    builds_site(&rt, alloc, &mut project(alloc, &held)?)
}

#[test]
fn a_required_task_hands_its_output_on(rt: HostRuntime) -> Result<(), Fail> {
    evaluates_to(
        &rt,
        rt.alloc(),
        &[
            (
                "pie.pipeline",
                "func main() -> unit { write(path(\"out/page\"), require foot()); } func foot() -> text { get(read(path(\"inc/foot\"))) }",
            ),
            ("pie.roots", "main()"),
            ("inc/foot", "end"),
        ],
        Status::Ok,
        "accepted\nran foot()\nran main()\nwrote out/page\nlive 2\noutput main() = unit\n",
    )
}

#[test]
fn a_cycle_is_told_from_the_task_that_is_required_again(rt: HostRuntime) -> Result<(), Fail> {
    let three =
        "func p() -> int { require q() } func q() -> int { require r() } func r() -> int { require p() } func s() -> int { require q() }";
    let alloc = rt.alloc();
    builds(
        &rt,
        alloc,
        three,
        "p()",
        Status::Refused,
        "refused cycle p() -> q() -> r()\nran p()\nran q()\nran r()\n",
    )?;
    builds(
        &rt,
        alloc,
        three,
        "s()",
        Status::Refused,
        "refused cycle q() -> r() -> p()\nran p()\nran q()\nran r()\nran s()\n",
    )
}

#[test]
fn two_writers_of_a_path_are_refused(rt: HostRuntime) -> Result<(), Fail> {
    let alloc = rt.alloc();
    builds_with(
        &rt,
        alloc,
        WRITER,
        "func main() -> unit { run w(2); run w(1); }",
        "main()",
        "refused overlap out/a: w(1), w(2)\nran w(1)\nran w(2)\nran main()\n",
    )?;
    builds_with(
        &rt,
        alloc,
        WRITER,
        "func v() -> unit { write(path(\"out/a/b\"), \"\"); } func main() -> unit { run w(1); run v(); }",
        "main()",
        "refused nested out/a, out/a/b\nran v()\nran w(1)\nran main()\n",
    )?;
    builds_with(
        &rt,
        alloc,
        WRITER,
        "func t() -> text? { run w(1); run w(2); read(path(\"out/a\")) }",
        "t()",
        "refused fault t(): Clash\nran t()\nran w(1)\nran w(2)\n",
    )
}

#[test]
fn a_path_that_was_absent_and_is_written_later_is_refused(rt: HostRuntime) -> Result<(), Fail> {
    builds(
        &rt,
        rt.alloc(),
        "func w() -> unit { write(path(\"out/p\"), \"x\"); } func r() -> bool { val e = exists(path(\"out/p\")); run w(); e }",
        "r()",
        Status::Refused,
        "refused hidden out/p: r(), w()\nran r()\nran w()\n",
    )
}

#[test]
fn a_fault_is_told_with_its_task(rt: HostRuntime) -> Result<(), Fail> {
    let alloc = rt.alloc();
    builds(
        &rt,
        alloc,
        "func main() -> int { 1 / 0 }",
        "main()",
        Status::Refused,
        "refused fault main(): Zero\nran main()\n",
    )?;
    builds(
        &rt,
        alloc,
        "func a() -> int { require b(1) } func b(n: int) -> int { fail int(\"no \" + to_text(n)) } func c() -> int { 1 }",
        "c()\na()\nc()",
        Status::Refused,
        "refused fault b(1): Said \"no 1\"\nran a()\nran b(1)\nran c()\n",
    )
}

#[test]
fn outputs_are_told_for_each_root(rt: HostRuntime) -> Result<(), Fail> {
    let alloc = rt.alloc();
    builds(
        &rt,
        alloc,
        "func main() -> text { sha256(\"abc\") }",
        "main()",
        Status::Ok,
        "accepted\nran main()\nlive 1\noutput main() = \"ba7816bf8f01cfea414140de5dae2223b00361a396177a9cb410ff61f20015ad\"\n",
    )?;
    builds(
        &rt,
        alloc,
        "func m(b: bytes) -> int { len(b) } func n() -> int { require m(to_bytes(\"a\")) }",
        "m(bytes(\"00ff\"))\nn()\nm(bytes(\"00ff\"))",
        Status::Ok,
        "accepted\nran m(bytes(\"61\"))\nran m(bytes(\"00ff\"))\nran n()\nlive 3\noutput m(bytes(\"00ff\")) = 2\noutput n() = 1\noutput \
            m(bytes(\"00ff\")) = 2\n",
    )?;
    builds(&rt, alloc, "", "", Status::Ok, "accepted\nlive 0\n")
}

#[test]
fn a_task_has_a_million_ticks(rt: HostRuntime) -> Result<(), Fail> {
    let alloc = rt.alloc();
    builds(
        &rt,
        alloc,
        "func main() -> int { len([1 for z in range(0, 990)]); len([len([x for y in range(0, 995)]) for x in range(0, 999)]) }",
        "main()",
        Status::Ok,
        "accepted\nran main()\nlive 1\noutput main() = 999\n",
    )?;
    builds(
        &rt,
        alloc,
        "func main() -> int { len([1 for z in range(0, 991)]); len([len([x for y in range(0, 995)]) for x in range(0, 999)]) }",
        "main()",
        Status::Refused,
        "refused fault main(): Budget\nran main()\n",
    )
}

#[test]
fn bad_projects_are_told(rt: HostRuntime) -> Result<(), Fail> {
    let alloc = rt.alloc();
    builds(
        &rt,
        alloc,
        "func main() -> int { \"a\" }",
        "main()",
        Status::Pipeline,
        "bad pipeline: at 21: Mismatch\n",
    )?;
    builds(
        &rt,
        alloc,
        SITE,
        "nope()",
        Status::Pipeline,
        "bad roots: line 1\n",
    )
}

const JSON: &str = "{\"fresh\":null,\"live\":1,\"outputs\":[[\"main()\",\"\\\"a\\\\\\\"b\\\"\"]],\
            \"ran\":[\"main()\"],\"removed\":[\"out/q\"],\"verdict\":\"accepted\",\"wrote\":[\"out/p\"]}\n";

#[test]
fn a_report_is_told_as_json(rt: HostRuntime) -> Result<(), Fail> {
    let alloc = rt.alloc();
    let pipeline = "func main() -> text { write(path(\"out/p\"), \"\"); \"a\\\"b\" }";
    let held = [
        ("pie.pipeline", pipeline),
        ("pie.roots", "main()"),
        ("out/q", "junk"),
    ];
    let mut files = project(alloc, &held)?;
    prints(
        &rt,
        alloc,
        &["fresh", "--json"],
        &mut files,
        Status::Ok,
        JSON,
    )
}
