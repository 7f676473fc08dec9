//! Whole runs of `replay` over memory.
use crate::input_tests::refuses_bytes;
use crate::tests::{holds, prints_with, project};
use pie_base::Status;
use pie_files::{Files, MemFiles, MemSource, SureFiles};
use std::alloc::Global;
use std::process::Abort;
use std::test::Fail;

const READER: &str = "put pie.pipeline
|func main() -> text { get(read(path(\"s\"))) }
put pie.roots
|main()
put s
>1
build
";

const FIRST: &str = "build 1\naccepted\nfresh NoStore\nran main()\nlive 1\noutput main() = \"1\"\n";

// Two texts, one behind the other.
fn joined(alloc: Global, one: &str, other: &str) -> Result<String, Fail> {
    let mut text = String::from_str(alloc, one)?;
    text.push_str(other)?;
    Ok(text)
}

// An input of these two texts, one behind the other.
fn input_of(alloc: Global, one: &str, other: &str) -> Result<MemSource, Fail> {
    let text = joined(alloc, one, other)?;
    Ok(MemSource::new(alloc, text.as_bytes().to_vec(alloc)?))
}

// The reader's script and more, on files, end with this status and print the first report and this text.
fn goes_on_over<F: Files>(
    rt: &impl Abort,
    alloc: Global,
    more: &str,
    files: &mut F,
    wanted: Status,
    printed: &str,
) -> Result<(), Fail> {
    let all = joined(alloc, FIRST, printed)?;
    let mut input = input_of(alloc, READER, more)?;
    prints_with(
        rt,
        alloc,
        &["replay"],
        files,
        &mut input,
        wanted,
        all.as_str(),
    )
}

// The same on a directory with no files.
fn goes_on(
    rt: &impl Abort,
    alloc: Global,
    more: &str,
    wanted: Status,
    printed: &str,
) -> Result<(), Fail> {
    goes_on_over(rt, alloc, more, &mut project(alloc, &[])?, wanted, printed)
}

#[test]
fn reports_are_numbered_and_the_last_one_gives_the_status(rt: HostRuntime) -> Result<(), Fail> {
    let alloc = rt.alloc();
    let cases: [(&str, Status, &str); 6] = [
        ("", Status::Ok, ""),
        (
            "put s\n>2\nchange s\nbuild\n",
            Status::Ok,
            "build 2\naccepted\nran main()\nlive 1\noutput main() = \"2\"\n",
        ),
        (
            "del s\nchange s\nbuild\n",
            Status::Refused,
            "build 2\nrefused fault main(): Null\nran main()\n",
        ),
        (
            "del s\nchange s\nbuild\nput s\n>3\nbuild\n",
            Status::Ok,
            "build 2\nrefused fault main(): Null\nran main()\nbuild 3\naccepted\nran main()\nlive 1\noutput main() = \"3\"\n",
        ),
        (
            "put pie.pipeline\n|func\nbuild\nbuild\n",
            Status::Pipeline,
            "bad pipeline: at 4: Expected\n",
        ),
        (
            "put pie.roots\n|nope()\nbuild\n",
            Status::Pipeline,
            "bad roots: line 1\n",
        ),
    ];
    for (more, wanted, printed) in cases {
        goes_on(&rt, alloc, more, wanted, printed)?;
    }
    Ok(())
}

const TWO_LINES: &str =
    "{\"fresh\":\"NoStore\",\"live\":1,\"outputs\":[[\"main()\",\"\\\"1\\\"\"]],\"ran\":[\"main()\"],\"removed\":[],\
            \"verdict\":\"accepted\",\"wrote\":[]}\n{\"fresh\":null,\"live\":1,\"outputs\":[[\"main()\",\"\\\"1\\\"\"]],\"ran\":[],\
            \"removed\":[],\"verdict\":\"accepted\",\"wrote\":[]}\n";

#[test]
fn each_report_of_json_is_a_line(rt: HostRuntime) -> Result<(), Fail> {
    let alloc = rt.alloc();
    let mut files = project(alloc, &[])?;
    let mut input = input_of(alloc, READER, "build\n")?;
    prints_with(
        &rt,
        alloc,
        &["replay", "--json"],
        &mut files,
        &mut input,
        Status::Ok,
        TWO_LINES,
    )
}

// A script that puts and removes files, without a build.
fn puts_and_removes(rt: &impl Abort, alloc: Global, files: &mut SureFiles) -> Result<(), Fail> {
    let mut input = input_of(alloc, "put a/b\n|1\n>2\n", "del old\n")?;
    prints_with(rt, alloc, &["replay"], files, &mut input, Status::Ok, "")?;
    assert!(rt; holds(alloc, files, "a/b", "1\n2")?);
    assert!(rt; !holds(alloc, files, "old", "x")?);
    Ok(())
}

#[test]
fn a_script_without_a_build_prints_nothing(rt: HostRuntime) -> Result<(), Fail> {
    puts_and_removes(&rt, rt.alloc(), &mut project(rt.alloc(), &[("old", "x")])?)
}

#[test]
fn a_bad_line_of_a_script_leaves_the_files_alone(rt: HostRuntime) -> Result<(), Fail> {
    let alloc = rt.alloc();
    let cases: [(&[u8], &str); 3] = [
        (b"put a\n|1\nfrob\n", "bad input: line 3: BadWord\n"),
        (b"put .pie/store\n", "bad input: line 1: BadPath\n"),
        (b"put a\n|\xff\n", "bad input: line 2: NotText\n"),
    ];
    for (bytes, printed) in cases {
        refuses_bytes(&rt, alloc, &["replay"], bytes, printed)?;
    }
    Ok(())
}

// How many calls on the files a script and a put behind it make.
fn calls(rt: &impl Abort, alloc: Global) -> Result<u64, Fail> {
    let mut files = MemFiles::new(alloc);
    goes_on_over(rt, alloc, "put s\n|2\n", &mut files, Status::Ok, "")?;
    Ok(files.log().len() as u64)
}

#[test]
fn a_fault_after_a_build_is_told_behind_its_report(rt: HostRuntime) -> Result<(), Fail> {
    let alloc = rt.alloc();
    let last = calls(&rt, alloc)?;
    let mut files = MemFiles::new(alloc);
    files.fail_at(&[last])?;
    let more = "put s\n|2\n";
    goes_on_over(&rt, alloc, more, &mut files, Status::Files, "files fault\n")
}
