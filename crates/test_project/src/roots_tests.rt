//! Lines of roots.
use pie_base::OutOfMemory;
use pie_roots::{Root, read_root};
use pie_value::show_task;
use std::alloc::Global;
use std::process::Abort;
use std::test::Fail;

// What a line is, as text: the task as it is printed, or a mark.
fn shown(alloc: Global, root: &Root) -> Result<String, OutOfMemory> {
    match root {
        Root::Nothing => Ok(String::from_str(alloc, "-")?),
        Root::Task(task) => show_task(alloc, task),
        Root::Bad => Ok(String::from_str(alloc, "bad")?),
    }
}

fn read(alloc: Global, line: &str) -> Result<String, OutOfMemory> {
    let root = read_root(alloc, line)?;
    shown(alloc, &root)
}

// A line of `f([[..x..]])` with so many brackets.
fn nested(alloc: Global, depth: usize, inner: &str) -> Result<String, Fail> {
    let mut line = String::from_str(alloc, "f(")?;
    for _ in 0..depth {
        line.push_str("[")?;
    }
    line.push_str(inner)?;
    for _ in 0..depth {
        line.push_str("]")?;
    }
    line.push_str(")")?;
    Ok(line)
}

// A line of `f("aa..")` with so many letters.
fn long(alloc: Global, letters: usize) -> Result<String, Fail> {
    let mut line = String::from_str(alloc, "f(\"")?;
    for _ in 0..letters {
        line.push_str("a")?;
    }
    line.push_str("\")")?;
    Ok(line)
}

#[test]
fn a_line_is_the_task_that_is_printed_with_its_tokens(rt: HostRuntime) -> Result<(), Fail> {
    let cases = [
        ("", "-"),
        (" \t\r", "-"),
        ("// f()", "-"),
        ("site()", "site()"),
        (" site ( ) \r", "site()"),
        ("f(1)// g()", "f(1)"),
        ("page(path(\"src/a\"))", "page(path(\"src/a\"))"),
        ("f(unit,true,false,null)", "f(unit, true, false, null)"),
        ("f(007)", "f(7)"),
        ("f(- 1)", "f(-1)"),
        ("f(-9223372036854775807)", "f(-9223372036854775807)"),
        ("f(\"a\\n\\\"é\")", "f(\"a\\n\\\"é\")"),
        ("f([], [1, 2], [[3]])", "f([], [1, 2], [[3]])"),
        ("f((-1, \"a\\\"b\"))", "f((-1, \"a\\\"b\"))"),
        ("m(bytes(\"00ff\"))", "m(bytes(\"00ff\"))"),
        ("bytes(bytes(\"\"))", "bytes(bytes(\"\"))"),
        ("f(bytes(\"\\n\"))", "bad"),
    ];
    let alloc = rt.alloc();
    for (line, wanted) in cases {
        let found = read(alloc, line)?;
        assert!(rt; found.as_str() == wanted, "{line}: {found}");
    }
    Ok(())
}

#[test]
fn what_no_task_is_printed_as_is_bad(rt: HostRuntime) -> Result<(), Fail> {
    let lines = [
        "f",
        "f(",
        "f()g()",
        "f() f()",
        "f(1,)",
        "f(,1)",
        "f(1 2)",
        "f(-0)",
        "f(--1)",
        "f(-9223372036854775808)",
        "f(+1)",
        "f(()",
        "f(())",
        "f((1))",
        "f((1,))",
        "f([1)",
        "f(path(\"/a\"))",
        "f(path(a))",
        "f(bytes(\"0\"))",
        "f(bytes(\"00FF\"))",
        "f(byte(\"00\"))",
        "f(g())",
        "list()",
        "f(1 + 1)",
        "f(\"a)",
        "f($)",
        "1",
    ];
    let alloc = rt.alloc();
    for line in lines {
        let found = read(alloc, line)?;
        assert!(rt; found.as_str() == "bad", "{line}: {found}");
    }
    Ok(())
}

// A line is read as this.
fn reads(rt: &impl Abort, alloc: Global, line: &str, wanted: &str, what: &str) -> Result<(), Fail> {
    let found = read(alloc, line)?;
    assert!(rt; found.as_str() == wanted, "{what}");
    Ok(())
}

// A line is read as itself.
fn reads_itself(rt: &impl Abort, alloc: Global, line: &str, what: &str) -> Result<(), Fail> {
    reads(rt, alloc, line, line, what)
}

#[test]
fn a_task_beyond_a_limit_is_bad(rt: HostRuntime) -> Result<(), Fail> {
    let alloc = rt.alloc();
    reads_itself(&rt, alloc, &nested(alloc, 64, "")?, "64 lists")?;
    reads(&rt, alloc, &nested(alloc, 64, "1")?, "bad", "65 deep")?;
    // The name takes 9 canonical bytes with its length and the number of arguments, the text 5 besides its own.
    reads_itself(&rt, alloc, &long(alloc, 1_048_562)?, "1,048,576 bytes")?;
    reads(
        &rt,
        alloc,
        &long(alloc, 1_048_563)?,
        "bad",
        "1,048,577 bytes",
    )
}
