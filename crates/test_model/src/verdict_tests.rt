//! Each verdict, of a script of tasks.
use pie_model::bytes::Bytes;
use pie_model::words::{Event, FaultKind, How, Look, Verdict};
use pie_model_program::script::{Line, Script};
use pie_model_program::verdict::verdict_on;
use std::alloc::{AllocError, Global};
use std::test::Fail;

fn bytes(alloc: Global, text: &str) -> Result<Bytes, AllocError> {
    Bytes::from_slice(alloc, text.as_bytes())
}

fn add(script: &mut Script, task: &str, answers: usize, event: Event) -> Result<(), AllocError> {
    let task = bytes(script.alloc, task)?;
    script.lines.push(Line {
        task,
        answers,
        event,
    })?;
    Ok(())
}

fn needs(script: &mut Script, task: &str, answers: usize, other: &str) -> Result<(), AllocError> {
    let other = bytes(script.alloc, other)?;
    add(script, task, answers, Event::Require(How::Ran, other))
}

fn writes(script: &mut Script, task: &str, path: &str) -> Result<(), AllocError> {
    let path = bytes(script.alloc, path)?;
    let contents = bytes(script.alloc, task)?;
    add(script, task, 0, Event::Write(path, contents))?;
    ends(script, task, 1)
}

fn looks(script: &mut Script, task: &str, answers: usize, path: &str) -> Result<(), AllocError> {
    let path = bytes(script.alloc, path)?;
    add(script, task, answers, Event::LookAt(Look::Exists, path))
}

fn ends(script: &mut Script, task: &str, answers: usize) -> Result<(), AllocError> {
    let value = bytes(script.alloc, task)?;
    add(script, task, answers, Event::Done(value))
}

fn cycle(script: &mut Script) -> Result<(), AllocError> {
    needs(script, "p", 0, "q")?;
    needs(script, "q", 0, "r")?;
    needs(script, "r", 0, "p")
}

fn writers(script: &mut Script) -> Result<(), AllocError> {
    writes(script, "one", "out/a")?;
    writes(script, "two", "out/a")?;
    writes(script, "low", "out/a/b")
}

fn pairs(script: &mut Script) -> Result<(), AllocError> {
    needs(script, "both", 0, "two")?;
    needs(script, "both", 1, "one")?;
    ends(script, "both", 2)?;
    needs(script, "deep", 0, "one")?;
    needs(script, "deep", 1, "low")?;
    ends(script, "deep", 2)
}

fn readers(script: &mut Script) -> Result<(), AllocError> {
    looks(script, "early", 0, "out/a")?;
    needs(script, "early", 1, "one")?;
    ends(script, "early", 2)?;
    needs(script, "torn", 0, "one")?;
    needs(script, "torn", 1, "two")?;
    looks(script, "torn", 2, "out/a")?;
    needs(script, "late", 0, "one")?;
    looks(script, "late", 1, "out/a")?;
    ends(script, "late", 2)
}

fn fill(script: &mut Script) -> Result<(), AllocError> {
    cycle(script)?;
    writers(script)?;
    pairs(script)?;
    readers(script)?;
    needs(script, "chain", 0, "late again")?;
    needs(script, "late again", 0, "late")
}

// No lines yet, and room for three tasks and nine events.
fn empty(alloc: Global) -> Script {
    Script {
        lines: Vec::new(alloc),
        files: Vec::new(alloc),
        most_tasks: 3,
        most_events: 9,
        alloc,
    }
}

fn told(verdict: &Verdict) -> &'static str {
    match verdict {
        Verdict::Accepted => "accepted",
        Verdict::Many => "many",
        Verdict::Fault(_, FaultKind::Clash) => "clash",
        Verdict::Fault(_, _) => "fault",
        Verdict::Cycle(_) => "cycle",
        Verdict::Overlap(_, _, _) => "overlap",
        Verdict::Nested(_, _) => "nested",
        Verdict::Hidden(_, _, _) => "hidden",
    }
}

// The verdict on a project of this root.
fn said(script: &Script, alloc: Global, root: &str) -> Result<&'static str, AllocError> {
    let mut roots = Vec::new(alloc);
    roots.push(bytes(alloc, root)?)?;
    let verdict = verdict_on(script, alloc, roots.as_slice())?;
    Ok(told(&verdict))
}

#[test]
fn each_verdict_comes_where_its_tasks_bring_it_about(rt: HostRuntime) -> Result<(), Fail> {
    let mut script = empty(rt.alloc());
    fill(&mut script)?;
    for (root, wanted) in [
        ("late", "accepted"),
        ("nobody", "fault"),
        ("p", "cycle"),
        ("both", "overlap"),
        ("deep", "nested"),
        ("early", "hidden"),
        ("torn", "clash"),
        ("chain", "many"),
    ] {
        let found = said(&script, rt.alloc(), root)?;
        assert_eq!(rt; found, wanted, "{root}");
    }
    Ok(())
}
