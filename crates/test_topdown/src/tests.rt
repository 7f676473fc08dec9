//! Builds without a list, each beside a clean build of a copy.
ghost use Rattle.std.specs.Prelude.{All};
ghost use Rattle.pie_value.specs.Canonical.{IsEncodableTask};

use crate::cases::{CYCLES, Case, FAULTS, FILES, LIMITS, SITES};
use pie_base::Path;
use pie_build::rebuild;
use pie_files::{Files, SureFiles};
use pie_report::{Report, print};
use pie_topdown_build::build_topdown;
use pie_value::Verdict;
use pie_vm::Runs;
use std::alloc::Global;
use std::process::Abort;
use std::test::Fail;

/// The content that stands for no file.
pub(crate) const GONE: &str = "\u{1}";

pub(crate) fn path(alloc: Global, text: &str) -> Result<Path, Fail> {
    Ok(Path::read(alloc, text).map_err(|_| "path")?)
}

// Puts files, or removes them.
pub(crate) fn fill(
    alloc: Global,
    files: &mut SureFiles,
    held: &[(&str, &str)],
) -> Result<(), Fail> {
    for (name, text) in held {
        set(alloc, files, *name, *text)?;
    }
    Ok(())
}

pub(crate) fn set(
    alloc: Global,
    files: &mut SureFiles,
    name: &str,
    text: &str,
) -> Result<(), Fail> {
    let path = path(alloc, name)?;
    if text == GONE {
        files.remove(&path)?;
        return Ok(());
    }
    files.put(&path, text.as_bytes(), text.len() as u64)?;
    Ok(())
}

// The same but for what a build leaves.
pub(crate) fn fill_sources(
    alloc: Global,
    files: &mut SureFiles,
    held: &[(&str, &str)],
) -> Result<(), Fail> {
    for (name, text) in held {
        if !name.starts_with("out/") && !name.starts_with(".pie/") {
            set(alloc, files, *name, *text)?;
        }
    }
    Ok(())
}

// What a build says, told as a text.
fn told(alloc: Global, files: &mut SureFiles) -> Result<(String, bool), Fail> {
    let mut runs = Runs::new(alloc);
    match build_topdown(alloc, files, &mut runs) {
        Ok(report) => text_of(alloc, &report),
        Err(_) => Err(Fail::from("a build")),
    }
}

pub(crate) fn text_of(alloc: Global, report: &Report) -> Result<(String, bool), Fail>
    requires { All IsEncodableTask report.now.ran.items }
{
    let text = print(alloc, report)?;
    Ok((text, matches!(report.verdict, Verdict::Accepted)))
}

pub(crate) fn clean(alloc: Global, files: &mut SureFiles) -> Result<(String, bool), Fail> {
    let mut runs = Runs::new(alloc);
    match rebuild(alloc, files, &mut runs) {
        Ok(report) => text_of(alloc, &report),
        Err(_) => Err(Fail::from("a clean build")),
    }
}

// All files below a directory, as one text.
pub(crate) fn below(alloc: Global, files: &mut SureFiles, dir: &str) -> Result<Vec<u8>, Fail> {
    let dir = path(alloc, dir)?;
    let mut all = Vec::new(alloc);
    for at in files.all_under(&dir)? {
        add_file(files, &at, &mut all)?;
    }
    Ok(all)
}

fn add_file(files: &mut SureFiles, at: &Path, all: &mut Vec<u8>) -> Result<(), Fail> {
    all.extend_from_slice(at.as_str().as_bytes())?;
    all.push(10)?;
    if let Some(found) = files.read(at)? {
        all.extend_from_slice(found.bytes.as_slice())?;
    }
    all.push(0)?;
    Ok(())
}

// What stands under `out/`, and the builder's own files.
pub(crate) fn left(alloc: Global, files: &mut SureFiles) -> Result<Vec<u8>, Fail> {
    let mut all = below(alloc, files, "out")?;
    let own = below(alloc, files, ".pie")?;
    all.extend_from_slice(own.as_slice())?;
    Ok(all)
}

pub(crate) fn first_line(text: &str) -> &str {
    match text.split_once("\n") {
        Some((first, _)) => first,
        None => text,
    }
}

// The first build of a case, then what changes, then the build that it is of.
fn runs_case(rt: &impl Abort, alloc: Global, case: &Case) -> Result<(), Fail> {
    let mut files = SureFiles::new(alloc);
    fill(alloc, &mut files, case.before)?;
    let (_, _) = told(alloc, &mut files)?;
    fill(alloc, &mut files, case.changes)?;
    let before = left(alloc, &mut files)?;
    let (text, accepted) = told(alloc, &mut files)?;
    assert!(rt;
        text.as_str() == case.report,
        "{}: {}",
        case.name,
        text.as_str()
    );
    let after = left(alloc, &mut files)?;
    let mut copy = SureFiles::new(alloc);
    fill_sources(alloc, &mut copy, case.before)?;
    fill_sources(alloc, &mut copy, case.changes)?;
    let (clean_text, clean_accepted) = clean(alloc, &mut copy)?;
    assert!(rt;
        accepted == clean_accepted,
        "{}: {}",
        case.name,
        text.as_str()
    );
    assert!(rt;
        first_line(text.as_str()) == first_line(clean_text.as_str()),
        "{}: {}",
        case.name,
        text.as_str()
    );
    if accepted {
        let wanted = left(alloc, &mut copy)?;
        assert!(rt;
            after.as_slice() == wanted.as_slice(),
            "{}: {}",
            case.name,
            text.as_str()
        );
    } else {
        assert!(rt;
            after.as_slice() == before.as_slice(),
            "{}: {}",
            case.name,
            text.as_str()
        );
    }
    Ok(())
}

fn run_all(rt: &impl Abort, alloc: Global, cases: &[Case]) -> Result<(), Fail> {
    for case in cases {
        runs_case(rt, alloc, case)?;
    }
    Ok(())
}

#[test]
fn a_site_is_built_again(rt: HostRuntime) -> Result<(), Fail> {
    run_all(&rt, rt.alloc(), &SITES)
}

#[test]
fn files_under_out_are_as_a_clean_build_leaves_them(rt: HostRuntime) -> Result<(), Fail> {
    run_all(&rt, rt.alloc(), &FILES)
}

#[test]
fn cycles_are_those_of_the_present(rt: HostRuntime) -> Result<(), Fail> {
    run_all(&rt, rt.alloc(), &CYCLES)
}

#[test]
fn a_task_above_one_that_fails_runs(rt: HostRuntime) -> Result<(), Fail> {
    run_all(&rt, rt.alloc(), &FAULTS)
}

#[test]
fn what_can_be_read_otherwise_starts_afresh(rt: HostRuntime) -> Result<(), Fail> {
    run_all(&rt, rt.alloc(), &LIMITS)
}

// A project of one function and one root.
fn project(alloc: Global, files: &mut SureFiles, text: &str, root: &str) -> Result<(), Fail> {
    set(alloc, files, "pie.pipeline", text)?;
    set(alloc, files, "pie.roots", root)
}

// How many tasks ran, and how many are live.
fn counted(alloc: Global, files: &mut SureFiles) -> Result<(usize, u32), Fail> {
    let mut runs = Runs::new(alloc);
    match build_topdown(alloc, files, &mut runs) {
        Ok(report) => Ok((report.ran.len(), report.live)),
        Err(_) => Err(Fail::from("a build")),
    }
}

// A chain of tasks is built, and checked without a run.
fn chains(rt: &impl Abort, alloc: Global, files: &mut SureFiles) -> Result<(), Fail> {
    let chain = "func f(n: int) -> int { if n == 0 { 0 } else { require f(n - 1) } }";
    project(alloc, files, chain, "f(300)")?;
    let first = counted(alloc, files)?;
    assert!(rt; first == (301, 301));
    let second = counted(alloc, files)?;
    assert!(rt; second == (0, 301));
    Ok(())
}

#[test]
fn a_chain_of_tasks_needs_no_deep_stack(rt: HostRuntime) -> Result<(), Fail> {
    chains(&rt, rt.alloc(), &mut SureFiles::new(rt.alloc()))
}

// A cycle through many tasks, whose records stand up to the one that differs.
fn circles(rt: &impl Abort, alloc: Global, files: &mut SureFiles) -> Result<(), Fail> {
    let chain = "func f(n: int) -> int { if n > 0 { require f(n - 1) } else { require g() } }
func g() -> int { if exists(path(\"on\")) { require f(300) } else { 0 } }";
    project(alloc, files, chain, "f(300)")?;
    let first = counted(alloc, files)?;
    assert!(rt; first == (302, 302));
    set(alloc, files, "on", "")?;
    let second = counted(alloc, files)?;
    assert!(rt; second == (302, 0));
    Ok(())
}

#[test]
fn a_long_cycle_is_met(rt: HostRuntime) -> Result<(), Fail> {
    circles(&rt, rt.alloc(), &mut SureFiles::new(rt.alloc()))
}
