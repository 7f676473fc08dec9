//! Whole builds with the record cache: what each prints, and how many files the cache has.
use crate::tests::{holds, prints, project};
use pie_base::{Path, Status};
use pie_files::{Files, SureFiles};
use std::alloc::Global;
use std::process::Abort;
use std::test::Fail;

const SITE: &str = "func page(src: path) -> path {
  val body = get(read(src));
  val foot = require footer();
  val target = join(path(\"out\"), name(src));
  write(target, body + foot);
  target
}
func footer() -> text { trim(get(read(path(\"inc/foot\")))) }
func site() -> int { len([require page(p) for p in list(path(\"src\"))]) }
";

const FIRST: &str = "accepted
fresh NoStore
ran page(path(\"src/a\"))
ran page(path(\"src/b\"))
ran page(path(\"src/c\"))
ran site()
ran footer()
wrote out/a
wrote out/b
wrote out/c
live 5
output site() = 3
";

const ONE_RAN: &str =
    "accepted\nran page(path(\"src/a\"))\nwrote out/a\nlive 5\noutput site() = 3\n";

const ONE_REUSED: &str =
    "accepted\nwrote out/a\nlive 5\noutput site() = 3\nreused page(path(\"src/a\"))\n";

const ALL_REUSED: &str = "accepted
fresh NoStore
wrote out/a
wrote out/b
wrote out/c
live 5
output site() = 3
reused page(path(\"src/a\"))
reused page(path(\"src/b\"))
reused page(path(\"src/c\"))
reused site()
reused footer()
";

fn site(alloc: Global) -> Result<SureFiles, Fail> {
    let held = [
        ("pie.pipeline", SITE),
        ("pie.roots", "site()\n"),
        ("src/a", "A\n"),
        ("src/b", "B\n"),
        ("src/c", "C\n"),
        ("inc/foot", "end\n"),
    ];
    project(alloc, &held)
}

fn path(alloc: Global, text: &str) -> Result<Path, Fail> {
    Ok(Path::read(alloc, text).map_err(|_| "path")?)
}

fn put(alloc: Global, files: &mut SureFiles, name: &str, bytes: &str) -> Result<(), Fail> {
    let at = path(alloc, name)?;
    files.put(&at, bytes.as_bytes(), 200)?;
    Ok(())
}

fn remove(alloc: Global, files: &mut SureFiles, name: &str) -> Result<(), Fail> {
    let at = path(alloc, name)?;
    Ok(files.remove(&at).map_err(|_| "remove")?)
}

// How many files the cache has.
fn kept(alloc: Global, files: &mut SureFiles) -> Result<usize, Fail> {
    let dir = path(alloc, ".pie/cache")?;
    let paths = files.all_under(&dir).map_err(|_| "all_under")?;
    Ok(paths.len())
}

// A build with the cache prints this, and leaves so many files in the cache.
fn builds(
    rt: &impl Abort,
    alloc: Global,
    files: &mut SureFiles,
    printed: &str,
    wanted: usize,
) -> Result<(), Fail> {
    prints(rt, alloc, &["cached"], files, Status::Ok, printed)?;
    let kept = kept(alloc, files)?;
    assert!(rt; kept == wanted, "{printed}: {kept} files");
    Ok(())
}

// A first build, one after an edit, and the edit taken back.
fn edits_and_takes_back(rt: &impl Abort, alloc: Global, files: &mut SureFiles) -> Result<(), Fail> {
    builds(rt, alloc, files, FIRST, 5)?;
    put(alloc, files, "src/a", "AA\n")?;
    builds(rt, alloc, files, ONE_RAN, 5)?;
    put(alloc, files, "src/a", "A\n")
}

fn switches_back(rt: &impl Abort, alloc: Global, files: &mut SureFiles) -> Result<(), Fail> {
    edits_and_takes_back(rt, alloc, files)?;
    builds(rt, alloc, files, ONE_REUSED, 5)?;
    assert!(rt; holds(alloc, files, "out/a", "A\nend")?);
    Ok(())
}

#[test]
fn switching_back_runs_nothing(rt: HostRuntime) -> Result<(), Fail> {
    let alloc = rt.alloc();
    switches_back(&rt, alloc, &mut site(alloc)?)
}

fn serves_afresh(rt: &impl Abort, alloc: Global, files: &mut SureFiles) -> Result<(), Fail> {
    switches_back(rt, alloc, files)?;
    remove(alloc, files, ".pie/store")?;
    builds(rt, alloc, files, ALL_REUSED, 5)
}

#[test]
fn the_cache_serves_a_build_that_starts_afresh(rt: HostRuntime) -> Result<(), Fail> {
    let alloc = rt.alloc();
    serves_afresh(&rt, alloc, &mut site(alloc)?)
}

fn clears_when_gated(rt: &impl Abort, alloc: Global, files: &mut SureFiles) -> Result<(), Fail> {
    edits_and_takes_back(rt, alloc, files)?;
    put(alloc, files, ".pie/cache/open", "")?;
    builds(rt, alloc, files, ONE_RAN, 1)
}

#[test]
fn a_cache_whose_gate_stands_is_cleared(rt: HostRuntime) -> Result<(), Fail> {
    let alloc = rt.alloc();
    clears_when_gated(&rt, alloc, &mut site(alloc)?)
}

const NO_FOOT: &str =
    "refused fault footer(): Null\nran page(path(\"src/a\"))\nran site()\nran footer()\n";

// A refused build keeps nothing, and leaves what was kept.
fn keeps_nothing(rt: &impl Abort, alloc: Global, files: &mut SureFiles) -> Result<(), Fail> {
    builds(rt, alloc, files, FIRST, 5)?;
    remove(alloc, files, "inc/foot")?;
    prints(rt, alloc, &["cached"], files, Status::Refused, NO_FOOT)?;
    put(alloc, files, "inc/foot", "end\n")?;
    let same = "accepted\nlive 5\noutput site() = 3\n";
    builds(rt, alloc, files, same, 5)
}

#[test]
fn a_refused_build_keeps_nothing(rt: HostRuntime) -> Result<(), Fail> {
    let alloc = rt.alloc();
    keeps_nothing(&rt, alloc, &mut site(alloc)?)
}

#[test]
fn a_bad_pipeline_is_told(rt: HostRuntime) -> Result<(), Fail> {
    let alloc = rt.alloc();
    let mut files = project(alloc, &[("pie.roots", "")])?;
    let printed = "bad pipeline: absent\n";
    prints(
        &rt,
        alloc,
        &["cached"],
        &mut files,
        Status::Pipeline,
        printed,
    )
}
