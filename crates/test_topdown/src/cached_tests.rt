//! Builds with the offers of former builds, each beside a clean build of the same sources.
ghost use Rattle.std.specs.Prelude.{All};
ghost use Rattle.pie_topdown_build.specs.inner.Offered.{IsNew};

use crate::cases::SITE_FILES;
use crate::offer_tests::told;
use crate::tests::{GONE, below, clean, fill, fill_sources, first_line, path};
use pie_cache::{Cache, cache_path, encode_entries};
use pie_files::{Files, SureFiles};
use pie_topdown_build::NewOffer;
use std::alloc::Global;
use std::process::Abort;
use std::test::Fail;

// Keeps each new offer in a cache file of its own.
fn keep_all(alloc: Global, files: &mut SureFiles, news: Vec<NewOffer>) -> Result<(), Fail>
    requires { All IsNew news.items }
{
    let mut news = news;
    'news: loop {
        match news.pop() {
            Some(new) => keep(alloc, files, new)?,
            None => return Ok(()),
        }
    }
}

fn keep(alloc: Global, files: &mut SureFiles, new: NewOffer) -> Result<(), Fail>
    requires { IsNew new }
{
    let NewOffer { digest, offer } = new;
    let at = cache_path(alloc, &offer.row.task, &digest)?;
    let text = encode_entries(alloc, &[offer])?;
    files.put(&at, text.as_slice(), 0)?;
    Ok(())
}

// What a build says whose offers are those of the cache. What ran is kept.
fn cached(alloc: Global, files: &mut SureFiles) -> Result<String, Fail> {
    let mut cache = Cache::open(alloc, files)?;
    let (text, news) = told(alloc, files, &mut cache)?;
    keep_all(alloc, files, news)?;
    Ok(text)
}

// What changes, and what the next build says.
struct Turn {
    changes: &'static [(&'static str, &'static str)],
    report: &'static str,
}

fn turns(
    rt: &impl Abort,
    alloc: Global,
    before: &[(&str, &str)],
    turns: &[Turn],
) -> Result<(), Fail> {
    let mut files = SureFiles::new(alloc);
    let mut sources = SureFiles::new(alloc);
    fill(alloc, &mut files, before)?;
    fill(alloc, &mut sources, before)?;
    for turn in turns {
        let text = cached_beside(rt, alloc, &mut files, &mut sources, turn.changes)?;
        assert!(rt; text.as_str() == turn.report, "{}", text.as_str());
    }
    Ok(())
}

// What a build says after these changes. It is held beside a clean build of the same sources.
fn cached_beside(
    rt: &impl Abort,
    alloc: Global,
    files: &mut SureFiles,
    sources: &mut SureFiles,
    changes: &[(&str, &str)],
) -> Result<String, Fail> {
    fill(alloc, files, changes)?;
    fill_sources(alloc, sources, changes)?;
    let before = built(alloc, files)?;
    let text = cached(alloc, files)?;
    let after = built(alloc, files)?;
    let (clean_text, accepted) = clean(alloc, sources)?;
    if accepted {
        let wanted = built(alloc, sources)?;
        assert!(rt; after.as_slice() == wanted.as_slice(), "{}", text.as_str());
    } else {
        assert!(rt; after.as_slice() == before.as_slice(), "{}", text.as_str());
    }
    assert!(rt;
        first_line(text.as_str()) == first_line(clean_text.as_str()),
        "{}",
        text.as_str()
    );
    Ok(text)
}

// What stands under `out/`, and the store.
fn built(alloc: Global, files: &mut SureFiles) -> Result<Vec<u8>, Fail> {
    let mut all = below(alloc, files, "out")?;
    if let Some(found) = files.read(&path(alloc, ".pie/store")?)? {
        all.extend_from_slice(found.bytes.as_slice())?;
    }
    Ok(all)
}

const SITE: [Turn; 6] = [
    Turn {
        changes: &[],
        report: "accepted\nfresh NoStore\nran page(path(\"src/a\"))\nran page(path(\"src/b\"))\nran page(path(\"src/c\"))\nran site()\nran footer()\nwrote out/a\nwrote out/b\nwrote out/c\nlive 5\noutput site() = 3\n",
    },
    Turn {
        changes: &[(".pie/store", GONE)],
        report: "accepted\nfresh NoStore\nwrote out/a\nwrote out/b\nwrote out/c\nlive 5\noutput site() = 3\nreused page(path(\"src/a\"))\nreused page(path(\"src/b\"))\nreused page(path(\"src/c\"))\nreused site()\nreused footer()\n",
    },
    Turn {
        changes: &[("src/d", "D\n")],
        report: "accepted\nran page(path(\"src/d\"))\nran site()\nwrote out/d\nlive 6\noutput site() = 4\n",
    },
    Turn {
        changes: &[("out/a", "junk"), ("out/z", "z")],
        report: "accepted\nwrote out/a\nremoved out/z\nlive 6\noutput site() = 4\nreused page(path(\"src/a\"))\n",
    },
    Turn {
        changes: &[(".pie/store", "PIES"), ("out/a", GONE), ("out/z", "z")],
        report: "accepted\nfresh Damaged Short\nwrote out/a\nwrote out/b\nwrote out/c\nwrote out/d\nremoved out/z\nlive 6\noutput site() = 4\nreused page(path(\"src/a\"))\nreused page(path(\"src/b\"))\nreused page(path(\"src/c\"))\nreused page(path(\"src/d\"))\nreused site()\nreused footer()\n",
    },
    Turn {
        changes: &[(".pie/open", ""), ("inc/foot", "fin\n")],
        report: "accepted\nfresh Interrupted\nran page(path(\"src/a\"))\nran page(path(\"src/b\"))\nran page(path(\"src/c\"))\nran page(path(\"src/d\"))\nran footer()\nwrote out/a\nwrote out/b\nwrote out/c\nwrote out/d\nlive 6\noutput site() = 4\nreused site()\n",
    },
];

// A source that changes and changes back, where the cache keeps the record of the first content.
#[test]
fn a_site_is_built_from_the_cache(rt: HostRuntime) -> Result<(), Fail> {
    turns(&rt, rt.alloc(), &SITE_FILES, &SITE)
}

const SWITCH: [(&str, &str); 3] = [
    (
        "pie.pipeline",
        "func copy(p: path) -> text { val t = get(read(p)); write(join(path(\"out\"), name(p)), t); t }
func both() -> text { require copy(path(\"src/a\")) + get(read(path(\"out/a\"))) + get(read(path(\"s\"))) }
",
    ),
    ("pie.roots", "both()"),
    ("s", "1"),
];

// A file of a task that is reused is read by one that runs.
const SEEN: [Turn; 3] = [
    Turn {
        changes: &[("src/a", "A")],
        report: "accepted\nfresh NoStore\nran both()\nran copy(path(\"src/a\"))\nwrote out/a\nlive 2\noutput both() = \"AA1\"\n",
    },
    Turn {
        changes: &[("out/a", "junk"), ("s", "2")],
        report: "accepted\nran both()\nwrote out/a\nlive 2\noutput both() = \"AA2\"\nreused copy(path(\"src/a\"))\n",
    },
    Turn {
        changes: &[("src/a", GONE)],
        report: "refused fault copy(path(\"src/a\")): Null\nran both()\nran copy(path(\"src/a\"))\n",
    },
];

#[test]
fn a_file_of_a_reused_task_is_seen(rt: HostRuntime) -> Result<(), Fail> {
    turns(&rt, rt.alloc(), &SWITCH, &SEEN)
}

const TURNING: [(&str, &str); 2] = [
    (
        "pie.pipeline",
        "func a() -> int { if exists(path(\"flip\")) { 1 } else { require b() } }
func b() -> int { if exists(path(\"flip\")) { require a() } else { 2 } }
",
    ),
    ("pie.roots", "a()\nb()"),
];

// Requires that turn round: the offers hold the requires of before.
const TURNED: [Turn; 3] = [
    Turn {
        changes: &[],
        report: "accepted\nfresh NoStore\nran a()\nran b()\nlive 2\noutput a() = 2\noutput b() = 2\n",
    },
    Turn {
        changes: &[("flip", ""), (".pie/store", GONE)],
        report: "accepted\nfresh NoStore\nran a()\nran b()\nlive 2\noutput a() = 1\noutput b() = 1\n",
    },
    Turn {
        changes: &[("flip", GONE)],
        report: "accepted\nran a()\nran b()\nlive 2\noutput a() = 2\noutput b() = 2\n",
    },
];

const CIRCLE: [(&str, &str); 2] = [
    (
        "pie.pipeline",
        "func p() -> int { require q() }
func q() -> int { require r() }
func r() -> int { if exists(path(\"on\")) { require p() } else { 1 } }
",
    ),
    ("pie.roots", "p()"),
];

const CIRCLES: [Turn; 3] = [
    Turn {
        changes: &[],
        report: "accepted\nfresh NoStore\nran p()\nran q()\nran r()\nlive 3\noutput p() = 1\n",
    },
    Turn {
        changes: &[("on", ""), (".pie/store", GONE)],
        report: "refused cycle p() -> q() -> r()\nfresh NoStore\nran p()\nran q()\nran r()\n",
    },
    Turn {
        changes: &[("on", GONE)],
        report: "accepted\nfresh NoStore\nlive 3\noutput p() = 1\nreused p()\nreused q()\nreused r()\n",
    },
];

#[test]
fn cycles_stay_cycles_with_offers(rt: HostRuntime) -> Result<(), Fail> {
    turns(&rt, rt.alloc(), &TURNING, &TURNED)?;
    turns(&rt, rt.alloc(), &CIRCLE, &CIRCLES)
}

// ---- sources drawn at random

// The next number of a sequence.
fn next(seed: u64) -> u64 {
    seed.wrapping_mul(6364136223846793005)
        .wrapping_add(1442695040888963407)
}

// One of eight by the high bits.
fn drawn(seed: u64) -> u64 {
    seed >> 61
}

// One change by a number: a source gets a content or goes, a file under `out/` is overwritten or goes, or the store goes.
fn change_by(number: u64) -> (&'static str, &'static str) {
    match number {
        0 => ("src/a", "1"),
        1 => ("src/a", "2"),
        2 => ("src/b", "1"),
        3 => ("src/b", GONE),
        4 => ("inc/foot", "end\n"),
        5 => ("inc/foot", "fin\n"),
        6 => ("out/a", "junk"),
        _ => (".pie/store", GONE),
    }
}

fn some_turns(rt: &impl Abort, alloc: Global, first: u64) -> Result<(), Fail> {
    let mut files = SureFiles::new(alloc);
    let mut sources = SureFiles::new(alloc);
    fill(alloc, &mut files, &SITE_FILES)?;
    fill(alloc, &mut sources, &SITE_FILES)?;
    let mut seed = first;
    for _ in 0..12 {
        seed = next(seed);
        let one = change_by(drawn(seed));
        seed = next(seed);
        let other = change_by(drawn(seed));
        let _said = cached_beside(rt, alloc, &mut files, &mut sources, &[one, other])?;
    }
    Ok(())
}

#[test]
fn builds_from_the_cache_are_clean_builds(rt: HostRuntime) -> Result<(), Fail> {
    for seed in 0..8 {
        some_turns(&rt, rt.alloc(), seed)?;
    }
    Ok(())
}
