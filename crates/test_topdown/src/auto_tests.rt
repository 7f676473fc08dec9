//! Builds that find what changed by scanning: what they find, what they report, and what they leave.
use crate::cases::SITE_FILES;
use crate::tests::{GONE, below, clean, fill, fill_sources, path, text_of};
use pie_auto::auto;
use pie_base::Path;
use pie_files::{Call, Logged, SureFiles};
use pie_listing::{Listing, Reason};
use pie_vm::Runs;
use std::alloc::Global;
use std::process::Abort;
use std::test::Fail;

// What is found, in words.
fn found(alloc: Global, listing: &Listing) -> Result<String, Fail> {
    let mut text = String::new(alloc);
    match listing {
        Listing::Listed(paths) => add_paths(&mut text, paths.as_slice())?,
        Listing::Unlisted(Reason::NoManifest) => text.push_str("no manifest\n")?,
        Listing::Unlisted(Reason::BadManifest(_)) => text.push_str("bad manifest\n")?,
        Listing::Unlisted(Reason::OtherStore) => text.push_str("other store\n")?,
        Listing::Unlisted(Reason::OtherTops) => text.push_str("other tops\n")?,
    }
    Ok(text)
}

fn add_paths(text: &mut String, paths: &[Path]) -> Result<(), Fail> {
    for path in paths {
        text.push_str("changed ")?;
        text.push_str(path.as_str())?;
        text.push_str("\n")?;
    }
    Ok(())
}

// What such a build finds and says, in words.
fn told(alloc: Global, files: &mut SureFiles, tops: &[Path]) -> Result<String, Fail> {
    let mut runs = Runs::new(alloc);
    match auto(alloc, files, tops, &mut runs) {
        Ok(made) => {
            let mut text = found(alloc, &made.listing)?;
            let (report, _) = text_of(alloc, &made.report)?;
            text.push_str(report.as_str())?;
            Ok(text)
        }
        Err(_) => Err(Fail::from("a build")),
    }
}

// What changes, and what the next build finds and says.
struct Turn {
    name: &'static str,
    changes: &'static [(&'static str, &'static str)],
    says: &'static [&'static str],
}

const PAGES: &str =
    "ran page(path(\"src/a\"))\nran page(path(\"src/b\"))\nran page(path(\"src/c\"))\n";

const FILES: &str = "wrote out/a\nwrote out/b\nwrote out/c\n";

const SITE: &str = "live 5\noutput site() = 3\n";

const TURNS: [Turn; 8] = [
    Turn {
        name: "there is nothing yet",
        changes: &[],
        says: &[
            "no manifest\naccepted\nfresh NoStore\n",
            PAGES,
            "ran site()\nran footer()\n",
            FILES,
            SITE,
        ],
    },
    Turn {
        name: "nothing changed",
        changes: &[],
        says: &["accepted\n", SITE],
    },
    Turn {
        name: "a source changed",
        changes: &[("src/b", "BB\n")],
        says: &[
            "changed src/b\naccepted\nran page(path(\"src/b\"))\nwrote out/b\n",
            SITE,
        ],
    },
    Turn {
        name: "files under out changed, and a source that is no top",
        changes: &[
            ("out/a", "another\n"),
            ("out/z", "stray\n"),
            ("notes", "none reads this\n"),
        ],
        says: &[
            "changed out/a\nchanged out/z\naccepted\nran page(path(\"src/a\"))\nwrote out/a\nremoved out/z\n",
            SITE,
        ],
    },
    Turn {
        name: "a source is gone",
        changes: &[("inc/foot", GONE)],
        says: &[
            "changed inc/foot\nrefused fault footer(): Null\n",
            PAGES,
            "ran site()\nran footer()\n",
        ],
    },
    Turn {
        name: "it is back, and another",
        changes: &[("inc/foot", "the end\n")],
        says: &[
            "changed inc/foot\naccepted\n",
            PAGES,
            "ran footer()\n",
            FILES,
            SITE,
        ],
    },
    Turn {
        name: "the manifest is none",
        changes: &[(".pie/manifest", "none\n")],
        says: &["bad manifest\naccepted\n", SITE],
    },
    Turn {
        name: "the manifest is gone",
        changes: &[(".pie/manifest", GONE)],
        says: &["no manifest\naccepted\n", SITE],
    },
];

fn joined(alloc: Global, parts: &[&str]) -> Result<String, Fail> {
    let mut text = String::new(alloc);
    for part in parts {
        text.push_str(*part)?;
    }
    Ok(text)
}

// One turn; the directory is that of a clean build after it, where it is accepted.
fn goes_on(
    rt: &impl Abort,
    alloc: Global,
    files: &mut SureFiles,
    copy: &mut SureFiles,
    tops: &[Path],
    turn: &Turn,
) -> Result<(), Fail> {
    fill(alloc, files, turn.changes)?;
    fill_sources(alloc, copy, turn.changes)?;
    let text = told(alloc, files, tops)?;
    let says = joined(alloc, turn.says)?;
    assert!(rt;
        text.as_str() == says.as_str(),
        "{}: {}",
        turn.name,
        text.as_str()
    );
    let (_, accepted) = clean(alloc, copy)?;
    if accepted {
        let left = below(alloc, files, "out")?;
        let wanted = below(alloc, copy, "out")?;
        assert!(rt;
            left.as_slice() == wanted.as_slice(),
            "{}: {}",
            turn.name,
            text.as_str()
        );
    }
    Ok(())
}

// All turns, one after another, in one directory.
fn run_turns(rt: &impl Abort, alloc: Global) -> Result<(), Fail> {
    let mut files = SureFiles::new(alloc);
    let mut copy = SureFiles::new(alloc);
    let mut tops = Vec::new(alloc);
    tops.push(path(alloc, "inc")?)?;
    tops.push(path(alloc, "src")?)?;
    fill(alloc, &mut files, &SITE_FILES)?;
    fill(alloc, &mut copy, &SITE_FILES)?;
    for turn in &TURNS {
        goes_on(rt, alloc, &mut files, &mut copy, tops.as_slice(), turn)?;
    }
    Ok(())
}

#[test]
fn what_changed_is_found_and_built(rt: HostRuntime) -> Result<(), Fail> {
    run_turns(&rt, rt.alloc())
}

// How often this path was looked at after so many calls, and whether something was written, removed or synced then.
fn looks_after(files: &SureFiles, before: usize, path: &Path) -> (u64, bool) {
    let mut looks = 0_u64;
    let mut changed = false;
    for (i, logged) in files.log().iter().enumerate() {
        match logged {
            _ if i < before => {}
            Logged::Asked(Call::Read(of)) if of == path => looks = looks.wrapping_add(1),
            Logged::Asked(_) => {}
            _ => changed = true,
        }
    }
    (looks, changed)
}

#[test]
fn nothing_changed_is_one_look_at_each_source_and_no_write(rt: HostRuntime) -> Result<(), Fail> {
    let alloc = rt.alloc();
    let mut files = SureFiles::new(alloc);
    let mut tops = Vec::new(alloc);
    tops.push(path(alloc, "inc")?)?;
    tops.push(path(alloc, "src")?)?;
    fill(alloc, &mut files, &SITE_FILES)?;
    told(alloc, &mut files, tops.as_slice())?;
    let before = files.log().len();
    let text = told(alloc, &mut files, tops.as_slice())?;
    let (looks, changed) = looks_after(&files, before, &path(alloc, "src/a")?);
    assert!(rt;
        looks == 1 && !changed,
        "{} looks: {}",
        looks,
        text.as_str()
    );
    Ok(())
}
