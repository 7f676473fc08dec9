//! Builds with offers that are made by hand: which are kept, and which are passed over.
ghost use Rattle.std.specs.Prelude.{All, IfOk};
ghost use Rattle.pie_topdown_build.specs.inner.Offered.{IsNew};

use crate::cases::SITE_FILES;
use crate::offers::{Counting, Swapped, Texts};
use crate::tests::{fill, path, set, text_of};
use pie_base::Path;
use pie_files::{Files, SureFiles};
use pie_stamp::hash_of;
use pie_store::Offers;
use pie_topdown_build::{NewOffer, Offered, build_offered};
use pie_value::{Task, show_task};
use pie_vm::Runs;
use std::alloc::Global;
use std::process::Abort;
use std::test::Fail;

// What a build with offers says, told as a text: its report, and a line for each task that was reused.
pub(crate) fn told<O: Offers>(
    alloc: Global,
    files: &mut SureFiles,
    offers: &mut O,
) -> Result<(String, Vec<NewOffer>), Fail>
    ensures { IfOk result (λ said. All IsNew said.1.items) }
{
    let mut runs = Runs::new(alloc);
    match build_offered(alloc, files, offers, &mut runs) {
        Ok(offered) => {
            let (text, _) = text_of(alloc, &offered.report)?;
            let Offered { reused, new, .. } = offered;
            let text = with_reused(alloc, text, reused.as_slice())?;
            Ok((text, new))
        }
        Err(_) => Err(Fail::from("a build")),
    }
}

fn with_reused(alloc: Global, text: String, reused: &[Task]) -> Result<String, Fail> {
    let mut text = text;
    for task in reused {
        let shown = show_task(alloc, task)?;
        text.push_str("reused ")?;
        text.push_str(shown.as_str())?;
        text.push_str("\n")?;
    }
    Ok(text)
}

// ---- offers that are made by hand, for one task that reads `s` and writes it to `out/one`

const ONE: [(&str, &str); 3] = [
    (
        "pie.pipeline",
        "func one() -> unit { write(path(\"out/one\"), get(read(path(\"s\")))); }",
    ),
    ("pie.roots", "one()"),
    ("s", "1"),
];

// The task without arguments `one`, and another one.
const TASK: &str = "000000036f6e6500000000";

const OTHER_TASK: &str = "000000036f6e6600000000";

// Of each record: what it observed, what it wrote, and its output.
const SAW_1: &str =
    "00000001020000000173026b86b273ff34fce19d6b804eff5a3f5747ada4eaa22f1d49c01e52ddb7875b4b";

const SAW_2: &str =
    "0000000102000000017302d4735e3a265e16eee03f59718b9b5d03019c07d8b6c51f90da3a666eec13ab35";

// `s`, and that `t` isn't there or is.
const SAW_1_AND_NO_T: &str =
    "00000002020000000173026b86b273ff34fce19d6b804eff5a3f5747ada4eaa22f1d49c01e52ddb7875b4b01000000017400";

const SAW_1_AND_T: &str =
    "00000002020000000173026b86b273ff34fce19d6b804eff5a3f5747ada4eaa22f1d49c01e52ddb7875b4b01000000017401";

const WROTE_1: &str =
    "00000001000000076f75742f6f6e656b86b273ff34fce19d6b804eff5a3f5747ada4eaa22f1d49c01e52ddb7875b4b00";

const WROTE_2: &str =
    "00000001000000076f75742f6f6e65d4735e3a265e16eee03f59718b9b5d03019c07d8b6c51f90da3a666eec13ab3500";

const WROTE_1_TWICE: &str =
    "00000002000000076f75742f6f6e656b86b273ff34fce19d6b804eff5a3f5747ada4eaa22f1d49c01e52ddb7875b4b000000076f75742f6f6e656b86b273ff34fce19d6b804eff5a3f5747ada4eaa22f1d49c01e52ddb7875b4b00";

const CONTENT_1: &str = "0000000131";

const CONTENT_2: &str = "0000000132";

const STANDS: &[&str] = &[TASK, SAW_1, WROTE_1, CONTENT_1];

const DIFFERS: &[&str] = &[TASK, SAW_2, WROTE_2, CONTENT_2];

const REUSED: &str =
    "accepted\nfresh NoStore\nwrote out/one\nlive 1\noutput one() = unit\nreused one()\n";

const RAN: &str =
    "accepted\nfresh NoStore\nran one()\nwrote out/one\nlive 1\noutput one() = unit\n";

// The text of a cache file with so many entries of these parts.
fn cache_text(alloc: Global, count: &str, entries: &[&[&str]]) -> Result<Vec<u8>, Fail> {
    let mut digits = String::from_str(alloc, "5049454301")?;
    digits.push_str(count)?;
    for entry in entries {
        push_all(&mut digits, *entry)?;
    }
    let mut bytes = hex::decode(alloc, digits.as_str())?;
    let digest = hash_of(bytes.as_slice());
    bytes.extend_from_slice(digest.as_slice())?;
    Ok(bytes)
}

fn push_all(digits: &mut String, parts: &[&str]) -> Result<(), Fail> {
    for part in parts {
        digits.push_str(*part)?;
    }
    Ok(())
}

struct ByHand {
    name: &'static str,
    first: (&'static str, &'static [&'static [&'static str]]),
    second: (&'static str, &'static [&'static [&'static str]]),
    report: &'static str,
}

const NONE: (&str, &[&[&str]]) = ("00", &[]);

const BY_HAND: [ByHand; 10] = [
    ByHand {
        name: "an offer that stands",
        first: ("01", &[STANDS]),
        second: NONE,
        report: REUSED,
    },
    ByHand {
        name: "an offer that differs",
        first: ("01", &[DIFFERS]),
        second: NONE,
        report: RAN,
    },
    ByHand {
        name: "one that stands behind one that differs",
        first: ("02", &[DIFFERS, STANDS]),
        second: NONE,
        report: REUSED,
    },
    ByHand {
        name: "the fourth offer",
        first: ("03", &[DIFFERS, DIFFERS, DIFFERS]),
        second: ("01", &[STANDS]),
        report: REUSED,
    },
    ByHand {
        name: "the fifth offer isn't tried",
        first: ("04", &[DIFFERS, DIFFERS, DIFFERS, DIFFERS]),
        second: ("01", &[STANDS]),
        report: RAN,
    },
    ByHand {
        name: "an offer of another task",
        first: ("01", &[&[OTHER_TASK, SAW_1, WROTE_1, CONTENT_1]]),
        second: NONE,
        report: RAN,
    },
    ByHand {
        name: "one that stands behind one of another task",
        first: ("02", &[&[OTHER_TASK, SAW_1, WROTE_1, CONTENT_1], STANDS]),
        second: NONE,
        report: REUSED,
    },
    ByHand {
        name: "a path that is written twice",
        first: ("01", &[&[TASK, SAW_1, WROTE_1_TWICE, CONTENT_1, CONTENT_1]]),
        second: NONE,
        report: RAN,
    },
    ByHand {
        name: "the second observation differs",
        first: ("01", &[&[TASK, SAW_1_AND_T, WROTE_1, CONTENT_1]]),
        second: NONE,
        report: RAN,
    },
    ByHand {
        name: "two observations stand",
        first: ("01", &[&[TASK, SAW_1_AND_NO_T, WROTE_1, CONTENT_1]]),
        second: NONE,
        report: REUSED,
    },
];

fn by_hand(rt: &impl Abort, alloc: Global, case: &ByHand) -> Result<(), Fail> {
    let mut files = SureFiles::new(alloc);
    fill(alloc, &mut files, &ONE)?;
    let mut offers = Texts {
        first: cache_text(alloc, case.first.0, case.first.1)?,
        second: cache_text(alloc, case.second.0, case.second.1)?,
    };
    let (text, _) = told(alloc, &mut files, &mut offers)?;
    assert!(rt;
        text.as_str() == case.report,
        "{}: {}",
        case.name,
        text.as_str()
    );
    let found = content(&mut files, &path(alloc, "out/one")?)?;
    assert!(rt; found.as_slice() == b"1".as_slice(), "{}", case.name);
    Ok(())
}

fn content(files: &mut SureFiles, at: &Path) -> Result<Vec<u8>, Fail> {
    match files.read(at)? {
        Some(found) => Ok(found.bytes),
        None => Err(Fail::from("no file")),
    }
}

#[test]
fn an_offer_is_kept_where_it_stands(rt: HostRuntime) -> Result<(), Fail> {
    for case in &BY_HAND {
        by_hand(&rt, rt.alloc(), case)?;
    }
    Ok(())
}

// An offer whose one content is this one.
fn with_content(alloc: Global, entry: &[&str], content: &str) -> Result<String, Fail> {
    let mut files = SureFiles::new(alloc);
    fill(alloc, &mut files, &ONE)?;
    let mut offers = Swapped {
        text: cache_text(alloc, "01", &[entry])?,
        content: Vec::new(alloc),
    };
    offers.content.extend_from_slice(content.as_bytes())?;
    let (text, _) = told(alloc, &mut files, &mut offers)?;
    Ok(text)
}

#[test]
fn an_offer_with_other_contents_is_passed_over(rt: HostRuntime) -> Result<(), Fail> {
    let same = with_content(rt.alloc(), STANDS, "1")?;
    assert!(rt; same.as_str() == REUSED, "{}", same.as_str());
    let other = with_content(rt.alloc(), STANDS, "2")?;
    assert!(rt; other.as_str() == RAN, "{}", other.as_str());
    let more = with_content(rt.alloc(), &[TASK, SAW_1, "0000000000"], "1")?;
    assert!(rt; more.as_str() == RAN, "{}", more.as_str());
    Ok(())
}

// How often offers are asked for in a first build, and in one after it.
fn questions(alloc: Global, change: &str) -> Result<(u32, u32), Fail> {
    let mut files = SureFiles::new(alloc);
    fill(alloc, &mut files, &SITE_FILES)?;
    let mut offers = Counting { asked: 0 };
    let (_, _) = told(alloc, &mut files, &mut offers)?;
    let first = offers.asked;
    if change != "" {
        set(alloc, &mut files, change, "other")?;
    }
    let (_, _) = told(alloc, &mut files, &mut offers)?;
    Ok((first, offers.asked.wrapping_sub(first)))
}

#[test]
fn offers_are_asked_for_once_where_a_record_does_not_stand(rt: HostRuntime) -> Result<(), Fail> {
    let unchanged = questions(rt.alloc(), "")?;
    assert!(rt; unchanged == (5, 0), "{} {}", unchanged.0, unchanged.1);
    let source = questions(rt.alloc(), "src/a")?;
    assert!(rt; source == (5, 1), "{} {}", source.0, source.1);
    let foot = questions(rt.alloc(), "inc/foot")?;
    assert!(rt; foot == (5, 4), "{} {}", foot.0, foot.1);
    Ok(())
}
