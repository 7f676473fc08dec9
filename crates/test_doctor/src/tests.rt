use crate::mem_look::{MemLook, Thing};
use pie_base::OutOfMemory;
use pie_doctor::examined;
use std::alloc::Global;
use std::test::Fail;

// What is told of a folder with these things beside the two files of the project.
fn told(
    alloc: Global,
    more: &[(&'static str, Thing)],
    odd: u64,
) -> Result<(String, bool), OutOfMemory> {
    let mut things = Vec::new(alloc);
    things.push(("pie.pipeline", Thing::File))?;
    things.push(("pie.roots", Thing::File))?;
    for thing in more {
        things.push(*thing)?;
    }
    let look = MemLook {
        alloc,
        things: things.as_slice(),
        odd,
    };
    let report = examined(alloc, &look)?;
    let is_ok = report.is_ok();
    Ok((report.told()?, is_ok))
}

// Whether each of these things alone is told by a line that begins so, and nothing else is.
fn is_told(
    alloc: Global,
    things: &[(&'static str, Thing)],
    line: &str,
) -> Result<bool, OutOfMemory> {
    let (text, is_ok) = told(alloc, things, 0)?;
    let lines = text.as_str().lines().count();
    Ok(text.as_str().starts_with(line) && lines == 1 && is_ok == (line == "ok"))
}

#[test]
fn a_sound_folder_is_ok(rt: HostRuntime) -> Result<(), Fail> {
    let alloc = rt.alloc();
    let sound: [&[(&'static str, Thing)]; 3] = [
        &[],
        &[
            ("out", Thing::Dir),
            (".pie", Thing::Dir),
            (".pie/store", Thing::File),
            ("out/a", Thing::Dir),
            ("out/a/b", Thing::File),
            ("src", Thing::Dir),
            ("src/a", Thing::File),
            ("src/b", Thing::ToFile),
        ],
        &[
            ("src", Thing::Fixed),
            ("src/d", Thing::Far),
            ("src/d/a", Thing::File),
        ],
    ];
    for things in sound {
        assert!(&rt; is_told(alloc, things, "ok")?);
    }
    Ok(())
}

#[test]
fn each_trouble_among_the_sources_is_told(rt: HostRuntime) -> Result<(), Fail> {
    let alloc = rt.alloc();
    let cases: [((&'static str, Thing), &'static str); 10] = [
        (("a", Thing::Hidden), "a: this user may not read it"),
        (("a", Thing::Broken), "a: the system can't read it"),
        (("a", Thing::Pipe), "a: a pipe"),
        (("a", Thing::Closed), "a: this user may not look at it"),
        (("a", Thing::ToNothing), "a: a link that leads nowhere"),
        (("a", Thing::ToHidden), "a: this user may not read it"),
        (("a", Thing::ToPipe), "a: a link to a pipe"),
        (("a", Thing::ToClosed), "a: this user may not look at it"),
        (
            ("a\tb", Thing::File),
            "a?b: its name has a control character",
        ),
        (
            ("\u{7f}new", Thing::File),
            "?new: a build that was stopped left it",
        ),
    ];
    for (thing, line) in cases {
        assert!(&rt; is_told(alloc, &[thing], line)?, "{line}");
    }
    Ok(())
}

#[test]
fn each_trouble_with_the_builders_own_is_told(rt: HostRuntime) -> Result<(), Fail> {
    let alloc = rt.alloc();
    let cases: [(&[(&'static str, Thing)], &'static str); 12] = [
        (&[("out", Thing::File)], "out: no folder"),
        (&[("out", Thing::Pipe)], "out: no folder"),
        (&[("out", Thing::ToDir)], "out: a link"),
        (&[(".pie", Thing::ToNothing)], ".pie: a link"),
        (&[("out", Thing::Fixed)], "out: this user may not make"),
        (&[("out", Thing::Closed)], "out: this user may not look"),
        (&[(".", Thing::Fixed)], ".: this user may not make"),
        (
            &[("out", Thing::Dir), ("out/a", Thing::ToFile)],
            "out/a: a link",
        ),
        (
            &[("out", Thing::Dir), ("out/a", Thing::Pipe)],
            "out/a: a pipe",
        ),
        (
            &[("out", Thing::Dir), ("out/a", Thing::Far)],
            "out/a: on another file system",
        ),
        (
            &[("out", Thing::Dir), ("out/a", Thing::Hidden)],
            "out/a: this user may not read",
        ),
        (
            &[(".pie", Thing::Dir), (".pie/store", Thing::Dir)],
            ".pie/store: a folder where",
        ),
    ];
    for (things, line) in cases {
        assert!(&rt; is_told(alloc, things, line)?, "{line}");
    }
    Ok(())
}

#[test]
fn what_cannot_be_judged_is_no_finding(rt: HostRuntime) -> Result<(), Fail> {
    let alloc = rt.alloc();
    let (text, is_ok) = told(alloc, &[("out", Thing::Unclear), ("d", Thing::ToDir)], 0)?;
    assert!(&rt; is_ok);
    assert!(&rt;
        text.as_str()
            .starts_with("ok\nout: whether files can be made")
    );
    assert!(&rt; text.as_str().contains("\nd: a link to a folder"));
    let (text, is_ok) = told(alloc, &[], 3)?;
    assert!(&rt; !is_ok);
    assert!(&rt; text.as_str().starts_with(".: a name in it isn't UTF-8"));
    Ok(())
}

// A folder with three hundred pipes that all have one name.
fn many(alloc: Global) -> Result<String, OutOfMemory> {
    let mut things = Vec::new(alloc);
    for _ in 0..300 {
        things.push(("a", Thing::Pipe))?;
    }
    let (text, _) = told(alloc, things.as_slice(), 0)?;
    Ok(text)
}

#[test]
fn at_most_two_hundred_findings_are_told_one_by_one(rt: HostRuntime) -> Result<(), Fail> {
    let text = many(rt.alloc())?;
    assert_eq!(&rt; text.as_str().lines().count(), 201);
    assert!(&rt;
        text.as_str()
            .ends_with("\nand 100 more places like these\n")
    );
    Ok(())
}
