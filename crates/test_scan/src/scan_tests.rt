//! Scans are told as text: each entry's path and mark.
use pie_base::Path;
use pie_files::SureFiles;
use pie_scan::{Entry, changed, scan};
use pie_stamp::hash_of;
use std::alloc::Global;
use std::test::Fail;

fn path(alloc: Global, text: &str) -> Result<Path, Fail> {
    Ok(Path::read(alloc, text).map_err(|_| "path")?)
}

fn paths(alloc: Global, texts: &[&str]) -> Result<Vec<Path>, Fail> {
    let mut list = Vec::new(alloc);
    for text in texts {
        list.push(path(alloc, *text)?)?;
    }
    Ok(list)
}

// Files with these bytes, each with the mark 7.
fn files(alloc: Global, rows: &[(&str, &str)]) -> Result<SureFiles, Fail> {
    let mut files = SureFiles::new(alloc);
    for (at, text) in rows {
        files.put(&path(alloc, *at)?, text.as_bytes(), 7)?;
    }
    Ok(files)
}

fn scanned(alloc: Global, files: &mut SureFiles, tops: &[&str]) -> Result<Vec<Entry>, Fail> {
    let tops = paths(alloc, tops)?;
    Ok(scan(alloc, files, tops.as_slice()).map_err(|_| "files")?)
}

fn told(alloc: Global, entries: &[Entry]) -> Result<String, Fail> {
    let mut said = String::new(alloc);
    for entry in entries {
        said.push_str(entry.path.as_str())?;
        said.push_str(if entry.mark == 7 { "! " } else { " " })?;
    }
    Ok(said)
}

const SITE: [(&str, &str); 9] = [
    ("inc/foot", "end"),
    ("out/a", "A"),
    ("out/b/c", "B"),
    ("pie.pipeline", "x"),
    (".pie/store", "y"),
    ("src", "file"),
    ("src-b", "z"),
    ("src/a", "A"),
    ("src/b/c", "C"),
];

#[test]
fn sources_at_or_below_a_top_and_all_under_out_are_scanned(rt: HostRuntime) -> Result<(), Fail> {
    let alloc = rt.alloc();
    let cases: [(&[&str], &str); 7] = [
        (&[], "out/a out/b/c "),
        (&["src"], "out/a out/b/c src! src/a! src/b/c! "),
        (&["src/b", "src"], "out/a out/b/c src! src/a! src/b/c! "),
        (&["inc/foot"], "inc/foot! out/a out/b/c "),
        (&["out", "out/a", ".pie", "pie.pipeline"], "out/a out/b/c "),
        (&["none"], "out/a out/b/c "),
        (&["src-b", "inc", "inc"], "inc/foot! out/a out/b/c src-b! "),
    ];
    for (tops, wanted) in cases {
        let mut files = files(alloc, SITE.as_slice())?;
        let entries = scanned(alloc, &mut files, tops)?;
        let said = told(alloc, entries.as_slice())?;
        assert_eq!(rt; said.as_str(), wanted);
    }
    Ok(())
}

#[test]
fn an_entry_has_the_hash_of_the_bytes(rt: HostRuntime) -> Result<(), Fail> {
    let alloc = rt.alloc();
    let mut files = files(alloc, &[("out/a", "A"), ("s", "S")])?;
    let entries = scanned(alloc, &mut files, &["s"])?;
    let mut good = true;
    for entry in &entries {
        let bytes = if entry.mark == 7 {
            b"S".as_slice()
        } else {
            b"A".as_slice()
        };
        good = good && entry.hash == hash_of(bytes);
    }
    // Two files were put, two directories were listed, and two files were read.
    assert!(rt; good && entries.len() == 2 && files.log().len() == 6);
    Ok(())
}

// The paths at which two directories differ, where `s` and `t` are scanned.
fn differing(
    alloc: Global,
    before: &mut SureFiles,
    now: &mut SureFiles,
) -> Result<Vec<Path>, Fail> {
    let tops = paths(alloc, &["s", "t"])?;
    let old = match scan(alloc, before, tops.as_slice()) {
        Ok(entries) => entries,
        Err(_) => return Err("files")?,
    };
    let new = match scan(alloc, now, tops.as_slice()) {
        Ok(entries) => entries,
        Err(_) => return Err("files")?,
    };
    Ok(changed(alloc, old.as_slice(), new.as_slice())?)
}

// The same as text.
fn told_paths(
    alloc: Global,
    before: &[(&str, &str)],
    now: &[(&str, &str)],
) -> Result<String, Fail> {
    let mut old = files(alloc, before)?;
    let mut new = files(alloc, now)?;
    let found = differing(alloc, &mut old, &mut new)?;
    let mut said = String::new(alloc);
    for path in &found {
        said.push_str(path.as_str())?;
        said.push_str(" ")?;
    }
    Ok(said)
}

#[test]
fn exactly_the_paths_that_differ_are_told(rt: HostRuntime) -> Result<(), Fail> {
    let alloc = rt.alloc();
    let none: &[(&str, &str)] = &[];
    let a: &[(&str, &str)] = &[("s/a", "A"), ("s/c", "C"), ("t", "T")];
    let b: &[(&str, &str)] = &[("s/a", "A"), ("s/b", "B"), ("t", "X")];
    let c: &[(&str, &str)] = &[("out/p", "P"), ("s/a", "B"), ("u", "U")];
    let cases = [
        (none, none, ""),
        (a, a, ""),
        (none, a, "s/a s/c t "),
        (a, none, "s/a s/c t "),
        (a, b, "s/b s/c t "),
        (b, a, "s/b s/c t "),
        (a, c, "out/p s/a s/c t "),
        (c, b, "out/p s/a s/b t "),
    ];
    for (before, now, wanted) in cases {
        let said = told_paths(alloc, before, now)?;
        assert_eq!(rt; said.as_str(), wanted);
    }
    Ok(())
}
