//! The stores that whole builds leave.
use crate::tests::{fill, lacks, path};
use pie_build::rebuild;
use pie_files::{Files, SureFiles};
use pie_store::decode_store;
use pie_value::Verdict;
use pie_vm::Runs;
use std::alloc::Global;
use std::process::Abort;
use std::test::Fail;

const PAGE: &str =
    "func main() -> unit { write(path(\"out/page\"), get(read(path(\"src/page\"))) + \"!\"); }";

// The store of a build of this with `src/page` = `hi`: its one record begins at 69.
const PAGE_STORE: &[u8] =
    b"\x50\x49\x45\x53\x02\x00\x00\x00\x01\x00\x00\x00\x04\x6d\x61\x69\x6e\x2a\x45\xbc\x15\x77\x4f\xc8\x8e\xcf\x60\xfd\xcf\x87\x23\xa4\xfe\xdf\xd5\x9e\
    \xd9\x3a\x41\x3c\x46\x15\x34\xf9\x4f\xc4\x1b\x11\x11\x00\x00\x00\x01\x00\x00\x00\x04\x6d\x61\x69\x6e\x00\x00\x00\x00\x00\x00\x00\x01\x00\x00\x00\
    \x04\x6d\x61\x69\x6e\x00\x00\x00\x00\x00\x00\x00\x01\x02\x00\x00\x00\x08\x73\x72\x63\x2f\x70\x61\x67\x65\x02\x8f\x43\x43\x46\x64\x8f\x6b\x96\xdf\
    \x89\xdd\xa9\x01\xc5\x17\x6b\x10\xa6\xd8\x39\x61\xdd\x3c\x1a\xc8\x8b\x59\xb2\xdc\x32\x7a\xa4\x00\x00\x00\x01\x00\x00\x00\x08\x6f\x75\x74\x2f\x70\
    \x61\x67\x65\xc0\xdd\xd6\x2c\x77\x17\x18\x0e\x7f\xfb\x8a\x15\xbb\x96\x74\xd3\xec\x92\x59\x2e\x0b\x7a\xc7\xd1\xd5\x28\x98\x36\xb4\x55\x3b\xe2\x00\
    \x09\x75\xe5\x73\x92\xbc\x04\x02\x90\xde\x43\x61\x1f\xed\x24\xb2\x60\x77\xf9\x12\xfb\x70\x70\x36\xdf\xe4\x0b\x90\x7a\x5e\xd1\x5d";

const TWO: &str = "func one() -> unit { write(path(\"out/one\"), get(read(path(\"s\")))); }
func two() -> unit { write(path(\"out/two\"), get(read(path(\"s\")))); }
func three() -> unit { require one() }
";

// Builds a project; whether it is accepted.
fn is_accepted(alloc: Global, files: &mut SureFiles) -> Result<bool, Fail> {
    let mut runs = Runs::new(alloc);
    match rebuild(alloc, files, &mut runs) {
        Ok(report) => Ok(matches!(report.verdict, Verdict::Accepted)),
        Err(_) => Err(Fail::from("a build")),
    }
}

// The bytes of the store.
fn store(alloc: Global, files: &mut SureFiles) -> Result<Vec<u8>, Fail> {
    let at = path(alloc, ".pie/store")?;
    match files.read(&at)? {
        Some(found) => Ok(found.bytes),
        None => Err(Fail::from("no store")),
    }
}

// At this offset these bytes stand.
fn stands(bytes: &[u8], at: usize, wanted: &[u8]) -> bool {
    at <= bytes.len() && bytes[at..].starts_with(wanted)
}

// A build of one page leaves exactly this store.
fn leaves_the_store_of_a_page(
    rt: &impl Abort,
    alloc: Global,
    files: &mut SureFiles,
) -> Result<(), Fail> {
    let accepted = is_accepted(alloc, files)?;
    assert!(rt; accepted);
    let bytes = store(alloc, files)?;
    assert_eq!(rt; bytes.len(), 212);
    assert!(rt; bytes.as_slice() == PAGE_STORE);
    assert!(rt;
        stands(
            bytes.as_slice(),
            65,
            b"\x00\x00\x00\x01\x00\x00\x00\x04main"
        )
    );
    Ok(())
}

// Two builds of one page, each of which leaves exactly this store.
fn leaves_it_twice(rt: &impl Abort, alloc: Global, files: &mut SureFiles) -> Result<(), Fail> {
    fill(
        alloc,
        files,
        &[
            ("pie.pipeline", PAGE),
            ("pie.roots", "main()"),
            ("src/page", "hi"),
            (".pie/store", "no store"),
        ],
    )?;
    leaves_the_store_of_a_page(rt, alloc, files)?;
    leaves_the_store_of_a_page(rt, alloc, files)
}

#[test]
fn a_build_leaves_its_store(rt: HostRuntime) -> Result<(), Fail> {
    leaves_it_twice(&rt, rt.alloc(), &mut SureFiles::new(rt.alloc()))
}

// The store of a build of two tasks.
fn store_of_two(alloc: Global, files: &mut SureFiles) -> Result<Vec<u8>, Fail> {
    fill(
        alloc,
        files,
        &[
            ("pie.pipeline", TWO),
            ("pie.roots", "one()\ntwo()"),
            ("s", "1"),
        ],
    )?;
    if !is_accepted(alloc, files)? {
        return Err(Fail::from("refused"));
    }
    store(alloc, files)
}

// How many functions, roots and records a store has, where its version is 2.
fn counts(alloc: Global, bytes: &[u8]) -> Result<(usize, usize, usize), Fail> {
    let image = decode_store(alloc, bytes)?;
    if image.version != 2 {
        return Err(Fail::from("version"));
    }
    let roots = image.roots.as_slice().len();
    Ok((
        image.funcs.as_slice().len(),
        roots,
        image.rows.as_slice().len(),
    ))
}

#[test]
fn a_store_has_roots_and_records_in_order(rt: HostRuntime) -> Result<(), Fail> {
    let alloc = rt.alloc();
    let bytes = store_of_two(alloc, &mut SureFiles::new(alloc))?;
    assert_eq!(rt; bytes.len(), 394);
    let one = b"\x00\x00\x00\x03one\x00\x00\x00\x00";
    assert!(rt; stands(bytes.as_slice(), 158, one));
    let two = b"\x00\x00\x00\x03two\x00\x00\x00\x00";
    assert!(rt; stands(bytes.as_slice(), 260, two));
    let counts = counts(alloc, bytes.as_slice())?;
    assert_eq!(rt; counts, (3, 2, 2));
    Ok(())
}

// A build is refused, and keeps the pending names; there is no store.
fn is_refused(rt: &impl Abort, alloc: Global, files: &mut SureFiles) -> Result<(), Fail> {
    assert!(rt; !is_accepted(alloc, files)?);
    assert!(rt; !lacks(alloc, files, ".pie/pending")?);
    assert!(rt; lacks(alloc, files, ".pie/store")?);
    Ok(())
}

// A refused build, and an accepted one, once there is the source.
fn names_go(rt: &impl Abort, alloc: Global, files: &mut SureFiles) -> Result<(), Fail> {
    is_refused(rt, alloc, files)?;
    fill(alloc, files, &[("src/page", "hi")])?;
    assert!(rt; is_accepted(alloc, files)?);
    assert!(rt; lacks(alloc, files, ".pie/pending")?);
    Ok(())
}

#[test]
fn pending_names_go_with_an_accepted_build(rt: HostRuntime) -> Result<(), Fail> {
    let alloc = rt.alloc();
    let held = [
        ("pie.pipeline", PAGE),
        ("pie.roots", "main()"),
        (".pie/pending", "src/page\n"),
    ];
    let mut files = SureFiles::new(alloc);
    fill(alloc, &mut files, &held)?;
    names_go(&rt, alloc, &mut files)
}
