//! Listings are told as text: the paths, or the reason.
use pie_base::Path;
use pie_files::{FilesError, SureFiles};
use pie_listing::{Listing, Reason, list};
use pie_scan::{Entries, Manifest, Tops, in_path_order, scan, write_manifest};
use pie_stamp::hash_of;
use std::alloc::Global;
use std::test::Fail;

fn path(alloc: Global, text: &str) -> Result<Path, Fail> {
    Ok(Path::read(alloc, text).map_err(|_| "path")?)
}

fn paths(alloc: Global, texts: &[&str]) -> Result<Vec<Path>, Fail> {
    let mut list = Vec::new(alloc);
    for text in texts {
        list.push(path(alloc, *text)?)?;
    }
    Ok(list)
}

// The text of the manifest of these files, for a store of the bytes `store`.
fn manifest(alloc: Global, files: &mut SureFiles, tops: &[Path]) -> Result<Vec<u8>, FilesError> {
    let entries = scan(alloc, files, tops)?;
    let tops = in_path_order(alloc, tops)?;
    if tops.len() > 9 {
        return Err(FilesError::OutOfMemory);
    }
    let manifest = Manifest {
        store: hash_of(b"store"),
        tops: Tops::new(tops),
        entries: Entries::new(entries),
    };
    let text = write_manifest(alloc, &manifest)?;
    Ok(text)
}

// A site that was built: two sources, a file under `out/`, and a store.
fn site(alloc: Global) -> Result<SureFiles, Fail> {
    let mut files = SureFiles::new(alloc);
    for text in ["inc/foot", "out/a", "src/a", "src/b"] {
        files.put(&path(alloc, text)?, b"text", 7)?;
    }
    files.put(&path(alloc, ".pie/store")?, b"store", 1)?;
    Ok(files)
}

// The same with its manifest.
fn kept(alloc: Global, tops: &[&str]) -> Result<SureFiles, Fail> {
    let mut files = site(alloc)?;
    let tops = paths(alloc, tops)?;
    match manifest(alloc, &mut files, tops.as_slice()) {
        Ok(text) => files.put(&path(alloc, ".pie/manifest")?, text.as_slice(), 2)?,
        Err(_) => return Err("manifest")?,
    }
    Ok(files)
}

fn listed(alloc: Global, files: &mut SureFiles, tops: &[&str]) -> Result<String, Fail> {
    let tops = paths(alloc, tops)?;
    match list(alloc, files, tops.as_slice()) {
        Ok(Listing::Listed(found)) => told(alloc, found.as_slice()),
        Ok(Listing::Unlisted(reason)) => Ok(String::from_str(alloc, named(reason))?),
        Err(_) => Err("files")?,
    }
}

fn told(alloc: Global, found: &[Path]) -> Result<String, Fail> {
    let mut said = String::from_str(alloc, "listed")?;
    for path in found {
        said.push_str(" ")?;
        said.push_str(path.as_str())?;
    }
    Ok(said)
}

fn named(reason: Reason) -> &'static str {
    match reason {
        Reason::NoManifest => "NoManifest",
        Reason::BadManifest(_) => "BadManifest",
        Reason::OtherStore => "OtherStore",
        Reason::OtherTops => "OtherTops",
    }
}

// What is listed below `src` and `inc` after a file was put.
fn after(alloc: Global, at: &str, bytes: &[u8], mark: u64) -> Result<String, Fail> {
    let mut files = kept(alloc, &["src", "inc"])?;
    files.put(&path(alloc, at)?, bytes, mark)?;
    listed(alloc, &mut files, &["inc", "src", "inc"])
}

#[test]
fn what_changed_is_listed_or_the_reason_is_told(rt: HostRuntime) -> Result<(), Fail> {
    let cases: [(&str, &[u8], u64, &str); 9] = [
        ("src/a", b"text", 7, "listed"),
        ("src/a", b"other", 7, "listed src/a"),
        ("src/a", b"text", 8, "listed src/a"),
        ("src/c", b"new", 7, "listed src/c"),
        ("out/a", b"text", 8, "listed"),
        ("out/z", b"stray", 8, "listed out/z"),
        ("lib/a", b"beside", 7, "listed"),
        (".pie/store", b"later", 7, "OtherStore"),
        (".pie/manifest", b"PIEM", 7, "BadManifest"),
    ];
    for (at, bytes, mark, wanted) in cases {
        let said = after(rt.alloc(), at, bytes, mark)?;
        assert_eq!(rt; said.as_str(), wanted);
    }
    Ok(())
}

#[test]
fn without_a_manifest_or_with_other_tops_there_is_no_list(rt: HostRuntime) -> Result<(), Fail> {
    let alloc = rt.alloc();
    let mut bare = site(alloc)?;
    let said = listed(alloc, &mut bare, &["src"])?;
    assert_eq!(rt; said.as_str(), "NoManifest");
    let mut files = kept(alloc, &["src", "inc"])?;
    let said = listed(alloc, &mut files, &["src"])?;
    assert_eq!(rt; said.as_str(), "OtherTops");
    Ok(())
}

#[test]
fn the_manifest_of_seven_files_has_441_bytes(rt: HostRuntime) -> Result<(), Fail> {
    let alloc = rt.alloc();
    let mut files = site(alloc)?;
    for text in ["out/b", "out/c", "src/c", "pie.roots", "src-b"] {
        files.put(&path(alloc, text)?, b"more", 7)?;
    }
    let tops = paths(alloc, &["src", "inc"])?;
    match manifest(alloc, &mut files, tops.as_slice()) {
        Ok(text) => assert_eq!(rt; text.len(), 441),
        Err(_) => Err("manifest")?,
    }
    Ok(())
}
