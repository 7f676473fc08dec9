//! Names, the directories above them, and what is asked. What several questions are answered is told as one text.
use crate::texts::path;
use pie_base::Path;
use pie_files::MemFiles;
use pie_named::Named;
use pie_record::DepKind;
use pie_stamp::hash_of;
use pie_value::Stamp;
use std::alloc::Global;
use std::test::Fail;

// Whether a path is a name, and whether it is above one.
fn tell(alloc: Global, named: &Named, text: &str, said: &mut String) -> Result<(), Fail> {
    let path = path(alloc, text)?;
    said.push_str(if named.is_named(&path) { "n" } else { "-" })?;
    said.push_str(if named.is_above(&path) { "a" } else { "-" })?;
    Ok(())
}

fn told(alloc: Global, named: &Named) -> Result<String, Fail> {
    let mut said = String::new(alloc);
    for text in ["sr", "src", "src/a", "src/a/b", "src/a/b/c"] {
        tell(alloc, named, text, &mut said)?;
    }
    Ok(said)
}

// What is told of five paths once `src/a/b` is named.
fn told_of_one(alloc: Global, named: &mut Named) -> Result<String, Fail> {
    let name = path(alloc, "src/a/b")?;
    named.name(&name)?;
    told(alloc, &*named)
}

#[test]
fn a_name_has_each_directory_above_it(rt: HostRuntime) -> Result<(), Fail> {
    let said = told_of_one(rt.alloc(), &mut Named::new(rt.alloc()))?;
    assert!(rt; said.as_str() == "---a-an---");
    Ok(())
}

// Whether an observation of this path would get another stamp now.
fn ask(
    named: &mut Named,
    files: &mut MemFiles,
    at: &Path,
    kind: DepKind,
    recorded: &Stamp,
    said: &mut String,
) -> Result<(), Fail> {
    let differs = named.differs(kind, at, recorded, files)?;
    said.push_str(if differs { "y" } else { "n" })?;
    Ok(())
}

fn ask_hashes(
    named: &mut Named,
    files: &mut MemFiles,
    at: &Path,
    said: &mut String,
) -> Result<(), Fail> {
    let new = Stamp::Hash(hash_of(b"new"));
    ask(named, files, at, DepKind::ReadHash, &new, said)?;
    let old = Stamp::Hash(hash_of(b"old"));
    ask(named, files, at, DepKind::Digest, &old, said)
}

fn ask_marks(
    named: &mut Named,
    files: &mut MemFiles,
    at: &Path,
    said: &mut String,
) -> Result<(), Fail> {
    ask(named, files, at, DepKind::Exists, &Stamp::Present, said)?;
    ask(named, files, at, DepKind::ReadMark, &Stamp::Mark(7), said)?;
    ask(named, files, at, DepKind::ReadMark, &Stamp::Mark(8), said)
}

// One source, whose mark is 7.
fn put(alloc: Global, files: &mut MemFiles) -> Result<(), Fail> {
    let at = path(alloc, "src/a")?;
    files.put(&at, b"new", 7)?;
    Ok(())
}

fn asked(alloc: Global, named: &mut Named, files: &mut MemFiles) -> Result<String, Fail> {
    put(alloc, files)?;
    let at = path(alloc, "src/a")?;
    let mut said = String::new(alloc);
    ask_hashes(named, files, &at, &mut said)?;
    ask_marks(named, files, &at, &mut said)?;
    Ok(said)
}

#[test]
fn recorded_stamps_are_held_against_the_files(rt: HostRuntime) -> Result<(), Fail> {
    let alloc = rt.alloc();
    let mut files = MemFiles::new(alloc);
    let said = asked(alloc, &mut Named::new(alloc), &mut files)?;
    // The file that was put, and three questions: by hash, by presence and by mark.
    assert!(rt; said.as_str() == "nynny" && files.log().len() == 4);
    Ok(())
}

fn listed(alloc: Global, named: &mut Named, files: &mut MemFiles) -> Result<String, Fail> {
    put(alloc, files)?;
    let dir = path(alloc, "src")?;
    let mut said = String::new(alloc);
    let entries = [5, 0, 0, 0, 1, 4, 0, 0, 0, 5, b's', b'r', b'c', b'/', b'a'];
    let now = Stamp::Hash(hash_of(&entries));
    ask(named, files, &dir, DepKind::List, &now, &mut said)?;
    let none = Stamp::Hash(hash_of(&[5, 0, 0, 0, 0]));
    ask(named, files, &dir, DepKind::List, &none, &mut said)?;
    Ok(said)
}

#[test]
fn a_listing_is_of_what_is_there_now(rt: HostRuntime) -> Result<(), Fail> {
    let alloc = rt.alloc();
    let said = listed(alloc, &mut Named::new(alloc), &mut MemFiles::new(alloc))?;
    assert!(rt; said.as_str() == "ny");
    Ok(())
}
