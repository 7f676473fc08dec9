//! Records that stand or don't, by their observations and their writes.
ghost use Rattle.std.specs.Prelude.{◌≡◌, length, OnOk};
ghost use Rattle.pie_tables.specs.Tabled.{IsTables};

use crate::records::{add, record};
use pie_base::Path;
use pie_compare::{is_touched, stands};
use pie_files::MemFiles;
use pie_graph::{PlainRows, TaskNo};
use pie_named::Named;
use pie_record::{Records, TaskNames};
use pie_tables::Tables;
use std::alloc::Global;
use std::test::Fail;

// Adds `a` and `b`, which both wrote `out/a`, `c`, which requires `a`, and `site`.
fn fill(
    alloc: Global,
    tables: &mut Tables,
    rows: &mut PlainRows,
    deps: &str,
    writes: &str,
) -> Result<(), Fail>
    requires tables { IsTables tables.old }
    requires rows { length tables.old.names ≡ length rows.old }
    ensures tables { OnOk result (IsTables tables.new) }
    ensures rows { OnOk result (length tables.new.names ≡ length rows.new) }
{
    add(alloc, tables, rows, None, "a", "", "out/a A")?;
    add(alloc, tables, rows, None, "b", "", "out/a B")?;
    add(alloc, tables, rows, Some(0), "c", "run a done", "")?;
    add(alloc, tables, rows, None, "site", deps, writes)
}

// Whether the record of `site` stands.
fn site_stands(alloc: Global, deps: &str, writes: &str, named: &Named) -> Result<bool, Fail> {
    let mut tables = Tables::new(alloc, TaskNames::new(alloc), Records::new(alloc))?;
    let mut rows = PlainRows::new(alloc);
    fill(alloc, &mut tables, &mut rows, deps, writes)?;
    let stands = stands(alloc, &tables, &rows, named, TaskNo(3))?;
    Ok(stands)
}

#[test]
fn a_record_stands_where_its_stamps_are_those_of_now(rt: HostRuntime) -> Result<(), Fail> {
    let cases = [
        ("", "", true),
        (
            "read s one,digest s one,exists s present,mark s seven,list src one",
            "",
            true,
        ),
        ("read pie.roots absent", "", true),
        ("exists .pie/store present", "", false),
        ("read out/a absent", "", true),
        ("read out/a A", "", false),
        ("run a done,read out/a A", "", true),
        (
            "run a done,mark out/a A,digest out/a A,exists out/a present",
            "",
            true,
        ),
        ("run a done,read out/a B", "", false),
        ("run a done,exists out/a absent", "", false),
        ("run a done,list out/a A", "", false),
        ("read out/a absent,run a done", "", true),
        ("read out/a A,run a done", "", false),
        ("run c done,read out/a A", "", true),
        ("run a done,run b done,read out/a A", "", false),
        ("run a done,run b done,read out/a absent", "", false),
        ("read out/site S", "out/site S", true),
        ("read out/site T", "out/site S", false),
        ("run a done,read out/a X", "out/a X", true),
        ("require a true", "", true),
        ("require a false", "", false),
        ("hashed a #true", "", true),
        ("hashed a one", "", false),
        ("run d done", "", false),
    ];
    for (deps, writes, wanted) in cases {
        let named = Named::new(rt.alloc());
        let stands = site_stands(rt.alloc(), deps, writes, &named)?;
        assert!(rt; stands == wanted, "at {deps}");
    }
    Ok(())
}

fn path(alloc: Global, text: &str) -> Result<Path, Fail> {
    Ok(Path::read(alloc, text).map_err(|_| "path")?)
}

// The files `s`, with the mark 7, and `out/site`.
fn put_files(alloc: Global, files: &mut MemFiles) -> Result<(), Fail> {
    files.put(&path(alloc, "s")?, b"new", 7)?;
    files.put(&path(alloc, "out/site")?, b"T", 8)?;
    Ok(())
}

fn touched(
    alloc: Global,
    named: &mut Named,
    deps: &str,
    writes: &str,
    files: &mut MemFiles,
) -> Result<bool, Fail> {
    let rec = record(alloc, "site", deps, writes)?;
    let touched = is_touched(named, &rec, files)?;
    Ok(touched)
}

// Whether the record of `site` is touched where this path is named, how often the files were asked, and whether it stands then.
fn asked(
    alloc: Global,
    named: &mut Named,
    name: &str,
    deps: &str,
    writes: &str,
    files: &mut MemFiles,
) -> Result<String, Fail> {
    named.name(&path(alloc, name)?)?;
    put_files(alloc, files)?;
    let before = files.log().len();
    let touched = touched(alloc, named, deps, writes, files)?;
    let asked = files.log().len().saturating_sub(before);
    let stands = site_stands(alloc, deps, writes, named)?;
    Ok(format!(in alloc; "{touched} {asked} {stands}")?)
}

fn told(alloc: Global, deps: &str, writes: &str, name: &str) -> Result<String, Fail> {
    let mut named = Named::new(alloc);
    let mut files = MemFiles::new(alloc);
    asked(alloc, &mut named, name, deps, writes, &mut files)
}

#[test]
fn named_paths_alone_are_asked_for(rt: HostRuntime) -> Result<(), Fail> {
    let cases = [
        (
            "read s new,digest s new,mark s seven,exists s present",
            "",
            "s",
            "false 3 true",
        ),
        ("read s old", "", "s", "true 1 false"),
        ("exists s absent", "", "s", "true 1 false"),
        ("mark s absent", "", "s", "true 1 false"),
        ("read s old", "", "t", "false 0 true"),
        ("list src one", "", "src/a", "true 1 false"),
        ("list src one", "", "src", "false 0 true"),
        ("read out/site absent", "", "out/site", "false 0 true"),
        ("read pie.roots one", "", "pie.roots", "false 0 false"),
        ("run a done", "", "a", "false 0 true"),
        ("", "out/site T", "out/site", "false 1 true"),
        ("", "out/site S", "out/site", "true 1 false"),
        ("", "out/site S", "s", "false 0 true"),
    ];
    for (deps, writes, name, wanted) in cases {
        let told = told(rt.alloc(), deps, writes, name)?;
        assert_eq!(rt; told.as_str(), wanted, "at {deps} {writes}");
    }
    Ok(())
}
