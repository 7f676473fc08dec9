//! The program's own: all that stands below `out` and `.pie`.

use crate::look::{Entry, Kind, Look, LookError};
use crate::places::{add_dirs, is_path, names_in, need_read, need_use, place_in, refuse};
use crate::report::Report;
use pie_base::OutOfMemory;

/// Looks at `out` or at `.pie`, and at all below it. Answers whether it is missing, so that a build has to make it.
pub(crate) fn look_at_own<L: Look>(
    report: &mut Report,
    look: &L,
    top: &str,
) -> Result<bool, OutOfMemory> {
    match look.entry(top) {
        Ok(entry) => {
            look_at_top(report, look, top, entry)?;
            Ok(false)
        }
        Err(LookError::Absent) => Ok(true),
        Err(error) => {
            refuse(report, top, error)?;
            Ok(false)
        }
    }
}

fn look_at_top<L: Look>(
    report: &mut Report,
    look: &L,
    top: &str,
    entry: Entry,
) -> Result<(), OutOfMemory> {
    match entry.kind {
        Kind::Dir => {
            need_use(report, top, entry)?;
            look_below(report, look, top, entry.system)
        }
        Kind::Link => report.find(
            top,
            "a link, and none is followed here: each build fails; put a folder in its place",
        ),
        Kind::File | Kind::Other => report.find(
            top,
            "no folder: each build that writes there fails; move it away",
        ),
    }
}

fn look_below<L: Look>(
    report: &mut Report,
    look: &L,
    top: &str,
    system: u64,
) -> Result<(), OutOfMemory> {
    let mut dirs = Vec::new(report.alloc());
    let top = String::from_str(report.alloc(), top)?;
    dirs.push(top)?;
    for _ in 0..u64::MAX {
        let Some(dir) = dirs.pop() else {
            break;
        };
        look_into(report, look, dir.as_str(), system, &mut dirs)?;
    }
    Ok(())
}

fn look_into<L: Look>(
    report: &mut Report,
    look: &L,
    dir: &str,
    system: u64,
    dirs: &mut Vec<String>,
) -> Result<(), OutOfMemory> {
    let names = names_in(report, look, dir)?;
    let mut fresh = Vec::new(report.alloc());
    for name in &names {
        look_at_name(report, look, dir, name.as_str(), system, &mut fresh)?;
    }
    add_dirs(dirs, fresh)
}

fn look_at_name<L: Look>(
    report: &mut Report,
    look: &L,
    dir: &str,
    name: &str,
    system: u64,
    dirs: &mut Vec<String>,
) -> Result<(), OutOfMemory> {
    let place = place_in(report.alloc(), dir, name)?;
    if !is_path(report, dir, name, place.as_str())? {
        return Ok(());
    }
    match look.entry(place.as_str()) {
        Ok(entry) => {
            if look_at(report, look, place.as_str(), entry, system)? {
                dirs.push(place)?;
            }
            Ok(())
        }
        Err(error) => refuse(report, place.as_str(), error),
    }
}

// Looks at an entry. Answers whether it is a folder to look into.
fn look_at<L: Look>(
    report: &mut Report,
    look: &L,
    place: &str,
    entry: Entry,
    system: u64,
) -> Result<bool, OutOfMemory> {
    match entry.kind {
        Kind::Dir => look_at_dir(report, place, entry, system),
        Kind::File => {
            need_read(report, look, place)?;
            Ok(false)
        }
        Kind::Link => {
            report.find(place, said_of_link(place))?;
            Ok(false)
        }
        Kind::Other => {
            report.find(place, said_of_other(place))?;
            Ok(false)
        }
    }
}

fn look_at_dir(
    report: &mut Report,
    place: &str,
    entry: Entry,
    system: u64,
) -> Result<bool, OutOfMemory> {
    if entry.system != system {
        report.find(
            place,
            "on another file system than the folder at the top: no file can be moved there; unmount it",
        )?;
        return Ok(false);
    }
    if is_own_file(place) {
        report.find(
            place,
            "a folder where the builder keeps a file: take it away",
        )?;
    }
    need_use(report, place, entry)?;
    Ok(true)
}

// Whether the builder keeps a file at a place.
fn is_own_file(place: &str) -> bool {
    matches!(
        place,
        ".pie/store" | ".pie/open" | ".pie/pending" | ".pie/manifest" | ".pie/cache/open"
    )
}

fn said_of_link(place: &str) -> &'static str {
    if place.starts_with("out/") {
        "a link, and none is followed here: it reads as nothing, and the next accepted build takes it away; keep outputs in `out` itself"
    } else {
        "a link, and none is followed here: it reads as nothing; take it away"
    }
}

fn said_of_other(place: &str) -> &'static str {
    if place.starts_with("out/") {
        "a pipe, a socket or a device: it reads as nothing, and the next accepted build takes it away"
    } else {
        "a pipe, a socket or a device: it reads as nothing; take it away"
    }
}
