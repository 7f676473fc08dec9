//! The sources: all that stands outside `out` and `.pie`.

use crate::look::{Kind, Look, LookError};
use crate::places::{TOP, add_dirs, is_path, names_in, need_read, place_in, refuse};
use crate::report::Report;
use pie_base::OutOfMemory;

/// Looks at all sources. A link is followed to a file, but not to a folder. `names` are those of the folder itself.
pub(crate) fn look_at_sources<L: Look>(
    report: &mut Report,
    look: &L,
    names: Vec<String>,
) -> Result<(), OutOfMemory> {
    let mut dirs = Vec::new(report.alloc());
    look_at_names(report, look, TOP, names, &mut dirs)?;
    for _ in 0..u64::MAX {
        let Some(dir) = dirs.pop() else {
            break;
        };
        look_into(report, look, dir.as_str(), &mut dirs)?;
    }
    Ok(())
}

fn look_into<L: Look>(
    report: &mut Report,
    look: &L,
    dir: &str,
    dirs: &mut Vec<String>,
) -> Result<(), OutOfMemory> {
    let names = names_in(report, look, dir)?;
    look_at_names(report, look, dir, names, dirs)
}

// Looks at the entries of a folder, and notes the folders among them.
fn look_at_names<L: Look>(
    report: &mut Report,
    look: &L,
    dir: &str,
    names: Vec<String>,
    dirs: &mut Vec<String>,
) -> Result<(), OutOfMemory> {
    let mut fresh = Vec::new(report.alloc());
    for name in &names {
        if !is_apart(dir, name.as_str()) {
            look_at_name(report, look, dir, name.as_str(), &mut fresh)?;
        }
    }
    add_dirs(dirs, fresh)
}

// Whether an entry is the program's own or one of the two files of the project, which are looked at apart.
fn is_apart(dir: &str, name: &str) -> bool {
    dir == TOP && matches!(name, "out" | ".pie" | "pie.pipeline" | "pie.roots")
}

fn look_at_name<L: Look>(
    report: &mut Report,
    look: &L,
    dir: &str,
    name: &str,
    dirs: &mut Vec<String>,
) -> Result<(), OutOfMemory> {
    let place = place_in(report.alloc(), dir, name)?;
    if !is_path(report, dir, name, place.as_str())? {
        return Ok(());
    }
    match look.entry(place.as_str()) {
        Ok(entry) => match entry.kind {
            Kind::Dir => {
                dirs.push(place)?;
                Ok(())
            }
            kind => look_at_source(report, look, place.as_str(), kind),
        },
        Err(error) => refuse(report, place.as_str(), error),
    }
}

/// Looks at what is no folder.
pub(crate) fn look_at_source<L: Look>(
    report: &mut Report,
    look: &L,
    place: &str,
    kind: Kind,
) -> Result<(), OutOfMemory> {
    match kind {
        Kind::File => need_read(report, look, place),
        Kind::Link => look_beyond(report, look, place),
        Kind::Other => report.find(
            place,
            "a pipe, a socket or a device: tasks see no file there; put a file in its place",
        ),
        Kind::Dir => report.find(
            place,
            "a folder, where a file is wanted: put the file in its place",
        ),
    }
}

fn look_beyond<L: Look>(report: &mut Report, look: &L, place: &str) -> Result<(), OutOfMemory> {
    match look.beyond(place) {
        Ok(entry) => match entry.kind {
            Kind::Dir => report.leave(
                place,
                "a link to a folder: what stands behind it wasn't looked at",
            ),
            Kind::File => need_read(report, look, place),
            Kind::Link | Kind::Other => report.find(
                place,
                "a link to a pipe, a socket or a device: tasks see no file there; put a file in its place",
            ),
        },
        Err(LookError::Absent) => report.find(
            place,
            "a link that leads nowhere: tasks see no file there; mend it or take it away",
        ),
        Err(error) => refuse(report, place, error),
    }
}
