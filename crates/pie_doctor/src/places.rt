//! Places, and what is said of entries wherever they stand.

use crate::look::{Entry, Judged, Look, LookError, Names};
use crate::report::Report;
use pie_base::{OutOfMemory, Path, PathError};
use std::alloc::Global;

/// The folder itself.
pub(crate) const TOP: &str = ".";

// The name of a new entry until it takes its place.
const FRESH: &str = "\u{7f}new";

/// What a user can do who may not look.
pub(crate) const DENIED: &str =
    "this user may not look at it: give the rights (`chmod u+rwX`), or take the entry away";

pub(crate) const FAILED: &str = "the system refuses to look at it: see what `ls -l` says of it";

/// The place of a name in a folder.
pub(crate) fn place_in(alloc: Global, dir: &str, name: &str) -> Result<String, OutOfMemory> {
    let place = if dir == TOP {
        format!(in alloc; "{name}")?
    } else {
        format!(in alloc; "{dir}/{name}")?
    };
    Ok(place)
}

/// The names in a folder in their order. Where they can't be told, that is found, and there are none.
pub(crate) fn names_in<L: Look>(
    report: &mut Report,
    look: &L,
    dir: &str,
) -> Result<Vec<String>, OutOfMemory> {
    match look.names(dir) {
        Ok(names) => sorted(report, dir, names),
        Err(error) => {
            refuse(report, dir, error)?;
            Ok(Vec::new(report.alloc()))
        }
    }
}

fn sorted(report: &mut Report, dir: &str, names: Names) -> Result<Vec<String>, OutOfMemory> {
    let Names { mut names, odd } = names;
    if odd > 0 {
        report.find(
            dir,
            "a name in it isn't UTF-8: no task sees that entry, and no build takes it away; rename it",
        )?;
    }
    names.sort()?;
    Ok(names)
}

/// Notes that a look was refused. Where nothing is there any more, nothing is to be noted.
pub(crate) fn refuse(
    report: &mut Report,
    place: &str,
    error: LookError,
) -> Result<(), OutOfMemory> {
    match error {
        LookError::Absent => Ok(()),
        LookError::Denied => report.find(place, DENIED),
        LookError::Failed => report.find(place, FAILED),
        LookError::OutOfMemory => Err(OutOfMemory),
    }
}

/// Whether a place spells a path. Where it doesn't, that is found.
pub(crate) fn is_path(
    report: &mut Report,
    dir: &str,
    name: &str,
    place: &str,
) -> Result<bool, OutOfMemory> {
    match Path::read(report.alloc(), place) {
        Ok(_) => Ok(true),
        Err(PathError::OutOfMemory) => Err(OutOfMemory),
        Err(PathError::TooLong) => {
            report.find(
                place,
                "its path has more than 255 bytes: no task sees it, and no build takes it away; shorten it",
            )?;
            Ok(false)
        }
        Err(PathError::Empty) | Err(PathError::BadSegment) => {
            report.find(place, said_of_name(dir, name))?;
            Ok(false)
        }
    }
}

fn said_of_name(dir: &str, name: &str) -> &'static str {
    if name == FRESH && matches!(dir, TOP | "out" | ".pie") {
        "a build that was stopped left it: the next build takes it away"
    } else {
        "its name has a control character: no task sees it, and no build takes it away; rename it"
    }
}

/// Notes where a file can't be read.
pub(crate) fn need_read<L: Look>(
    report: &mut Report,
    look: &L,
    place: &str,
) -> Result<(), OutOfMemory> {
    match look.open(place) {
        Ok(()) | Err(LookError::Absent) => Ok(()),
        Err(LookError::OutOfMemory) => Err(OutOfMemory),
        Err(LookError::Denied) => report.find(
            place,
            "this user may not read it: give the right (`chmod u+r`), or make it the user's own",
        ),
        Err(LookError::Failed) => report.find(
            place,
            "the system can't read it: the disk may be damaged; put another file in its place",
        ),
    }
}

/// Notes where nothing can be made in a folder and taken away.
pub(crate) fn need_use(report: &mut Report, place: &str, entry: Entry) -> Result<(), OutOfMemory> {
    match entry.is_usable {
        Judged::Yes => Ok(()),
        Judged::No => report.find(
            place,
            "this user may not make and remove files in it: give the rights (`chmod u+rwx`), or make it the user's own",
        ),
        Judged::Unknown => report.leave(
            place,
            "whether files can be made and removed in it can't be judged by its rights alone",
        ),
    }
}

/// Moves folders to those that are still to be looked into, so that the first of them is taken next.
pub(crate) fn add_dirs(dirs: &mut Vec<String>, mut fresh: Vec<String>) -> Result<(), OutOfMemory> {
    for _ in 0..u64::MAX {
        let Some(dir) = fresh.pop() else {
            break;
        };
        dirs.push(dir)?;
    }
    Ok(())
}
