//! The whole look.

use crate::look::{Look, LookError};
use crate::own::look_at_own;
use crate::places::{TOP, names_in, need_use, refuse};
use crate::report::Report;
use crate::sources::{look_at_source, look_at_sources};
use pie_base::OutOfMemory;
use std::alloc::Global;

/// What stands in a folder that a build would answer `files fault` to, and entries that no task sees: the two files of the project first, then `out` and `.pie`, then
/// the sources. Each entry is looked at once. Nothing is changed. Rule: docs/INSPECT.md.
pub fn examined<L: Look>(alloc: Global, look: &L) -> Result<Report, OutOfMemory> {
    let mut report = Report::new(alloc);
    look_at_all(&mut report, look)?;
    Ok(report)
}

fn look_at_all<L: Look>(report: &mut Report, look: &L) -> Result<(), OutOfMemory> {
    look_at_project_file(
        report,
        look,
        "pie.pipeline",
        "not there: go to the folder of a project, or write it (docs/LANGUAGE.md)",
    )?;
    look_at_project_file(
        report,
        look,
        "pie.roots",
        "not there: write it, a task a line, as `main()`",
    )?;
    look_at_owns(report, look)?;
    let names = names_in(report, look, TOP)?;
    look_at_sources(report, look, names)
}

fn look_at_project_file<L: Look>(
    report: &mut Report,
    look: &L,
    place: &str,
    absent: &str,
) -> Result<(), OutOfMemory> {
    match look.entry(place) {
        Ok(entry) => look_at_source(report, look, place, entry.kind),
        Err(LookError::Absent) => report.find(place, absent),
        Err(error) => refuse(report, place, error),
    }
}

// Looks at `out` and `.pie`, and whether those that are missing can be made.
fn look_at_owns<L: Look>(report: &mut Report, look: &L) -> Result<(), OutOfMemory> {
    let mut is_missing = false;
    for top in ["out", ".pie"] {
        if look_at_own(report, look, top)? {
            is_missing = true;
        }
    }
    if is_missing {
        return look_at_root(report, look);
    }
    Ok(())
}

fn look_at_root<L: Look>(report: &mut Report, look: &L) -> Result<(), OutOfMemory> {
    match look.entry(TOP) {
        Ok(entry) => need_use(report, TOP, entry),
        Err(error) => refuse(report, TOP, error),
    }
}
