//! The law on what two scans tell apart, on a function with an empty body.
ghost use Rattle.pie_scan_laws.specs.Naming.{CoveringNamesAllChanges, ScansNameAllChanges};

/// Paths that cover what differs name all changes of the model; and so do the paths at which the scans of two directories differ, where no path has two
/// contents with one SHA-256 and all sources that differ lie at or below a top. Rule: docs/MODEL.md.
pub fn scans_name_all_changes()
    ensures covering { CoveringNamesAllChanges }
    ensures scans { ScansNameAllChanges }
{}
