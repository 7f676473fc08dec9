//! Checks of records by numbers and rows.
ghost use Rattle.pie_topdown_laws.specs.Places.{StoredRecordsAreOld, UpdatesTellApart, SourcesAreStill, ChecksBeginAt, PlacesPassAt};
ghost use Rattle.pie_topdown_laws.specs.Places.{CalledTasksAreRequired, ChecksEndAt};

/// Records of an earlier build's store may be checked.
pub fn stored_records_are_old()
    ensures old { StoredRecordsAreOld }
    ensures apart { UpdatesTellApart }
{}

/// Observations of sources that don't differ from the directory have the stamps of now.
pub fn sources_are_still()
    ensures { SourcesAreStill }
{}

/// A check begins, passes an observation that stands by the tables, requires a task, and ends with a right record.
pub fn records_are_checked()
    ensures begin { ChecksBeginAt }
    ensures pass { PlacesPassAt }
    ensures next { CalledTasksAreRequired }
    ensures end { ChecksEndAt }
{}
