//! What is told by records.
ghost use Rattle.pie_earlier_laws.specs.Telling.{RankedRecordsTell};

/// What is told of paths by records whose requires go to lower ranks can be computed, and is so. Rule: docs/MODEL.md.
pub fn ranked_records_tell()
    ensures { RankedRecordsTell }
{}
